// Integers: sign and magnitude.
ghost use Rattle.std.specs.Prelude.{◌≡◌, ◌≤◌, MatchBool};
ghost use Rattle.scalars.specs.Computed.{integer_in};
ghost use Rattle.scalars.specs.Signs.{is_minus, unsigned};
ghost use Rattle.scalars.specs.Spelling.{Number, Plain, Reading};

use crate::classes::{UNDERSCORE, class_of};
use crate::radix::radix_and_digits;
use crate::trim::yaml_trim;

// Whether a minus sign leads, and what follows the sign, if there is one.
// A pair: sign and rest are both there always, and are taken apart at once.
fn split_sign(text: &[u8]) -> (bool, &[u8])
    ensures minus { result.0 ≡ is_minus text.now }
    ensures rest { result.1.now ≡ unsigned text.now }
{
    match text {
        [b'+', rest @ ..] => (false, rest),
        [b'-', rest @ ..] => (true, rest),
        _ => (false, text),
    }
}

// Whether a zero leads other digits of a decimal.
fn leading_zero(radix: u64, digits: &[u8]) -> bool
    ensures { MatchBool result (Plain radix digits.now → ⊥) (Plain radix digits.now) }
{
    radix == 10 && matches!(digits, [b'0', _, ..])
}

// The number that digits spell, with an underscore between two digits at most.
// A loop: `try_fold` would pack the number and `after_digit` into one tuple, and say no more plainly what a byte changes.
fn parse_digits(radix: u64, digits: &[u8]) -> Option<u64>
    requires some { 1 ≤ radix }
    requires small { radix ≤ 16 }
    ensures { Number radix digits.now result }
{
    let mut value: u64 = 0;
    let mut after_digit = false;
    for b in digits {
        let class = class_of(*b);
        if class == UNDERSCORE {
            if !after_digit {
                return None;
            }
            after_digit = false;
        } else {
            let digit = u64::from(class);
            if digit >= radix {
                return None;
            }
            value = value.checked_mul(radix)?.checked_add(digit)?;
            after_digit = true;
        }
    }
    after_digit.then_some(value)
}

// By a rule of the project the answer is sign and magnitude as a pair, or nothing.
/// The integer that `text` spells, as its sign, `true` for a negative one, and its magnitude. `None` where it spells
/// none, or one whose magnitude takes more than 64 bits.
pub fn parse_integer(text: &[u8]) -> Option<(bool, u64)>
    ensures reading { Reading text.now result }
    ensures computed { result ≡ integer_in text.now }
{
    let (minus, rest) = split_sign(yaml_trim(text));
    let (radix, digits) = radix_and_digits(rest);
    if leading_zero(radix, digits) {
        return None;
    }
    let magnitude = parse_digits(radix, digits)?;
    Some((minus && magnitude != 0, magnitude))
}
