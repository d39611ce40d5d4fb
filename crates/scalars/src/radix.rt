// The radix that a prefix names.
ghost use Rattle.std.specs.Prelude.{◌≡◌};
ghost use Rattle.scalars.specs.Radices.{radix_of, digits_of};

// By a rule of the project this is a pair of radix and digits, by slice patterns.
/// The radix that the prefix of `rest` names, ten where it has none, and what follows the prefix.
pub fn radix_and_digits(rest: &[u8]) -> (u64, &[u8])
    ensures radix { result.0 ≡ radix_of rest.now }
    ensures digits { result.1.now ≡ digits_of rest.now }
{
    match rest {
        [b'0', b'x' | b'X', digits @ ..] => (16, digits),
        [b'0', b'o' | b'O', digits @ ..] => (8, digits),
        [b'0', b'b' | b'B', digits @ ..] => (2, digits),
        _ => (10, rest),
    }
}
