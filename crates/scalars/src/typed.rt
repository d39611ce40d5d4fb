// What a scalar reads as, by its tag and its style as well as its text.
ghost use Rattle.std.specs.Prelude.{◌≡◌, Decides};
ghost use Rattle.scalars.specs.Computed.{integer_over, null_over};
ghost use Rattle.scalars.specs.Seen.{scalar_in};
ghost use Rattle.scalars.specs.Typed.{NullScalar, TypedReading};

use crate::integer::parse_integer;
use crate::nulls::scalar_is_nullish;
use events::ev::Ev;
use records::record::ScalarStyle;
use records::tags::SfTag;

/// A scalar: its text, its tag and how it was written.
#[derive(Clone, Copy, PartialEq, Eq, Debug)]
pub struct Scalar<'t> {
    pub value: &'t [u8],
    pub tag: SfTag,
    pub style: ScalarStyle,
}

impl<'t> Scalar<'t> {
    /// The scalar that an event is, if it is one.
    pub fn of(ev: Ev<'t>) -> Option<Scalar<'t>>
        ensures { result ≡ scalar_in ev.entry }
    {
        match ev {
            Ev::Scalar {
                value,
                tag,
                style,
                ..
            } => Some(Scalar { value, tag, style }),
            _ => None,
        }
    }

    /// Whether the scalar is null: by its tag, or by a plain null text under a tag that leaves the text to be read.
    pub fn is_null(self) -> bool
        ensures decides { Decides result (NullScalar self.entry.tag self.entry.style self.entry.value.now) }
        ensures computed { result ≡ null_over self.entry.value.now self.entry.tag self.entry.style }
    {
        match (self.tag, self.style) {
            (SfTag::Null, _) => true,
            (SfTag::Binary, _) => false,
            (tag, ScalarStyle::Plain) => {
                !tag.is_core() && !tag.forces_string() && scalar_is_nullish(self.value)
            }
            _ => false,
        }
    }

    // By a rule of the project the answer is sign and magnitude as a pair, or nothing.
    /// The integer that the scalar reads as: one with the tag for integers, or a plain one with no tag.
    pub fn integer(self) -> Option<(bool, u64)>
        ensures reading { TypedReading self.entry.tag self.entry.style self.entry.value.now result }
        ensures computed { result ≡ integer_over self.entry.value.now self.entry.tag self.entry.style }
    {
        match (self.tag, self.style) {
            (SfTag::Int, _) | (SfTag::None, ScalarStyle::Plain) => parse_integer(self.value),
            _ => None,
        }
    }
}
