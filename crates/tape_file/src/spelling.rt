// The words for numbers, tags and styles, and what each of these words means.
ghost use Rattle.std.specs.Prelude.{[], ◌∷◌, decimal};
ghost use Rattle.tape_file.specs.Lines.{tag_word, style_word, Small};
ghost use Rattle.tape_file.specs.Reading.{Means};

use crate::fault::LineFault;
use crate::spelled::{Listed, Spelled};
use crate::words::Words;
use records::record::ScalarStyle;
use records::tags::SfTag;

impl Spelled for u32 {
    ghost spelling = { λ n. decimal n ∷ [] };

    ghost fits = { Small };

    fn parse(words: &mut Words) -> Result<u32, LineFault> {
        number_of(words.word()?)
    }
}

// A number as `{}` writes it: with no plus, and no zero in front of another digit.
fn number_of(word: &str) -> Result<u32, LineFault>
    ensures { Means decimal Small word.now result }
{
    if word == "0" {
        return Ok(0);
    }
    if word.starts_with('0') || word.starts_with('+') {
        return Err(LineFault::NoNumber);
    }
    word.parse().map_err(|_| LineFault::NoNumber)
}

impl Listed for SfTag {
    ghost spelled = { tag_word };

    const FAULT: LineFault = LineFault::NoTag;

    fn all() -> &'static [(&'static str, SfTag)] {
        &[
            ("none", SfTag::None),
            ("int", SfTag::Int),
            ("float", SfTag::Float),
            ("bool", SfTag::Bool),
            ("null", SfTag::Null),
            ("seq", SfTag::Seq),
            ("map", SfTag::Map),
            ("timestamp", SfTag::TimeStamp),
            ("binary", SfTag::Binary),
            ("string", SfTag::String),
            ("merge", SfTag::Merge),
            ("value", SfTag::Value),
            ("nonspecific", SfTag::NonSpecific),
            ("include", SfTag::Include),
            ("degrees", SfTag::Degrees),
            ("radians", SfTag::Radians),
            ("other", SfTag::Other),
        ]
    }

    fn word(self) -> &'static str {
        match self {
            SfTag::None => "none",
            SfTag::Int => "int",
            SfTag::Float => "float",
            SfTag::Bool => "bool",
            SfTag::Null => "null",
            SfTag::Seq => "seq",
            SfTag::Map => "map",
            SfTag::TimeStamp => "timestamp",
            SfTag::Binary => "binary",
            SfTag::String => "string",
            SfTag::Merge => "merge",
            SfTag::Value => "value",
            SfTag::NonSpecific => "nonspecific",
            SfTag::Include => "include",
            SfTag::Degrees => "degrees",
            SfTag::Radians => "radians",
            SfTag::Other => "other",
        }
    }
}

impl Listed for ScalarStyle {
    ghost spelled = { style_word };

    const FAULT: LineFault = LineFault::NoStyle;

    fn all() -> &'static [(&'static str, ScalarStyle)] {
        &[
            ("plain", ScalarStyle::Plain),
            ("single", ScalarStyle::SingleQuoted),
            ("double", ScalarStyle::DoubleQuoted),
            ("literal", ScalarStyle::Literal),
            ("folded", ScalarStyle::Folded),
        ]
    }

    fn word(self) -> &'static str {
        match self {
            ScalarStyle::Plain => "plain",
            ScalarStyle::SingleQuoted => "single",
            ScalarStyle::DoubleQuoted => "double",
            ScalarStyle::Literal => "literal",
            ScalarStyle::Folded => "folded",
        }
    }
}
