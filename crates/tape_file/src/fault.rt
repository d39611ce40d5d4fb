// Why a line is not the line of a record.
ghost use Rattle.std.specs.Prelude.{Some};
ghost use Rattle.tape_file.specs.Faults.{fault_words};

use std::error::Error;
use std::fmt;

/// What is wrong with a line, at the first word that does not fit.
#[derive(Clone, Copy, PartialEq, Eq, Debug)]
pub enum LineFault {
    MissingWord,
    NoNumber,
    NoOrigin,
    NoTag,
    NoStyle,
    NoRawTag,
    NoEvent,
    WordsLeftOver,
}

impl fmt::Display for LineFault {
    ghost output = { λ x. Some (fault_words x) };

    fn fmt<W: fmt::Write>(&self, f: &mut fmt::Formatter<W>) -> fmt::Result {
        f.write_str(match self {
            LineFault::MissingWord => "the line ends where another word should stand",
            LineFault::NoNumber =>
                "a number below 2^32, with no sign and no leading zero, should stand here",
            LineFault::NoOrigin => "`direct`, `alias` or `merge` should stand here",
            LineFault::NoTag => "the word for a tag should stand here",
            LineFault::NoStyle =>
                "`plain`, `single`, `double`, `literal` or `folded` should stand here",
            LineFault::NoRawTag => "`-` or `raw` should stand here",
            LineFault::NoEvent =>
                "`scalar`, `seq`, `endseq`, `map`, `endmap` or `alias` should stand here",
            LineFault::WordsLeftOver => "the line goes on after the end of its record",
        })
    }
}

impl Error for LineFault {}
