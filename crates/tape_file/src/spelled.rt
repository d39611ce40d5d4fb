// What stands in a line as words: one trait for all parts of a record, and one for types with few values.
ghost use Rattle.std.specs.Prelude.{◌≡◌, ℕ, List, [], ◌∷◌, ⊤};
ghost use Rattle.tape_file.specs.Reading.{Parses};
ghost use Rattle.tape_file.specs.Tables.{WordsOf, FindsEach};

use crate::fault::LineFault;
use crate::words::Words;

/// A value that stands in a line as one or more words.
pub(crate) trait Spelled: Sized {
    // Its words, and whether its numbers are small enough.
    ghost spelling: { Self → List (List ℕ) };

    ghost fits: { Self → Type 0 };

    /// Reads the value from the front of the words.
    fn parse(words: &mut Words) -> Result<Self, LineFault>
        ensures { Parses spelling fits words.old result words.new };
}

/// A type with few values, each of which has a word.
pub(crate) trait Listed: Copy + 'static {
    ghost spelled: { Self → List ℕ };

    /// The fault of a word that is no value's.
    const FAULT: LineFault;

    /// Every value behind its word, so that looking a word up calls nothing.
    fn all() -> &'static [(&'static str, Self)]
        ensures words { WordsOf spelled result.now }
        ensures each { FindsEach spelled result.now };

    fn word(self) -> &'static str
        ensures { result.now ≡ spelled self };
}

impl<T: Listed> Spelled for T {
    ghost spelling = { λ x. T.spelled x ∷ [] };

    ghost fits = { λ _. ⊤ };

    fn parse(words: &mut Words) -> Result<T, LineFault> {
        let word = words.word()?;
        match T::all().iter().find(|(spelled, _)| *spelled == word) {
            Some((_, x)) => Ok(*x),
            None => Err(T::FAULT),
        }
    }
}
