// The words of a line, one after another.
ghost use Rattle.std.specs.Prelude.{◌≡◌, ℕ, List};
ghost use Rattle.std.specs.Iterator.{YieldsFirstRef, item_count};
ghost use Rattle.tape_file.specs.Reading.{left, Parses, Takes};
ghost use Rattle.tape_file.specs.Spaces.{split};

use crate::fault::LineFault;
use crate::spelled::Spelled;
use std::marker::Model;

/// The words of a line that are still to be read: what is left of it, from the start of a word on, or nothing behind the
/// last word.
// No `Split`: its steps made the reading of a line a quarter dearer.
#[derive(Drop)]
pub(crate) struct Words<'a> {
    rest: Option<&'a str>,
}

impl<'a> Model for Words<'a> {
    ghost Value = { List (List ℕ) };

    ghost view = { λ w. left w.rest };
}

impl<'a> Words<'a> {
    pub(crate) fn new(line: &'a str) -> Words<'a>
        ensures { result ≡ split line.now }
    {
        Words { rest: Some(line) }
    }

    /// Reads a value from the front of the words.
    pub(crate) fn read<T: Spelled>(&mut self) -> Result<T, LineFault>
        ensures { Parses T.spelling T.fits self.old result self.new }
    {
        T::parse(self)
    }

    /// The next word, which has to be there.
    pub(crate) fn word(&mut self) -> Result<&'a str, LineFault>
        ensures { Takes self.old result self.new }
    {
        self.next().ok_or(LineFault::MissingWord)
    }
}

impl<'a> Iterator for Words<'a> {
    type Item = &'a str;

    ghost next_gives = { YieldsFirstRef (λ s. s) };

    ghost remaining = { item_count (λ s. s) };

    fn next(&mut self) -> Option<&'a str> {
        let text = self.rest?;
        let Some((word, rest)) = text.split_once(' ') else {
            self.rest = None;
            return Some(text);
        };
        self.rest = Some(rest);
        Some(word)
    }
}
