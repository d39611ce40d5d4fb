// A tape, that is a run of event records, read as a source of events.
ghost use Rattle.std.specs.Prelude.{◌+◌, ◌≤◌, length};

use crate::reader::Reader;
use crate::reel::Reel;
use records::location::{Location, NodeOrigin};
use records::record::Record;
use records::refusal::{Reason, Refusal};

/// A tape has at most so many records.
const MAX_RECORDS: usize = 65_536;

/// A text has at most so many bytes.
const MAX_BYTES: usize = 65_536;

/// What is left of a tape beside its text, and how many of its records were taken. The records up to the first whose
/// places leave the text are on the reel; with that record it ends.
#[derive(Drop)]
pub struct Tape<'a> {
    text: &'a [u8],
    rest: &'a [Record],
    taken: usize,
    ghost counted: { taken + length rest.now ≤ 65536 },
}

impl Reel for Tape<'_> {
    ghost use Rattle.events.specs.Tape.{sound_records, tape_end, tape_past};

    ghost coming = { sound_records };

    ghost ending = { tape_end };

    ghost beyond = { tape_past };

    fn first(&self) -> Result<Option<Record>, Refusal> {
        match self.rest.first() {
            Some(record) if record.event.lies_within(self.text.len()) => Ok(Some(*record)),
            Some(_) => Err(Refusal {
                reason: Reason::PlaceOutsideText,
                location: Location::UNKNOWN,
                offset: self.taken,
            }),
            None => Ok(None),
        }
    }

    fn take(&mut self) -> Option<Record> {
        match self.rest {
            [first, rest @ ..] if first.event.lies_within(self.text.len()) => {
                self.rest = rest;
                self.taken += 1;
                Some(*first)
            }
            _ => None,
        }
    }

    fn origin_past_end(&self) -> NodeOrigin {
        NodeOrigin::Direct
    }
}

/// Reads a tape over its text.
pub type TapeReader<'a> = Reader<'a, Tape<'a>>;

impl<'a> Reader<'a, Tape<'a>> {
    ghost use Rattle.events.specs.Tape.{Made};

    /// A reader at the tape's first record, not deferring. A tape or a text that is too long is refused.
    pub fn new(
        text: &'a [u8],
        tape: &'a [Record],
        anchors: &'a [u32],
    ) -> Result<TapeReader<'a>, Refusal>
        ensures { Made text.now tape.now anchors.now result }
    {
        if tape.len() > MAX_RECORDS {
            return Err(Reason::TapeTooLong.at(Location::UNKNOWN));
        }
        if text.len() > MAX_BYTES {
            return Err(Reason::TextTooLong.at(Location::UNKNOWN));
        }
        let reel = Tape {
            text,
            rest: tape,
            taken: 0,
        };
        Ok(Reader::start(reel, anchors, false))
    }
}
