// Records as lines.
ghost use Rattle.std.specs.Prelude.{◌≡◌, IfOk, Some, string_bytes};
ghost use Rattle.tape_file.specs.Heads.{head_words};
ghost use Rattle.tape_file.specs.Lines.{location_words, origin_words, place_words, raw_words, event_words, written, SmallRecord};
ghost use Rattle.tape_file.specs.Spaces.{spaced};

use crate::head::Head;
use crate::spelled::Listed;
use records::location::{Location, NodeOrigin};
use records::record::{Event, Place, Record};
use std::alloc::{AllocError, Global};
use std::fmt;

/// A record, or a part of one, to be shown as a tape file has it: `{}` of a `Line<Record>` is its line.
// An impl for each part, and of this type, since the parts are another crate's: one impl over a trait would only move the same bodies.
#[derive(Clone, Copy, PartialEq, Eq, Debug)]
pub struct Line<T>(pub T);

impl fmt::Display for Line<Location> {
    ghost output = { λ x. Some (spaced (location_words x.0)) };

    fn fmt<W: fmt::Write>(&self, f: &mut fmt::Formatter<W>) -> fmt::Result {
        let Location {
            line,
            column,
            source_id,
        } = self.0;
        write!(f, "{line} {column} {source_id}")
    }
}

impl fmt::Display for Line<NodeOrigin> {
    ghost output = { λ x. Some (spaced (origin_words x.0)) };

    fn fmt<W: fmt::Write>(&self, f: &mut fmt::Formatter<W>) -> fmt::Result {
        match self.0 {
            NodeOrigin::Direct => f.write_str("direct"),
            NodeOrigin::Alias(at) => write!(f, "alias {}", Line(at)),
            NodeOrigin::Merge(at) => write!(f, "merge {}", Line(at)),
        }
    }
}

impl fmt::Display for Line<Place> {
    ghost output = { λ x. Some (spaced (place_words x.0)) };

    fn fmt<W: fmt::Write>(&self, f: &mut fmt::Formatter<W>) -> fmt::Result {
        let Place { start, len } = self.0;
        write!(f, "{start} {len}")
    }
}

impl fmt::Display for Line<Option<Place>> {
    ghost output = { λ x. Some (spaced (raw_words x.0)) };

    fn fmt<W: fmt::Write>(&self, f: &mut fmt::Formatter<W>) -> fmt::Result {
        match self.0 {
            None => f.write_str("-"),
            Some(place) => write!(f, "raw {}", Line(place)),
        }
    }
}

impl fmt::Display for Line<Head> {
    ghost output = { λ x. Some (spaced (head_words x.0)) };

    fn fmt<W: fmt::Write>(&self, f: &mut fmt::Formatter<W>) -> fmt::Result {
        let Head {
            anchor,
            tag,
            raw_tag,
        } = self.0;
        write!(f, "{anchor} {} {}", tag.word(), Line(raw_tag))
    }
}

impl fmt::Display for Line<Event> {
    ghost output = { λ x. Some (spaced (event_words x.0)) };

    fn fmt<W: fmt::Write>(&self, f: &mut fmt::Formatter<W>) -> fmt::Result {
        match self.0 {
            Event::Scalar {
                anchor,
                tag,
                raw_tag,
                style,
                value,
            } => {
                let head = Head {
                    anchor,
                    tag,
                    raw_tag,
                };
                write!(f, "scalar {} {} {}", Line(head), style.word(), Line(value))
            }
            Event::SeqStart {
                anchor,
                tag,
                raw_tag,
            } => {
                let head = Head {
                    anchor,
                    tag,
                    raw_tag,
                };
                write!(f, "seq {}", Line(head))
            }
            Event::SeqEnd => f.write_str("endseq"),
            Event::MapStart {
                anchor,
                tag,
                raw_tag,
            } => {
                let head = Head {
                    anchor,
                    tag,
                    raw_tag,
                };
                write!(f, "map {}", Line(head))
            }
            Event::MapEnd => f.write_str("endmap"),
            Event::RecursiveAlias { anchor } => write!(f, "alias {anchor}"),
        }
    }
}

/// The whole line, without its line end.
impl fmt::Display for Line<Record> {
    ghost output = { λ x. Some (written x.0) };

    fn fmt<W: fmt::Write>(&self, f: &mut fmt::Formatter<W>) -> fmt::Result {
        let Record {
            location,
            origin,
            event,
        } = self.0;
        write!(f, "{} {} {}", Line(location), Line(origin), Line(event))
    }
}

/// The line of a record, as text.
pub fn write_record(heap: Global, record: Record) -> Result<String, AllocError>
    ensures line { IfOk result (λ line. string_bytes line ≡ written «record») }

    // As its type says: so the line can be read as no other record.
    ensures small { SmallRecord «record» }
{
    Line(record).to_string(heap)
}
