// Lines as records.
ghost use Rattle.tape_file.specs.Heads.{head_words, SmallHead};
ghost use Rattle.tape_file.specs.Lines.{location_words, origin_words, place_words, raw_words, event_words, record_words, SmallLocation, SmallOrigin, SmallPlace, SmallRaw, SmallEvent, SmallRecord};
ghost use Rattle.tape_file.specs.Reading.{Reads, ReadsLine};

use crate::fault::LineFault;
use crate::head::Head;
use crate::line::Line;
use crate::spelled::Spelled;
use crate::words::Words;
use records::location::{Location, NodeOrigin};
use records::record::{Event, Place, Record};
use std::str::FromStr;

/// The record whose line this is, or else why it is the line of none.
// Beside `parse`, since a caller wants the record and no `Line` around it.
pub fn read_record(line: &str) -> Result<Record, LineFault>
    ensures { Reads line.now result }
{
    let mut words = Words::new(line);
    let record = words.read()?;
    match words.next() {
        None => Ok(record),
        Some(_) => Err(LineFault::WordsLeftOver),
    }
}

/// What `{}` of a `Line<Record>` wrote, read by `parse`.
impl FromStr for Line<Record> {
    type Err = LineFault;

    ghost from_str_gives = { ReadsLine };

    fn from_str(line: &str) -> Result<Line<Record>, LineFault> {
        read_record(line).map(Line)
    }
}

impl Spelled for Record {
    ghost spelling = { record_words };

    ghost fits = { SmallRecord };

    fn parse(words: &mut Words) -> Result<Record, LineFault> {
        Ok(Record {
            location: words.read()?,
            origin: words.read()?,
            event: words.read()?,
        })
    }
}

impl Spelled for Location {
    ghost spelling = { location_words };

    ghost fits = { SmallLocation };

    fn parse(words: &mut Words) -> Result<Location, LineFault> {
        Ok(Location {
            line: words.read()?,
            column: words.read()?,
            source_id: words.read()?,
        })
    }
}

impl Spelled for NodeOrigin {
    ghost spelling = { origin_words };

    ghost fits = { SmallOrigin };

    fn parse(words: &mut Words) -> Result<NodeOrigin, LineFault> {
        match words.word()? {
            "direct" => Ok(NodeOrigin::Direct),
            "alias" => Ok(NodeOrigin::Alias(words.read()?)),
            "merge" => Ok(NodeOrigin::Merge(words.read()?)),
            _ => Err(LineFault::NoOrigin),
        }
    }
}

impl Spelled for Event {
    ghost spelling = { event_words };

    ghost fits = { SmallEvent };

    fn parse(words: &mut Words) -> Result<Event, LineFault> {
        match words.word()? {
            "scalar" => {
                let Head {
                    anchor,
                    tag,
                    raw_tag,
                } = words.read()?;
                Ok(Event::Scalar {
                    anchor,
                    tag,
                    raw_tag,
                    style: words.read()?,
                    value: words.read()?,
                })
            }
            "seq" => {
                let Head {
                    anchor,
                    tag,
                    raw_tag,
                } = words.read()?;
                Ok(Event::SeqStart {
                    anchor,
                    tag,
                    raw_tag,
                })
            }
            "endseq" => Ok(Event::SeqEnd),
            "map" => {
                let Head {
                    anchor,
                    tag,
                    raw_tag,
                } = words.read()?;
                Ok(Event::MapStart {
                    anchor,
                    tag,
                    raw_tag,
                })
            }
            "endmap" => Ok(Event::MapEnd),
            "alias" => Ok(Event::RecursiveAlias {
                anchor: words.read()?,
            }),
            _ => Err(LineFault::NoEvent),
        }
    }
}

impl Spelled for Head {
    ghost spelling = { head_words };

    ghost fits = { SmallHead };

    fn parse(words: &mut Words) -> Result<Head, LineFault> {
        Ok(Head {
            anchor: words.read()?,
            tag: words.read()?,
            raw_tag: words.read()?,
        })
    }
}

impl Spelled for Option<Place> {
    ghost spelling = { raw_words };

    ghost fits = { SmallRaw };

    fn parse(words: &mut Words) -> Result<Option<Place>, LineFault> {
        match words.word()? {
            "-" => Ok(None),
            "raw" => Ok(Some(words.read()?)),
            _ => Err(LineFault::NoRawTag),
        }
    }
}

impl Spelled for Place {
    ghost spelling = { place_words };

    ghost fits = { SmallPlace };

    fn parse(words: &mut Words) -> Result<Place, LineFault> {
        Ok(Place {
            start: words.read()?,
            len: words.read()?,
        })
    }
}
