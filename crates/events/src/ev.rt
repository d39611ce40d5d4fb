// A record with the parts of the text that its places name.
ghost use Rattle.std.specs.Prelude.{◌≡◌, true, length};
ghost use Rattle.std.specs.Option.{option_map};
ghost use Rattle.records.specs.Places.{within, raw_within};
ghost use Rattle.events.specs.View.{bytes_at, seen, view_of};

use records::location::Location;
use records::record::{Event, Place, Record, ScalarStyle};
use records::tags::SfTag;

/// An event whose text and raw tag are parts of the text.
// By a rule of the project the cases and their fields are the original's, each with its location.
#[derive(Clone, Copy, PartialEq, Eq, Debug)]
pub enum Ev<'t> {
    Scalar {
        value: &'t [u8],
        tag: SfTag,
        raw_tag: Option<&'t [u8]>,
        style: ScalarStyle,
        anchor: u32,
        location: Location,
    },
    SeqStart {
        anchor: u32,
        tag: SfTag,
        raw_tag: Option<&'t [u8]>,
        location: Location,
    },
    SeqEnd {
        location: Location,
    },
    MapStart {
        anchor: u32,
        tag: SfTag,
        raw_tag: Option<&'t [u8]>,
        location: Location,
    },
    MapEnd {
        location: Location,
    },
    RecursiveAlias {
        anchor: u32,
        location: Location,
    },
}

fn part<'t>(text: &'t [u8], place: Place) -> &'t [u8]
    requires { within (length text.now) place ≡ true }
    ensures { result.now ≡ bytes_at text.now place }
{
    let start = place.start as usize;
    &text[start..start + place.len as usize]
}

fn raw_part<'t>(text: &'t [u8], raw_tag: Option<Place>) -> Option<&'t [u8]>
    requires { raw_within (length text.now) raw_tag ≡ true }
    ensures { option_map (λ x. x.now) result ≡ option_map (bytes_at text.now) raw_tag }
{
    raw_tag.map(|place| part(text, place))
}

impl<'t> Ev<'t> {
    /// The event of a record over its text, or nothing where a place of the record leaves the text.
    // A record and a text, and no struct of both: one text serves all records of a tape or a rack.
    pub fn of(record: Record, text: &'t [u8]) -> Option<Ev<'t>>
        ensures { option_map view_of result ≡ seen text.now «record» }
    {
        if !record.event.lies_within(text.len()) {
            return None;
        }
        let location = record.location;
        Some(match record.event {
            Event::Scalar {
                anchor,
                tag,
                raw_tag,
                style,
                value,
            } => Ev::Scalar {
                value: part(text, value),
                tag,
                raw_tag: raw_part(text, raw_tag),
                style,
                anchor,
                location,
            },
            Event::SeqStart {
                anchor,
                tag,
                raw_tag,
            } => Ev::SeqStart {
                anchor,
                tag,
                raw_tag: raw_part(text, raw_tag),
                location,
            },
            Event::SeqEnd => Ev::SeqEnd { location },
            Event::MapStart {
                anchor,
                tag,
                raw_tag,
            } => Ev::MapStart {
                anchor,
                tag,
                raw_tag: raw_part(text, raw_tag),
                location,
            },
            Event::MapEnd => Ev::MapEnd { location },
            Event::RecursiveAlias { anchor } => Ev::RecursiveAlias { anchor, location },
        })
    }
}
