// What a source gives and a rack holds: plain records of events.
ghost use Rattle.std.specs.Prelude.{◌≡◌};
ghost use Rattle.records.specs.Places.{within, placed, raw_within};

use crate::location::{Location, NodeOrigin};
use crate::tags::SfTag;

/// How a scalar was written.
#[derive(Clone, Copy, PartialEq, Eq, Debug)]
pub enum ScalarStyle {
    Plain,
    SingleQuoted,
    DoubleQuoted,
    Literal,
    Folded,
}

/// A part of the text: `len` bytes from the byte `start` on.
#[derive(Clone, Copy, PartialEq, Eq, Debug)]
pub struct Place {
    pub start: u32,
    pub len: u32,
}

impl Place {
    /// Whether the place lies in a text of so many bytes.
    pub fn lies_within(self, text_len: usize) -> bool
        ensures { result ≡ within text_len self }
    {
        self.start as usize + self.len as usize <= text_len
    }
}

fn raw_lies_within(raw_tag: Option<Place>, text_len: usize) -> bool
    ensures { result ≡ raw_within text_len raw_tag }
{
    raw_tag.is_none_or(|place| place.lies_within(text_len))
}

/// What happens in a source. An anchor is a number, 0 for none; a raw tag is the tag as it was written.
// By a rule of the project the cases and their fields are the original's, and an anchor is a number of 32 bits, 0 for none.
#[derive(Clone, Copy, PartialEq, Eq, Debug)]
pub enum Event {
    Scalar {
        anchor: u32,
        tag: SfTag,
        raw_tag: Option<Place>,
        style: ScalarStyle,
        value: Place,
    },
    SeqStart {
        anchor: u32,
        tag: SfTag,
        raw_tag: Option<Place>,
    },
    SeqEnd,
    MapStart {
        anchor: u32,
        tag: SfTag,
        raw_tag: Option<Place>,
    },
    MapEnd,
    /// An alias to a node that is still open where the alias stands.
    RecursiveAlias {
        anchor: u32,
    },
}

impl Event {
    /// Whether each place of the event lies in a text of so many bytes.
    pub fn lies_within(self, text_len: usize) -> bool
        ensures { result ≡ placed text_len self }
    {
        match self {
            Event::Scalar { raw_tag, value, .. } => {
                raw_lies_within(raw_tag, text_len) && value.lies_within(text_len)
            }
            Event::SeqStart { raw_tag, .. } | Event::MapStart { raw_tag, .. } => {
                raw_lies_within(raw_tag, text_len)
            }
            Event::SeqEnd | Event::MapEnd | Event::RecursiveAlias { .. } => true,
        }
    }
}

/// An event, where it was written and why it stands here.
#[derive(Clone, Copy, PartialEq, Eq, Debug)]
pub struct Record {
    pub location: Location,
    pub origin: NodeOrigin,
    pub event: Event,
}
