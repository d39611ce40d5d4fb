// Why a call refuses.
ghost use Rattle.std.specs.Prelude.{◌≡◌, Some};
ghost use Rattle.records.specs.Refusals.{number_of, layer_of, refused_at, complaint, layer_word, whereabouts, report};

use crate::location::Location;
use crate::record::Place;
use std::error::Error;
use std::fmt;

/// The question that was answered with no, one case for each number.
#[derive(Clone, Copy, PartialEq, Eq, Debug)]
pub enum Reason {
    TapeTooLong,
    TextTooLong,
    RackTooLong,
    WorkTooShort,
    PlaceOutsideText,
    UnknownAlias,
    Eof,
    UnexpectedContainerEnd,
    RackFull,
    PlaceOutsideRackText,
    TooDeep,
    MergeValueNotMapOrSeqOfMaps,
    MergeKeyNotAllowed,
    EntriesFull,
    /// With the key's text, where the key is one scalar that may be read as text.
    DuplicateMappingKey { key: Option<Place> },
    NoHeldNode,
    NoOutermostNode,
}

/// Which part of the reader asked the question.
#[derive(Clone, Copy, PartialEq, Eq, Debug)]
pub enum Layer {
    Call,
    Source,
    Capture,
    Collect,
}

/// A refusal: the reason, where it arose, and the tape's record for a faulty one, else 0.
// By a rule of the project every refusal has an offset, 0 where no record is faulty.
#[derive(Clone, Copy, PartialEq, Eq, Debug)]
pub struct Refusal {
    pub reason: Reason,
    pub location: Location,
    pub offset: usize,
}

impl Reason {
    /// The number by which documents and messages name the reason.
    // A method, and no `From`: a number is what a reason has and not another form of it, and `u8::from` would not say which.
    pub fn number(self) -> u8
        ensures { result ≡ number_of self }
    {
        match self {
            Reason::TapeTooLong => 1,
            Reason::TextTooLong => 2,
            Reason::RackTooLong => 3,
            Reason::WorkTooShort => 4,
            Reason::PlaceOutsideText => 7,
            Reason::UnknownAlias => 8,
            Reason::Eof => 10,
            Reason::UnexpectedContainerEnd => 11,
            Reason::RackFull => 13,
            Reason::PlaceOutsideRackText => 14,
            Reason::TooDeep => 15,
            Reason::MergeValueNotMapOrSeqOfMaps => 16,
            Reason::MergeKeyNotAllowed => 17,
            Reason::EntriesFull => 18,
            Reason::DuplicateMappingKey { .. } => 19,
            Reason::NoHeldNode => 20,
            Reason::NoOutermostNode => 21,
        }
    }

    pub fn layer(self) -> Layer
        ensures { result ≡ layer_of self }
    {
        match self {
            Reason::PlaceOutsideText | Reason::UnknownAlias => Layer::Source,
            Reason::Eof
            | Reason::UnexpectedContainerEnd
            | Reason::RackFull
            | Reason::PlaceOutsideRackText
            | Reason::TooDeep => Layer::Capture,
            Reason::MergeValueNotMapOrSeqOfMaps
            | Reason::MergeKeyNotAllowed
            | Reason::EntriesFull
            | Reason::DuplicateMappingKey { .. } => Layer::Collect,
            Reason::TapeTooLong
            | Reason::TextTooLong
            | Reason::RackTooLong
            | Reason::WorkTooShort
            | Reason::NoHeldNode
            | Reason::NoOutermostNode => Layer::Call,
        }
    }

    /// The refusal for this reason at a location, where no record of a tape is faulty.
    pub fn at(self, location: Location) -> Refusal
        ensures { result ≡ refused_at self location }
    {
        Refusal {
            reason: self,
            location,
            offset: 0,
        }
    }
}

/// What is wrong, for a reader who has no list of numbers at hand.
impl fmt::Display for Reason {
    ghost output = { λ x. Some (complaint x) };

    fn fmt<W: fmt::Write>(&self, f: &mut fmt::Formatter<W>) -> fmt::Result {
        f.write_str(match self {
            Reason::TapeTooLong => "the tape has more than 65,536 records",
            Reason::TextTooLong => "the text has more than 65,536 bytes",
            Reason::RackTooLong => "the rack has more than 65,535 slots",
            Reason::WorkTooShort => "the working memory is too short",
            Reason::PlaceOutsideText => "a place of the record leaves the text",
            Reason::UnknownAlias => "the anchor of the alias is not known",
            Reason::Eof => "the events end inside a node",
            Reason::UnexpectedContainerEnd =>
                "a sequence or mapping ends where a node should begin",
            Reason::RackFull => "the rack is full",
            Reason::PlaceOutsideRackText => "a place of the event leaves the rack's text",
            Reason::TooDeep => "more than 64 sequences and mappings stand in one another",
            Reason::MergeValueNotMapOrSeqOfMaps => "what is merged is no mapping",
            Reason::MergeKeyNotAllowed => "merge keys are not allowed here",
            Reason::EntriesFull => "the entry table is full",
            Reason::DuplicateMappingKey { .. } => "the key stands twice in its mapping",
            Reason::NoHeldNode => "no held node begins at this slot",
            Reason::NoOutermostNode => "no outermost node begins at this slot",
        })
    }
}

impl fmt::Display for Layer {
    ghost output = { λ x. Some (layer_word x) };

    fn fmt<W: fmt::Write>(&self, f: &mut fmt::Formatter<W>) -> fmt::Result {
        f.write_str(match self {
            Layer::Call => "call",
            Layer::Source => "source",
            Layer::Capture => "capture",
            Layer::Collect => "collect",
        })
    }
}

// Where a refusal arose: at a faulty record by its number, else by its location.
#[derive(Clone, Copy)]
struct Whereabouts(Refusal);

impl fmt::Display for Whereabouts {
    ghost output = { λ x. Some (whereabouts x.0 x.0.reason) };

    fn fmt<W: fmt::Write>(&self, f: &mut fmt::Formatter<W>) -> fmt::Result {
        let Refusal {
            reason,
            location,
            offset,
        } = self.0;
        match reason {
            Reason::PlaceOutsideText => write!(f, ", at record {offset}"),
            _ => {
                let Location { line, column, .. } = location;
                write!(f, ", at line {line}, column {column}")
            }
        }
    }
}

/// The whole refusal in one line.
impl fmt::Display for Refusal {
    ghost output = { λ x. Some (report x) };

    fn fmt<W: fmt::Write>(&self, f: &mut fmt::Formatter<W>) -> fmt::Result {
        let reason = self.reason;
        let number = reason.number();
        let layer = reason.layer();
        write!(
            f,
            "refusal {number} ({layer}): {reason}{}",
            Whereabouts(*self)
        )
    }
}

impl Error for Refusal {}
