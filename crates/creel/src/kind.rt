// Kinds of events to count.
ghost use Rattle.std.specs.Prelude.{Decides, Some};
ghost use Rattle.events.specs.View.{view_of};
ghost use Rattle.creel.specs.Kinds.{Of, OfRecord, ReadsInteger};
ghost use Rattle.creel.specs.Words.{kind_words};

use events::ev::Ev;
use records::record::Record;
use scalars::typed::Scalar;
use std::fmt;

/// The six kinds of events, and the scalars among them that read as integers and as nulls.
// An enum and no closure for each: the contract of a count names the kind.
#[derive(Clone, Copy, PartialEq, Eq, Debug)]
pub enum Kind {
    Scalar,
    SeqStart,
    SeqEnd,
    MapStart,
    MapEnd,
    RecursiveAlias,
    Integer,
    Null,
}

/// The kind in a few words, which may be padded.
impl fmt::Display for Kind {
    ghost output = { λ x. Some (kind_words x) };

    fn fmt<W: fmt::Write>(&self, f: &mut fmt::Formatter<W>) -> fmt::Result {
        f.pad(match self {
            Kind::Scalar => "scalars",
            Kind::SeqStart => "sequences begun",
            Kind::SeqEnd => "sequences ended",
            Kind::MapStart => "mappings begun",
            Kind::MapEnd => "mappings ended",
            Kind::RecursiveAlias => "recursive aliases",
            Kind::Integer => "of them integers",
            Kind::Null => "of them nulls",
        })
    }
}

fn reads_as_integer(scalar: Scalar) -> bool
    ensures { Decides result (ReadsInteger scalar.entry.tag scalar.entry.style scalar.entry.value.now) }
{
    scalar.integer().is_some()
}

fn is_of(ev: Ev, kind: Kind) -> bool
    ensures { Decides result (Of kind (view_of ev.entry)) }
{
    match (ev, kind) {
        (Ev::Scalar { .. }, Kind::Scalar)
        | (Ev::SeqStart { .. }, Kind::SeqStart)
        | (Ev::SeqEnd { .. }, Kind::SeqEnd)
        | (Ev::MapStart { .. }, Kind::MapStart)
        | (Ev::MapEnd { .. }, Kind::MapEnd)
        | (Ev::RecursiveAlias { .. }, Kind::RecursiveAlias) => true,
        (_, Kind::Integer) => Scalar::of(ev).is_some_and(reads_as_integer),
        (_, Kind::Null) => Scalar::of(ev).is_some_and(Scalar::is_null),
        _ => false,
    }
}

/// Whether the event of a record over its text is of a kind.
pub fn is_of_kind(record: Record, text: &[u8], kind: Kind) -> bool
    ensures { Decides result (OfRecord kind text.now «record») }
{
    Ev::of(record, text).is_some_and(|ev| is_of(ev, kind))
}
