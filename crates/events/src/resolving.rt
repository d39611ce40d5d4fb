// What the sources share: an anchor looked up, a record as it stands at the front, where an origin points.
ghost use Rattle.std.specs.Prelude.{◌≡◌};
ghost use Rattle.events.specs.Fronts.{shown};
ghost use Rattle.events.specs.Meaning.{known, stands, refers, nulled};

use records::location::{Location, NodeOrigin};
use records::record::{Event, Place, Record, ScalarStyle};
use records::refusal::{Reason, Refusal};
use records::tags::SfTag;

/// Whether an anchor is among the known ones.
pub fn is_listed(anchors: &[u32], anchor: u32) -> bool
    ensures { result ≡ known anchor anchors.now }
{
    anchors.contains(&anchor)
}

/// The null that a recursive alias to an anchor is read as: a plain scalar of empty text, where the alias stands.
pub fn null_of(alias: Record, anchor: u32) -> Record
    ensures { result ≡ nulled alias anchor }
{
    Record {
        event: Event::Scalar {
            anchor,
            tag: SfTag::Null,
            raw_tag: None,
            style: ScalarStyle::Plain,
            value: Place { start: 0, len: 0 },
        },
        ..alias
    }
}

/// A record as a source shows it: a recursive alias as its null, once it was resolved.
pub fn shown_as(front: Record, resolved: bool) -> Record
    ensures { result ≡ shown resolved front }
{
    match front.event {
        Event::RecursiveAlias { anchor } if resolved => null_of(front, anchor),
        _ => front,
    }
}

/// A record at the front, its recursive alias resolved unless aliases are deferred. An alias to an anchor that is not
/// known is refused.
pub fn resolve_recursive_alias(
    front: Record,
    deferring: bool,
    anchors: &[u32],
) -> Result<Record, Refusal>
    ensures { result ≡ stands deferring anchors.now front }
{
    if deferring {
        return Ok(front);
    }
    match front.event {
        Event::RecursiveAlias { anchor } => {
            if is_listed(anchors, anchor) {
                Ok(null_of(front, anchor))
            } else {
                Err(Reason::UnknownAlias.at(front.location))
            }
        }
        _ => Ok(front),
    }
}

/// Where an origin points, of a node at a location of its own.
pub fn reference_of(origin: NodeOrigin, own: Location) -> Location
    ensures { result ≡ refers origin own }
{
    match origin {
        NodeOrigin::Direct => own,
        NodeOrigin::Alias(location) | NodeOrigin::Merge(location) => location,
    }
}
