// What the events that begin a node have in common.
use records::record::Place;
use records::tags::SfTag;

/// A node's anchor, its tag, and its tag as it was written.
#[derive(Clone, Copy, PartialEq, Eq, Debug)]
pub(crate) struct Head {
    pub(crate) anchor: u32,
    pub(crate) tag: SfTag,
    pub(crate) raw_tag: Option<Place>,
}
