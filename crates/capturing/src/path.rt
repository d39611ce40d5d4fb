// Where the next event of a node stands, and where those behind the containers around it do.
use arrayvec::ArrayVec;

/// At most so many containers may be open in one another.
pub(crate) const MAX_OPEN: usize = 64;

/// Where an event stands.
#[derive(Clone, Copy, PartialEq, Eq, Debug, Default)]
pub(crate) enum Spot {
    /// The node itself.
    #[default]
    Start,
    /// An element of a sequence, or its end.
    Element,
    /// A key of a mapping, or its end.
    Key,
    /// The value of a key.
    Value,
    /// Behind the node.
    Done,
}

/// The spot of the next event, and for each open container the spot behind it, from the outside in.
#[derive(Drop)]
pub(crate) struct Path {
    pub(crate) spot: Spot,
    pub(crate) around: ArrayVec<Spot, MAX_OPEN>,
}
