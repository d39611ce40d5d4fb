// Where a node stands in the source that it was written in.

/// Line and column, from 1, and the number of the source. All zero is `UNKNOWN`.
// By a rule of the project all zero is `UNKNOWN`, and no `Option`: the original has it so, and a tape's record may hold it.
#[derive(Clone, Copy, PartialEq, Eq, Debug)]
pub struct Location {
    pub line: u32,
    pub column: u32,
    pub source_id: u32,
}

impl Location {
    pub const UNKNOWN: Location = Location {
        line: 0,
        column: 0,
        source_id: 0,
    };
}

/// Why a node stands somewhere else than where it was written: not at all, through an alias at a location, or merged
/// from a location.
#[derive(Clone, Copy, PartialEq, Eq, Debug)]
pub enum NodeOrigin {
    Direct,
    Alias(Location),
    Merge(Location),
}
