// How a collection treats repeated keys and merge keys.

/// What to do about a key that repeats an earlier one of its mapping.
#[derive(Clone, Copy, PartialEq, Eq, Debug)]
pub enum DuplicateKeyPolicy {
    Error,
    FirstWins,
    LastWins,
}

/// What to do about a merge key, `<<`.
#[derive(Clone, Copy, PartialEq, Eq, Debug)]
pub enum MergeKeyPolicy {
    Merge,
    AsOrdinary,
    Error,
}
