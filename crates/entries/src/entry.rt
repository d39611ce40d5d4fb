// What is noted of each field of a mapping that is collected.
use crate::rules::Basis;

/// The key of an entry: the slot that it begins at. The mark says that a recursive alias there was read as null.
#[derive(Clone, Copy, PartialEq, Eq, Debug)]
pub struct Key {
    pub slot: usize,
    // A flag, and no enum of keys: both kinds have a slot, and the mark only says how an alias in it is read.
    pub marked: bool,
}

/// One field of a collected mapping: its key, the slot of its value, and the basis of the collection or expansion that
/// made it, which tells whether it was merged.
#[derive(Clone, Copy, PartialEq, Eq, Debug)]
pub struct PendingEntry {
    pub key: Key,
    pub value: usize,
    pub basis: Basis,
}

/// How far a walk over held slots came: the slot behind the node, and how many entries there are then.
#[derive(Clone, Copy, PartialEq, Eq, Debug)]
pub struct Done {
    pub at: usize,
    pub count: usize,
}
