// Working memory, lent beside a rack and beside a table of entries. What it holds means nothing from call to call.
// Slices and numbers of slots, and no map or box: the memory is lent, and there is no heap.
use crate::entry::{Key, PendingEntry};

/// What is noted of the node that begins at a slot while nodes are compared: how many slots it has, and its class, a
/// number that it shares with the nodes that are alike.
#[derive(Clone, Copy, PartialEq, Eq, Debug)]
pub struct Class {
    pub len: u32,
    pub class: u32,
}

/// Working memory of a rack: for each slot the class of the node that begins there, if one does, and the pairs of
/// classes of one mapping.
#[derive(Drop)]
pub struct CompareWork<'w> {
    pub classes: &'w mut [Option<Class>],
    pub pairs: &'w mut [(u32, u32)],
}

/// A key that a filter has seen: a scalar or an alias by its slot, another node by the number of the first key alike.
#[derive(Clone, Copy, PartialEq, Eq, Debug)]
pub enum SeenKey {
    Leaf(Key),
    Node(usize),
}

/// Working memory of a table: as many entries, and as many keys.
#[derive(Drop)]
pub struct EntryWork<'w> {
    pub entries: &'w mut [PendingEntry],
    pub seen: &'w mut [SeenKey],
}
