// Where a captured node stands.

/// The first slot of a captured node, and how many slots it has.
// By a rule of the project a capture answers these two numbers, and no range.
#[derive(Clone, Copy, PartialEq, Eq, Debug)]
pub struct Captured {
    pub first: usize,
    pub count: usize,
}
