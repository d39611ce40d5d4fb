// What a collection goes by.
use records::location::Location;
use records::options::{DuplicateKeyPolicy, MergeKeyPolicy};

/// How repeated keys and merge keys are treated.
#[derive(Clone, Copy, PartialEq, Eq, Debug)]
pub struct Policies {
    pub repeats: DuplicateKeyPolicy,
    pub merges: MergeKeyPolicy,
}

/// The text, the known anchors and the policies.
#[derive(Clone, Copy, PartialEq, Eq, Debug)]
pub struct Rules<'r> {
    pub text: &'r [u8],
    pub anchors: &'r [u32],
    pub policies: Policies,
}

/// What a collection refers to: of a mapping itself a reference of its own, in an expansion the merge value's.
#[derive(Clone, Copy, PartialEq, Eq, Debug)]
pub enum Basis {
    Direct(Location),
    Expansion(Location),
}
