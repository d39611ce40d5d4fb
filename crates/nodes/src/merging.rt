// What merging gives.
ghost use Rattle.nodes.specs.Merging.{MergeLaw, MergeExamples};

/// The effective list of a collected mapping is the mapping with its merges resolved, as the merge key type says.
#[tactic(auto, using(crate::proofs::Resolving::merges_resolved))]
pub fn merges_are_resolved()
    ensures { MergeLaw }
{}

/// What small mappings are collected to: one with merges in one another, and one with a repeated key by each policy.
pub fn merge_examples()
    ensures { MergeExamples }
{}
