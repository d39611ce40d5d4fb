// When the fingerprints of nodes are alike.
ghost use Rattle.nodes.specs.Alike.{AlikeIsTested, AlikeIsEquality, LeavesByValue};
ghost use Rattle.nodes.specs.AlikeExamples.{AlikeExamples};

/// The test for being alike says of any two fingerprints whether they are.
#[tactic(auto, using(crate::proofs::Tested::tested))]
pub fn alike_is_tested()
    ensures { AlikeIsTested }
{}

/// Being alike is reflexive, symmetric and transitive.
#[tactic(auto, using(crate::proofs::Equality::equality))]
pub fn alike_is_equality()
    ensures { AlikeIsEquality }
{}

/// Scalars and recursive aliases are alike exactly where their values are the same.
#[tactic(auto, using(crate::proofs::Leaves::leaf_is_same))]
pub fn leaves_are_compared_by_value()
    ensures { LeavesByValue }
{}

/// Integers in several spellings, nulls, quotes and tags, sequences in order, mappings in any order.
pub fn alike_examples()
    ensures { AlikeExamples }
{}
