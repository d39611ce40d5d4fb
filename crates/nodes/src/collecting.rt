// What collecting gives, keeps and leaves.
ghost use Rattle.nodes.specs.Repeats.{FirstWinsLaw, LastWinsLaw, KeysKeptOnce, ErrorAtFirstRepeat};
ghost use Rattle.nodes.specs.Leaving.{OneNodeLeft};
ghost use Rattle.nodes.specs.Searching.{SearchFindsTheFirst};
ghost use Rattle.nodes.specs.Rooming.{PlacesOnlyLimit};
ghost use Rattle.nodes.specs.Agreeing.{CollectionsAgree, KeysAreUnique};

/// The policy FirstWins keeps exactly the fields with no alike key before them.
#[tactic(auto, using(crate::proofs::Keeping::first_wins))]
pub fn first_wins()
    ensures { FirstWinsLaw }
{}

/// The policy LastWins keeps exactly the fields with no alike key behind them.
#[tactic(auto, using(crate::proofs::Keeping::last_wins))]
pub fn last_wins()
    ensures { LastWinsLaw }
{}

/// Both keep one field of each key, and lose no key.
pub fn keys_are_kept_once()
    ensures { KeysKeptOnce }
{}

/// The policy Error refuses exactly where a key repeats, at the first that does.
pub fn error_refuses_the_first_repeat()
    ensures { ErrorAtFirstRepeat }
{}

/// Under the policy Error the own keys of a collected mapping are unique.
#[tactic(auto, using(crate::proofs::Marks::keys_are_unique))]
pub fn keys_are_unique()
    ensures { KeysAreUnique }
{}

/// What a collection leaves on the rack is one node, as large as the one that came.
pub fn one_node_is_left()
    ensures { OneNodeLeft }
{}

/// Collecting from a source, and collecting what was captured from it, end in the same fields or the same refusal.
#[tactic(auto, using(crate::proofs::Agrees::collections_agree))]
pub fn collections_agree()
    ensures { CollectionsAgree }
{}

/// The search for merge keys inside a node finds the first, in the order in which the node is written, or there is none.
pub fn merge_keys_are_found_first()
    ensures { SearchFindsTheFirst }
{}

/// With more entry places the answer is the same, unless the fewer were full; as many as a node has records are enough.
#[tactic(auto, using(crate::proofs::Enough::places_only_limit))]
pub fn places_only_limit()
    ensures { PlacesOnlyLimit }
{}
