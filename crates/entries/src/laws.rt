// Laws of entries, on functions that only carry them.
ghost use Rattle.entries.specs.Playing.{EntriesPlayOne, EntriesStay};

/// An entry plays one field at most.
pub fn entries_play_one_field()
    ensures { EntriesPlayOne }
{}

/// An entry plays the same field when more slots are filled.
#[tactic(auto, using(crate::proofs::Plays::entries_stay))]
pub fn entries_stay()
    ensures { EntriesStay }
{}
