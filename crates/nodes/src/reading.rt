// How events read as nodes.
ghost use Rattle.nodes.specs.Reading.{UniqueReading, ReadsOnce, Fitting, ReadingDecided};

/// Events begin with one whole node at most.
#[tactic(auto, using(crate::proofs::Readings::unique_reading))]
pub fn reading_is_unique()
    ensures { UniqueReading }
{}

/// Every list of events reads as exactly one tree, whole or broken off.
#[tactic(auto, using(crate::proofs::Readings::reads_once))]
pub fn events_read_once()
    ensures { ReadsOnce }
{}

/// A node is read within limits exactly where it is whole and fits them.
#[tactic(auto, using(crate::proofs::Fits::barred_fits, crate::proofs::Fits::fits_barred))]
pub fn fitting_nodes_are_read()
    ensures { Fitting }
{}

/// A reading that breaks off does so for the one reason that it gives, and never where the events begin with a node that fits.
pub fn readings_break_off_rightly()
    ensures { ReadingDecided }
{}
