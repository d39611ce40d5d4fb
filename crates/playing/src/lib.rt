// The playback of recorded events as a source.
#![tactic(auto)]

pub mod replay;
