// The entries of a collected mapping, what they play, and the memory in which they are sorted.
#![tactic(auto)]

pub mod entry;
pub mod laws;
pub mod rules;
pub mod work;
