// Walking over nodes that are held in slots.
#![tactic(auto)]

pub mod ends;
pub mod merges;
mod slots;
pub mod visits;
