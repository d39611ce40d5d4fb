// Kept lists: elements held as they come in a lent slice, found and taken off by an equality that is passed along.
#![tactic(auto)]

pub mod equality;
pub mod instances;
pub mod laws;
pub mod list;
pub mod pairing;
