// What plain scalars say: integers in four radices, and the texts that stand for null.
#![tactic(auto)]

pub mod classes;
pub mod integer;
pub mod nulls;
pub mod radix;
pub mod theorems;
pub mod trim;
pub mod typed;
