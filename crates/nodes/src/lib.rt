// The theory of nodes: each function stands for the theorem that it ensures.
#![tactic(auto)]

pub mod alike;
pub mod collecting;
pub mod looking;
pub mod merging;
pub mod reading;
