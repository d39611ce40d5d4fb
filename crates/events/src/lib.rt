#![tactic(auto)]

pub mod ev;
pub mod reader;
pub mod reel;
pub mod resolving;
pub mod source;
pub mod tape;
