#![tactic(auto)]

pub mod location;
pub mod options;
pub mod record;
pub mod refusal;
pub mod tags;
