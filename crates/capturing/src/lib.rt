// One node, captured from any source into slots. Inner functions over slices and numbers: they ask of their caller what
// the rack's own invariant says.
#![tactic(auto)]

pub mod captured;
pub mod capturing;
mod deferring;
mod filling;
mod path;
mod question;
mod stepping;
mod storing;
