// Fingerprints of single records: what of a scalar, an alias or a tag counts when keys are compared.
#![tactic(auto)]

pub mod leaf;
pub mod merge;
pub mod tag;
pub mod theorems;
