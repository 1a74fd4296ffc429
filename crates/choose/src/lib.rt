// Choosing which nodes to rename, so that the clause total falls.
#![tactic(auto)]

pub mod bytes;
pub mod pass;
