// The helpers of renamed nodes, and the output written part by part.
#![tactic(auto)]

pub mod helper;
pub mod part;
