// Polarity marks of the nodes of a formula table, and sets of renamed nodes.
#![tactic(auto)]

pub mod mark;
pub mod set;
