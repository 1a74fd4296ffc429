// The walk to clause k of a node, and its literals written.
#![tactic(auto)]

pub mod clause;
pub mod count;
pub mod nodes;
pub mod step;
