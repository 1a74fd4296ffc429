// The formula table: its nodes and its check.
#![tactic(auto)]

pub mod node;
pub mod table;
