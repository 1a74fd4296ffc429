// Clause and literal totals, read at their ceilings: of each node, and of a whole formula under a set.
#![tactic(auto)]

pub mod measure;
pub mod prepare;
pub mod rows;
pub mod trial;
pub mod whole;
