// Clause and literal totals of lists, read at their ceilings.
#![tactic(auto)]

pub mod total;
