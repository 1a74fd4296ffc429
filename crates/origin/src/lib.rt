// Where each clause of an output comes from: its line, by the names of options and helpers.
#![tactic(auto)]

pub mod calls;
mod line;
mod literal;
mod part;
mod pen;
