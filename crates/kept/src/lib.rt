// What is kept of a clause, and the lines that tell what goes: put into lent buffers.
#![tactic(auto)]

pub mod clause;
pub mod pen;
