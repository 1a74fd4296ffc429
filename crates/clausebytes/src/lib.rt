// Clause bytes: literals as 32-bit numbers, and the check of clause bytes that are to be written.
#![tactic(auto)]

pub mod check;
pub mod limits;
pub mod word;
