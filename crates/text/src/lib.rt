// Text: its pieces between marks, and decimal numbers read and written.
#![tactic(auto)]

pub mod number;
pub mod piece;
pub mod write;
