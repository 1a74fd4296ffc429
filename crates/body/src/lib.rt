// The lines behind the header of a DIMACS text, read byte by byte: literals and zeros, counted against what the header declares.
#![tactic(auto)]

mod phase;
mod state;

pub use phase::Phase;
pub use state::State;
