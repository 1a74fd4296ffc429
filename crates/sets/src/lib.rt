// The literals of a clause as a set: a row of bits, clauses with the same literals, tautologies, signatures.
#![tactic(auto)]

pub mod code;
pub mod row;
pub mod set;
