// Converting a formula to clause bytes.
#![tactic(auto)]

pub mod convert;
