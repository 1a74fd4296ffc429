// Lists of names: which of them are right, and the name of an option or of a helper as a part of its list.
#![tactic(auto)]

pub mod list;
pub mod lookup;
