// The limits of a list of clauses that is read or written, stated here and nowhere else.
pub const MOST_VARIABLES: u32 = 40_000;

pub const MOST_CLAUSES: u32 = 65_534;

pub const MOST_LITERALS: u32 = 999_999;
