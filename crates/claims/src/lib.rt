// No code: this crate says of the entries what was asked for (specs/), and shows it (proofs/).
#![tactic(auto)]
