// No code: this crate has the definitions of tidying (specs/) and their theorems (proofs/).
#![tactic(auto)]
