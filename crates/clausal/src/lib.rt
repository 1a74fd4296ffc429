// No code: this crate has the definitions of the clausal transformation (specs/) and their theorems (proofs/).
#![tactic(auto)]
