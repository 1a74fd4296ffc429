// No code: this crate has general definitions (specs/) and their laws (proofs/).
#![tactic(auto)]
