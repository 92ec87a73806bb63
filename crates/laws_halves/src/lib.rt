#![tactic(auto)]

// No code: a ring read by its two halves, for the proofs of other crates.
