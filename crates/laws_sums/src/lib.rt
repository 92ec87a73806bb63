#![tactic(auto)]

// No code: the laws of the sum of two rings, for the proofs of other crates.
