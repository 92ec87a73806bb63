#![tactic(auto)]

// No code: the laws of a chain kept on a stack, for the proofs of other crates.
