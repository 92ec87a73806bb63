#![tactic(auto)]

// The integers as the proofs need them. There is no code here: all of it stands in specs/.
