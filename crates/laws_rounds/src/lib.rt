#![tactic(auto)]

// The laws of a round, of the rounds and of the chain step. There is no code here: all of it stands in specs/ and proofs/.
