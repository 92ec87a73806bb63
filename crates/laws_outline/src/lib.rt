#![tactic(auto)]

// The laws of chains and bridges over the rules. There is no code here: all of it stands in specs/.
