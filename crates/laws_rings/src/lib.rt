#![tactic(auto)]

// The laws of rings. There is no code here: all of it stands in specs/.
