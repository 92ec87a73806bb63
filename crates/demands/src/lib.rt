#![tactic(auto)]

// What the entries promise together. There is no code here: all of it stands in specs/.
