#![tactic(auto)]

// An envelope recognised by its neighbours. There is no code here: all of it stands in specs/.
