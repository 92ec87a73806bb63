#![tactic(auto)]

// What an envelope covers. There is no code here: all of it stands in specs/.
