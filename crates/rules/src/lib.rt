#![tactic(auto)]

// The rules as definitions. There is no code here: all of it stands in specs/, in the rules' order.
