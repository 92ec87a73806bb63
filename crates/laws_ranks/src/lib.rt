#![tactic(auto)]

// Laws of the items in order and of ranks. There is no code here: all of it stands in specs/.
