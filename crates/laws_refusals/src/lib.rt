#![tactic(auto)]

// Laws of tests in order. There is no code here: all of it stands in specs/.
