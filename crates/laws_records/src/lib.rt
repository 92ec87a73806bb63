#![tactic(auto)]

// Laws of records. There is no code here: all of it stands in specs/.
