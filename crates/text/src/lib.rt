// The program's text: the samples that its lines give, and the answer as it is printed.
#![tactic(auto)]

pub mod printing;
pub mod reading;
