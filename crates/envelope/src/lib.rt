// Using a ring that comes as two lists: is it an envelope, the strongest set on a course, the cover test, turning about.

#![tactic(auto)]

pub mod cover;
pub mod strongest;
pub mod test;
pub mod turn;
