// What the entries share: why they refuse, a stream by value, the corners of a ring by place, the samples as they lie in two lent lists of parts and as a side sees
// them, the tests that entries make, the versions and senses of a record.
#![tactic(auto)]

pub mod corners;
pub mod forms;
pub mod listed;
pub mod refusals;
pub mod sides;
pub mod streams;
pub mod tests;
pub mod words;
