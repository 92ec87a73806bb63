// The chain of two rings' corners, in time linear in the corners. The corners of each ring that the chain may go over stand on one way from west to east:
// both ways are walked together, and a stack keeps the chain of the corners seen. The lower chain is the chain of the corners mirrored.
#![tactic(auto)]

pub mod chain;
pub mod corners;
pub mod draw;
