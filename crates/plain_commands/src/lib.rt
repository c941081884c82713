//! The commands that need only a case and the output, one per module: `brute`, `plan` and `trace`.
#![tactic(auto)]

pub mod brute;
mod exhaustive;
pub mod lines;
pub mod plan;
pub mod trace;
