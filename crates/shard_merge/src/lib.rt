//! Merging: adding the outcomes of one campaign to the file of another one of the same case.
#![tactic(auto)]

mod disagreements;
mod gained;
pub mod laws;
mod merging;
mod paging;

pub use merging::{MergeRefusal, Merger};
