//! Finding where the rows of a campaign file end, without reading the rows.
#![tactic(auto)]

mod search;
mod window;

pub use search::{ClosedGate, closed_gate};
