//! The concurrent core of a campaign as a state machine without threads: what claims, filings, keeps, stops and
//! resumes do, in any order.
#![tactic(auto)]

mod events;
pub mod laws;
mod lists;
mod states;

pub use events::{CoreEvent, HeldJob};
pub use states::{Applied, Place, State};
