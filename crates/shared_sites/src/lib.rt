//! Sites of a case whose outcome is known, in one table for all threads.
#![tactic(auto)]

mod known_case;
mod parts;
mod shared;

pub use known_case::KnownCase;
pub use shared::SharedSites;
