//! The keeper of results: it opens a campaign file for a case, and appends batches of rows to it.
#![tactic(auto)]

mod accepting;
mod appending;
mod boards;
mod bytes;
mod cards;
mod fronts;
mod keeper;
mod looking;
mod opening;
mod reading;
mod refusals;

pub use bytes::board_of;
pub use keeper::{DiskFault, Keeper};
pub use looking::look;
pub use refusals::{AdoptRefusal, BoardRefusal, KeepRefusal};
