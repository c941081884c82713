//! The run of a case with an optional flip, which can be looked at after any number of instructions.
#![tactic(auto)]

mod along;
mod apart;
mod first_pass;
mod kept;
mod stops;
mod timelines;
mod watches;
mod writes;

pub use timelines::Timeline;
pub use watches::{Hit, Watch, WatchKind};
