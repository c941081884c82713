//! Which instructions of a golden run are in a part that the words of a call ask for.
#![tactic(auto)]

mod functions;
mod members;
mod parts;

pub use parts::{NoPart, PartRefusal, window_of};
