//! Windows, which are sets of cycles, and the counts of the sites in them.
#![tactic(auto)]

mod counts;
pub mod laws;
mod windows;

pub use counts::{counts_in, sites_in};
pub use windows::Window;
