//! One thread for each element of a list, and a caller that only waits for them.
#![tactic(auto)]

mod threads;

pub use threads::for_each_mut;
