//! Laws about states that differ from the golden run's only in cells that it does not read again, or in one bit, and
//! about registers that are not live.
#![tactic(auto)]

pub mod laws;
