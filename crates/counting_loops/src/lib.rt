//! Loops that only count: a check that a run stays in a loop until its limit.
//!
//! The loop is a path of instructions in ROM that comes back to its first one. In each round a register holds what
//! it held at the same place of the first round, plus the number of the round times its pace; or its pace is
//! unknown. One pass over the path checks that every round takes the same way.
#![tactic(auto)]

mod accesses;
mod branches;
mod kinds;
mod loops;
mod paces;
mod rounds;
mod search_budget;
mod steps;
mod words;

pub use loops::Loops;
