//! `fail_debug` over devices that the caller passes: an injected run in GDB.
#![tactic(auto)]

mod facts;
mod program;
mod serve;
mod talk;
mod words;

pub use program::{debug_run, tell_debug};
