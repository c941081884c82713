//! `fail_replay` over devices that the caller passes: injected runs, instruction by instruction.
#![tactic(auto)]

mod differences;
mod program;
mod site_texts;
mod sites;
mod walk;

pub use program::{replay_run, tell_replay};
