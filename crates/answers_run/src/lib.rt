//! `fail_answers` over devices that the caller passes: for each job that a campaign file records with a chosen outcome,
//! a line with all bytes that its run sends and how it ends.
#![tactic(auto)]

mod answering;
mod program;

pub use program::{answers_run, tell_answers};
