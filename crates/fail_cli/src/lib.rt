//! `fail_star` over devices that the caller passes: from the words to the command, and the line on the error
//! output at its end.
#![tactic(auto)]

mod commands;
pub mod laws;
mod program;

pub use phases::{OtherReason, Status, tell_status};
pub use program::fail_run;
