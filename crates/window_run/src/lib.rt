//! `fail_window` over devices that the caller passes: runs the jobs of a part of the golden run, keeps them in a
//! campaign file, and writes the counts of exactly the sites of that part.
#![tactic(auto)]

mod jobs;
mod part;
mod program;
mod reports;
mod status;
mod tell;

pub use program::window_run;
pub use status::WindowStatus;
pub use tell::tell_window;
pub use window_parts::NoPart;
