//! One injected run: the outcome of a site, after a bit is flipped just before an instruction.
#![tactic(auto)]

mod early;
mod front;
mod jobs;
mod known_runs;
mod later;
mod learned;
mod meeting;
mod plain;
mod reference;
mod shortcuts;

pub use jobs::run_job;
pub use known_runs::{KnownRuns, run_job_known};
pub use learned::Learned;
pub use plain::run_site_plain;
pub use reference::Reference;
