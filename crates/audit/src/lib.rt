//! An audit of the outcomes of a board: the job of each outcome is run again, and the wrong outcomes are listed.
#![tactic(auto)]

mod auditing;
mod lines;
mod refusal;
mod reruns;

pub use auditing::{Audited, audit};
pub use refusal::AuditRefusal;
