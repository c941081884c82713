//! Workers for the jobs of a case: they are given one page of jobs at a time, run it in threads, and their rows
//! are collected in the order of the jobs.
#![tactic(auto)]

mod case_jobs;
mod crew;
mod near_states;
mod own_desk;
mod shared;
mod worker;

pub use case_jobs::CaseJobs;
pub use crew::Crew;
pub use own_desk::CaseLedger;
pub use shared::Shared;
pub use worker::Worker;
