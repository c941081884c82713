//! A campaign: the jobs of a case are run page by page, their rows are kept in a file, and their weights are
//! counted by outcome. A sample counts the outcomes of some of the sites.
#![tactic(auto)]

mod alone;
mod jobs;
mod machines;
mod pages;
mod paging;
mod performing;
mod portion;
mod ready;
mod samples;
mod together;
mod ways;

pub use alone::perform_alone;
pub use performing::Performed;
pub use ready::{PrepareRefusal, Ready, Settings, prepare};
pub use result_keeper::KeepRefusal;
pub use samples::sample;
pub use together::perform;
pub use worker_pool::{CaseJobs, CaseLedger, Crew, Shared, Worker};
