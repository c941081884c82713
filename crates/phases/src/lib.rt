//! The phases of every command, as values that hold their facts: the image is loaded, its golden run gives the
//! jobs, its campaign file is opened. Also the failures of a call, its status with its line on the error output, and
//! reports to an output.
#![tactic(auto)]

mod baseline;
mod demo;
mod failure;
mod loading;
mod opened;
mod reports;
mod site_status;
mod sites;
mod status;
mod symbols;
mod tell;
mod totals;

pub use baseline::{Baseline, sites_of_case};
pub use failure::{Answer, Failure, ImageReason};
pub use golden_trace::GoldenFault;
pub use loading::{Loaded, load_case, load_line};
pub use opened::Opened;
pub use reports::report_totals;
pub use site_status::SiteStatus;
pub use sites::first_missing;
pub use status::{OtherReason, Status};
pub use tell::{tell_site_status, tell_status};
pub use totals::whole_totals;
