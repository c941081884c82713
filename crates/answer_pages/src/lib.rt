//! The answers of the jobs that have chosen outcomes: workers run the jobs a page at a time, and the lines are
//! written in the order of the jobs.
#![tactic(auto)]

mod answers;
mod pages;
mod refusal;
mod shares;
mod worker;
mod writing;

pub use answers::Answers;
pub use refusal::AnswersRefusal;
pub use writing::write_answers;
