//! What is asked.

use def_use::{Board, JobList};
use fs_model::{Case, Outcome};
use golden_trace::Golden;

/// A case with its golden run and its jobs, the recorded outcomes of these jobs, and the outcomes that are asked for.
#[derive(Drop)]
pub struct Answers<'a> {
    pub case: &'a Case,
    pub golden: &'a Golden,
    pub list: &'a JobList,
    pub board: &'a Board,
    pub chosen: &'a [Outcome],
}
