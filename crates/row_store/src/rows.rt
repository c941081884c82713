//! A row of a table of jobs.

use fs_model::Outcome;

/// A job, by the site that is run for it, with the number of sites that it represents and its outcome.
#[derive(Clone, Copy, PartialEq, Eq, Debug)]
pub struct ExportRow {
    pub cycle: u32,
    pub cell: u32,
    pub bit: u8,
    pub weight: u32,
    pub outcome: Outcome,
}
