//! Totals in the form of the tests' tables.
use fs_model::{Outcome, Totals};

/// Returns the totals as numbers, in the order of a report.
pub fn numbers(totals: &Totals) -> [u64; 7] {
    [
        totals.get(Outcome::NoEffect),
        totals.get(Outcome::Silent),
        totals.get(Outcome::Detected),
        totals.get(Outcome::Illegal),
        totals.get(Outcome::Address),
        totals.get(Outcome::Misaligned),
        totals.get(Outcome::Timeout),
    ]
}
