//! The sample programs that tests and timings run: their words, the case and the image of words at the start of
//! ROM, and counts that another implementation gave.
#![tactic(auto)]

mod cases;
mod counted;
mod images;
pub mod reports;
mod words;

pub use cases::{NoCase, RAM, ROM, case_in, case_of, small_map};
pub use counted::{PROGRAMS, Program};
pub use images::{Segment, code, image, program};
pub use words::{
    COUNTS_DOWN, DETECTS, DIVIDES, FENCES, HALTS, LOADS, MASKS, RUNS_ON, SENDS, SENDS_AND_CLEARS,
    STORES, STORES_A_WORD, STORES_OVER_ITSELF, STORES_OVER_THE_NEXT,
};
