//! Counts of some of the sites: the totals of lines. Each site belongs to one line, by its job or by its cell.
#![tactic(auto)]

mod cell_bits;
pub mod laws;
mod lines;
mod tables;

pub use cell_bits::{add_dead, bits_by};
pub use lines::{Lines, counts_by};
pub use tables::Table;
