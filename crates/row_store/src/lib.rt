//! A table of jobs with their outcomes: the trait of such a table, and one in memory.
//!
//! A store is a type with the trait [`RowStore`]. The store in memory tells its rows, and some of its calls can
//! be made to fail.
#![tactic(auto)]

mod mem_rows;
mod rows;
mod stores;

pub use mem_rows::MemRows;
pub use rows::ExportRow;
pub use stores::{RowStore, StoreRefusal};
