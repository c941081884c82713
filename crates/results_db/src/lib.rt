//! `fail_export` over devices that the caller passes: the jobs of a campaign file, with their weights and
//! outcomes, as rows of a table.
#![tactic(auto)]

mod exports;
mod program;
mod rows;

pub use program::{export_run, tell_export};
pub use row_store::{ExportRow, MemRows, RowStore, StoreRefusal};
