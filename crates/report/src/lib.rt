//! The reports of a campaign.
#![tactic(auto)]

mod buffer;
mod csv_reports;
mod json;
pub mod laws;
mod lines;
mod refusal;
mod symbol_counts;
mod symbol_lines;
mod symbol_runs;
mod symbol_tables;
mod symbols;

pub use buffer::{PIECE, flush, put, put_parts, put_pieces};
pub use csv_reports::{write_jobs_csv, write_plan_csv};
pub use json::{write_json, write_window_json};
pub use lines::{write_plan, write_sample, write_text, write_window};
pub use refusal::ReportRefusal;
pub use symbols::write_symbols;
