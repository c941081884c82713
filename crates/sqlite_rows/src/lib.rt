//! A table of jobs in an SQLite database.
#![tactic(auto)]

mod log;
mod store;
mod table;

pub use store::SqliteStore;
