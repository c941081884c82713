//! The desk where the workers of a campaign file their rows.
//!
//! A [`Desk`] is used under a lock, so its type states what holds of it: each of its rows is right, and no two
//! have one name. Each worker has a [`Tally`] of what it filed; all tallies together give the number of rows
//! filed at the desk.
#![tactic(auto)]

mod desks;
mod filings;
mod pages;
mod tallies;

pub use desks::Desk;
pub use filings::Filing;
pub use tallies::Tally;
