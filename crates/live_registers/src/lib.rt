//! The registers that are live at each word of ROM: those that a run from there on may read before it writes them.
//! States that differ only in registers that are not live end alike.
//!
//! A fixpoint over the words of ROM finds the masks and is not proved. One pass then checks that each mask has what
//! its word and the masks of the words after it ask for, and only that pass is proved.
#![tactic(auto)]

mod fixpoint;
mod flows;
mod masks;
mod words;

pub use masks::LiveRegisters;
