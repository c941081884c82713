//! The functions and objects of an ELF image, as its symbol table names them.
#![tactic(auto)]

mod entries;
pub mod laws;
mod names;
mod owners;
mod refusals;
mod sections;
mod tables;

pub use names::Name;
pub use owners::owner_of;
pub use refusals::SymbolRefusal;
pub use tables::{Symbol, symbols};
