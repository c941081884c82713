//! The answer of an injected run: all bytes that it sends and how it ends, as a line of text.
#![tactic(auto)]

mod answers;
mod kept;
mod lines;
mod reference;
mod rest;
mod runner;
mod runs;

pub use answers::put_answer;
pub use reference::Reference;
pub use runner::Runner;
