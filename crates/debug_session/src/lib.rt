//! A debugger's session with an injected run: a packet of GDB's remote serial protocol and the place in the run give
//! the answer and the next place.
#![tactic(auto)]

mod advice;
mod answers;
mod commands;
mod last_writes;
mod monitor;
mod numbers;
mod parse;
mod points;
mod replies;
mod session;
mod target;
mod words;

pub use answers::answer;
pub use commands::{Advice, Command, Fixed, Go, Look, Shown, Tell};
pub use parse::command_in;
pub use session::{Session, SiteFacts};
