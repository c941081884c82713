//! The command line, whose options `clap` reads.
#![tactic(auto)]

mod answers;
mod commands;
pub mod laws;
mod line;
mod number;
mod options;
mod parts;
mod ranges;
mod region;
mod replay;
mod request;
mod said;
mod shard;
mod window;
mod words;

pub use answers::AnswersLine;
pub use commands::{Command, Format, Shape, all_commands, command_named, shape_of};
pub use line::{CaseLine, LineRefusal};
pub use number::number_in;
pub use parts::{Range, RunPart};
pub use ranges::{MAX_BLOCKS, MAX_COUNT, MAX_LIMIT, MAX_PAGE, MAX_SHARDS, MAX_STOP, MAX_WORKERS};
pub use region::{Region, read_region};
pub use replay::{ReplayLine, View, read_replay};
pub use request::{Campaign, Draws, Merging, Program, Request};
pub use shard::Shard;
pub use window::{Running, WindowLine};
pub use words::{read_answers, read_export, read_line, read_window};
