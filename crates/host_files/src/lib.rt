//! The files and streams of the process as devices of a program, and its words.
//!
//! They tell no bytes: it is only proved that they fail exactly when their count of faults rises.
#![tactic(auto)]

mod arguments;
mod campaign_file;
mod image;
mod input;
mod keep;
mod links;
mod other;
mod output;
mod progress;
mod progress_text;

pub use arguments::{word_at, words};
pub use image::ImageFile;
pub use input::Input;
pub use keep::KeepFile;
pub use links::real_path;
pub use other::OtherFile;
pub use output::Output;
pub use progress::{Beside, Progress};
