//! The program `fail_replay`: opens the devices that the words name, and exits with the number of the status.
#![tactic(auto)]

use fs_model::NoMemory;
use host_files::{ImageFile, Output, words};
use phases::{SiteStatus, Status};
use replay::{replay_run, tell_replay};
use std::process::ExitCode;

// Returns IMAGE of a valid line: the first word after the program's name that begins with no hyphen.
fn image_word(words: &[String]) -> &str {
    match words.iter().skip(1).find(|word| !word.starts_with('-')) {
        Some(word) => word.as_str(),
        None => "",
    }
}

// Runs the replay of the words. If they are no valid line, IMAGE is not opened.
fn run(rt: &HostRuntime, words: &[String]) -> SiteStatus {
    let mut image = ImageFile::new(rt, image_word(words));
    let mut out = Output::new(rt.stdout());
    let mut err = Output::new(rt.stderr());
    let status = replay_run(rt.alloc(), words, &mut image, &mut out, &mut err);
    drop(err);
    drop(out);
    drop(image);
    status
}

fn main(rt: HostRuntime) -> ExitCode {
    let status = match words(&rt) {
        Ok(words) => run(&rt, &words),
        Err(NoMemory) => {
            let status = SiteStatus::Ended(Status::NoMemory);
            tell_replay(&mut Output::new(rt.stderr()), status);
            status
        }
    };
    ExitCode::from(status.number())
}
