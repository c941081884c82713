//! The program `fail_window`: opens the devices that the words name, and exits with the number of the status.
#![tactic(auto)]

use fs_model::NoMemory;
use host_files::{Beside, ImageFile, KeepFile, Output, Progress, word_at, words};
use phases::Status;
use std::process::ExitCode;
use std::sync::Wait;
use std::thread::Threads;
use window_run::{WindowStatus, tell_window, window_run};

// Runs the line of the words: the program's name, IMAGE, KEEP, options. A word at one of these places is opened only
// if the line names that file.
fn run<R: Threads + Wait + Sync>(threads: &R, rt: &HostRuntime, words: &[String]) -> WindowStatus {
    let mut image = ImageFile::new(rt, word_at(words, 1));
    let progress = Progress::new(rt);
    let mut disk = KeepFile::to_append(rt, word_at(words, 2), word_at(words, 1)).watched_by(
        &progress,
    );
    let mut out = Output::new(Beside::new(rt.stdout(), &progress));
    let mut err = Output::new(Beside::new(rt.stderr(), &progress));
    let status = window_run(
        threads,
        rt.alloc(),
        words,
        &mut image,
        &mut disk,
        &mut out,
        &mut err,
        &progress,
    );
    drop(err);
    drop(out);
    drop(disk);
    drop(image);
    status
}

fn main(rt: HostRuntime) -> ExitCode {
    let status = match words(&rt) {
        Ok(words) => run(&rt, &rt, &words),
        Err(NoMemory) => {
            let status = WindowStatus::Ended(Status::NoMemory);
            tell_window(&mut Output::new(rt.stderr()), "", status);
            status
        }
    };
    ExitCode::from(status.number())
}
