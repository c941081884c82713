//! The program `fail_answers`: opens the devices that the words name, and exits with the number of the status.
#![tactic(auto)]

use answers_run::{answers_run, tell_answers};
use fs_model::NoMemory;
use host_files::{Beside, ImageFile, KeepFile, Output, Progress, word_at, words};
use phases::Status;
use std::process::ExitCode;
use std::thread::Threads;

// Runs the line of the words: the program's name, IMAGE, KEEP, options. A word at one of these places is opened only
// if the line names that file.
fn run<R: Threads + Sync>(threads: &R, rt: &HostRuntime, words: &[String]) -> Status {
    let mut image = ImageFile::new(rt, word_at(words, 1));
    let progress = Progress::new(rt);
    let mut disk = KeepFile::to_read(rt, word_at(words, 2));
    let mut out = Output::new(Beside::new(rt.stdout(), &progress));
    let mut err = Output::new(Beside::new(rt.stderr(), &progress));
    let status = answers_run(
        threads,
        rt.alloc(),
        words,
        &mut image,
        &mut disk,
        &mut out,
        &mut err,
        &progress,
    );
    drop(err);
    drop(out);
    drop(disk);
    drop(image);
    status
}

fn main(rt: HostRuntime) -> ExitCode {
    let status = match words(&rt) {
        Ok(words) => run(&rt, &rt, &words),
        Err(NoMemory) => {
            let status = Status::NoMemory;
            tell_answers(&mut Output::new(rt.stderr()), status);
            status
        }
    };
    ExitCode::from(status.number())
}
