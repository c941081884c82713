//! The program `fail_star`: opens the devices that the words name, and exits with the number of the status.
#![tactic(auto)]

use command_line::command_named;
use fail_cli::{Status, fail_run, tell_status};
use fs_model::NoMemory;
use host_files::{Beside, ImageFile, KeepFile, OtherFile, Output, Progress, word_at, words};
use kept_commands::merge::MAX_OTHER;
use std::process::ExitCode;
use std::sync::Wait;
use std::thread::Threads;

// The campaign file of the words, to be appended to if the command does that.
fn campaign_file<'a>(rt: &'a HostRuntime, words: &'a [String]) -> KeepFile<'a> {
    match command_named(word_at(words, 1)) {
        Some(command) if command.writes_keep() => {
            KeepFile::to_append(rt, word_at(words, 3), word_at(words, 2))
        }
        _ => KeepFile::to_read(rt, word_at(words, 3)),
    }
}

// Runs the line of the words: the program's name, the command, IMAGE, KEEP, OTHER, options. A word at one of
// these places is opened only if the line names that file.
fn run<R: Threads + Wait + Sync>(threads: &R, rt: &HostRuntime, words: &[String]) -> Status {
    let mut image = ImageFile::new(rt, word_at(words, 2));
    let mut second = OtherFile::new(rt, word_at(words, 4), MAX_OTHER as u64);
    let progress = Progress::new(rt);
    let mut disk = campaign_file(rt, words).watched_by(&progress);
    let mut out = Output::new(Beside::new(rt.stdout(), &progress));
    let mut err = Output::new(Beside::new(rt.stderr(), &progress));
    let status = fail_run(
        threads,
        rt.alloc(),
        words,
        &mut image,
        &mut second,
        &mut disk,
        &mut out,
        &mut err,
        &progress,
    );
    drop(err);
    drop(out);
    drop(disk);
    drop(second);
    drop(image);
    status
}

fn main(rt: HostRuntime) -> ExitCode {
    let status = match words(&rt) {
        Ok(words) => run(&rt, &rt, &words),
        Err(NoMemory) => {
            tell_status(&mut Output::new(rt.stderr()), Status::NoMemory);
            Status::NoMemory
        }
    };
    ExitCode::from(status.number())
}
