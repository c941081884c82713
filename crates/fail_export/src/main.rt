//! The program `fail_export`: opens the devices that the words name, and exits with the number of the status.
#![tactic(auto)]

use fs_model::NoMemory;
use host_files::{ImageFile, KeepFile, Output, word_at, words};
use phases::Status;
use results_db::{export_run, tell_export};
use sqlite_rows::SqliteStore;
use std::process::ExitCode;

// Runs the export of the words: the program's name, IMAGE, KEEP, DB, options. A word at one of these places is
// opened only if the line names that file.
fn run(rt: &HostRuntime, words: &[String]) -> Status {
    let mut image = ImageFile::new(rt, word_at(words, 1));
    let mut disk = KeepFile::to_read(rt, word_at(words, 2));
    let mut store = SqliteStore::new(rt, word_at(words, 3));
    let mut out = Output::new(rt.stdout());
    let mut err = Output::new(rt.stderr());
    let status = export_run(
        rt.alloc(),
        words,
        &mut image,
        &mut disk,
        &mut store,
        &mut out,
        &mut err,
    );
    drop(err);
    drop(out);
    drop(store);
    drop(disk);
    drop(image);
    status
}

fn main(rt: HostRuntime) -> ExitCode {
    let status = match words(&rt) {
        Ok(words) => run(&rt, &words),
        Err(NoMemory) => {
            tell_export(&mut Output::new(rt.stderr()), Status::NoMemory);
            Status::NoMemory
        }
    };
    ExitCode::from(status.number())
}
