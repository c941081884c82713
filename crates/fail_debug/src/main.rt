//! The program `fail_debug`: opens the devices that the words name, and exits with the number of the status.
#![tactic(auto)]

use debugger::{debug_run, tell_debug};
use fs_model::NoMemory;
use fs_outside::Source;
use host_files::{ImageFile, Input, Output, words};
use phases::{SiteStatus, Status};
use std::io::{IsTerminal, Read};
use std::process::ExitCode;

/// The most bytes of one read.
const PIECE: usize = 4096;

// Returns IMAGE of a valid line: the first word after the program's name that begins with no hyphen.
fn image_word(words: &[String]) -> &str {
    match words.iter().skip(1).find(|word| !word.starts_with('-')) {
        Some(word) => word.as_str(),
        None => "",
    }
}

// Returns whether a valid line was refused before GDB was heard.
fn is_refusal(status: SiteStatus) -> bool {
    match status {
        SiteStatus::NoSite(_) => true,
        SiteStatus::Ended(status) => match status {
            Status::ReadFault | Status::BadImage(_) | Status::BadGolden(_) => true,
            _ => false,
        },
        SiteStatus::InputFault => false,
    }
}

// Reads to the end of a packet, or of the input. GDB writes a packet before it reads; if nobody takes that, it shows
// the broken pipe and not the line on the error output.
fn hear_packet<R: Read + Drop>(input: &mut Input<R>) {
    let mut piece = [0; PIECE];
    for _ in 0..u64::MAX {
        match input.read(&mut piece) {
            Ok(count) if 0 < count && !piece[..count].contains(&b'#') => {}
            _ => return,
        }
    }
}

// Runs the debugger of the words. If they are no valid line, IMAGE is not opened.
fn run(rt: &HostRuntime, words: &[String]) -> SiteStatus {
    let mut image = ImageFile::new(rt, image_word(words));
    let mut input = Input::new(rt.stdin());
    let mut out = Output::new(rt.stdout());
    let mut err = Output::new(rt.stderr());
    let status = debug_run(
        rt.alloc(),
        words,
        &mut image,
        &mut input,
        &mut out,
        &mut err,
    );
    if is_refusal(status) && !rt.stdin().is_terminal() {
        hear_packet(&mut input);
    }
    drop(err);
    drop(out);
    drop(input);
    drop(image);
    status
}

fn main(rt: HostRuntime) -> ExitCode {
    let status = match words(&rt) {
        Ok(words) => run(&rt, &words),
        Err(NoMemory) => {
            let status = SiteStatus::Ended(Status::NoMemory);
            tell_debug(&mut Output::new(rt.stderr()), status);
            status
        }
    };
    ExitCode::from(status.number())
}
