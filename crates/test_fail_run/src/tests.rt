//! Whole calls over devices in memory.

mod agreement;
mod demos;
mod flags;
mod linked;
mod plans;
mod refusals;
mod reports;
mod samples;
mod traces;

use fail_cli::Status;
use std::process::Abort;
use std::sync::Wait;
use std::thread::Threads;
use test_asserts::same;
use test_devices::{Fails, NO_FAILS, call};
use test_programs::{Segment, code, image, program};

// The message of a test that runs out of memory.
const MEMORY: &str = "memory";

/// Returns the image of a program.
fn program_of<R: Abort + AllocGlobal>(rt: &R, words: &[u32]) -> Vec<u8> {
    program(rt.alloc(), words).expect(rt, MEMORY)
}

/// Returns the image of these segments.
fn image_of<R: Abort + AllocGlobal>(rt: &R, entry: u32, segments: &[Segment]) -> Vec<u8> {
    image(rt.alloc(), entry, segments).expect(rt, MEMORY)
}

/// Returns the bytes of these words.
fn code_of<R: Abort + AllocGlobal>(rt: &R, words: &[u32]) -> Vec<u8> {
    code(rt.alloc(), words).expect(rt, MEMORY)
}

/// Returns these words followed by the flags.
fn with_flags<'a, R: Threads + Wait + Sync + Abort + AllocGlobal>(
    rt: &R,
    usual: &[&'a str],
    flags: &[&'a str],
) -> Vec<&'a str> {
    let mut words = Vec::new(rt.alloc());
    words.extend_from_slice(usual).expect(rt, MEMORY);
    words.extend_from_slice(flags).expect(rt, MEMORY);
    words
}

/// Returns the image of a program at an address, which is also its entry.
fn image_at<R: Abort + AllocGlobal>(rt: &R, at: u32, words: &[u32]) -> Vec<u8> {
    let bytes = code_of(rt, words);
    image_of(rt, at, &[Segment { at, bytes: &bytes }])
}

/// Tests that a call ends with this status and these texts on its two outputs.
fn gives<R: Threads + Wait + Sync + Abort + AllocGlobal>(
    rt: &R,
    words: &[&str],
    image: Vec<u8>,
    fails: &Fails,
    told: (Status, &str, &str),
) {
    let ended = call(rt, rt.alloc(), words, image, fails).expect(rt, MEMORY);
    let (status, out, err) = told;
    let wanted = (status, out.as_bytes(), err.as_bytes());
    same(words, ended.told(), wanted).expect(rt, "not the same");
}

/// Tests that a call ends with `Done` and writes only this text.
fn writes<R: Threads + Wait + Sync + Abort + AllocGlobal>(
    rt: &R,
    words: &[&str],
    image: Vec<u8>,
    text: &str,
) {
    gives(rt, words, image, &NO_FAILS, (Status::Done, text, ""));
}

/// Tests that a call writes only this line, to the error output.
fn tells<R: Threads + Wait + Sync + Abort + AllocGlobal>(
    rt: &R,
    words: &[&str],
    image: Vec<u8>,
    status: Status,
    text: &str,
) {
    gives(rt, words, image, &NO_FAILS, (status, "", text));
}
