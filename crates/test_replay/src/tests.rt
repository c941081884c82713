//! Whole calls of `replay_run`.

use fs_outside::{MemSink, MemSource};
use replay::replay_run;
use std::process::Abort;
use test_asserts::same;
use test_programs::{COUNTS_DOWN, DETECTS, HALTS, SENDS, program};

const MEMORY: &str = "memory";

// The ROM and RAM of all rows.
const MAP: &str = " --rom=0x20000000:64 --ram=0x80000000:16";

/// The answer of a call, and what its outputs took.
#[derive(Drop)]
struct Ended {
    number: u8,
    out: MemSink,
    err: MemSink,
}

impl Ended {
    fn told(&self) -> (u8, &[u8], &[u8]) {
        (self.number, self.out.bytes(), self.err.bytes())
    }
}

// Returns a list with the number of a call that fails, counted from 1, or an empty list.
fn list<R: Abort + AllocGlobal>(rt: &R, number: Option<u64>) -> Vec<u64> {
    let mut numbers = Vec::new(rt.alloc());
    if let Some(number) = number {
        numbers.push(number).expect(rt, MEMORY);
    }
    numbers
}

// Appends the words of a line, which one space separates.
fn push_words<R: Abort + AllocGlobal>(rt: &R, words: &mut Vec<String>, line: &str) {
    for word in line.split(' ') {
        if !word.is_empty() {
            push(rt, words, word);
        }
    }
}

fn push<R: Abort + AllocGlobal>(rt: &R, words: &mut Vec<String>, word: &str) {
    let word = String::from_str(rt.alloc(), word).expect(rt, MEMORY);
    words.push(word).expect(rt, MEMORY);
}

// Returns the words of a line and of the map.
fn words_of<R: Abort + AllocGlobal>(rt: &R, line: &str) -> Vec<String> {
    let mut words = Vec::new(rt.alloc());
    push_words(rt, &mut words, line);
    push_words(rt, &mut words, MAP);
    words
}

// Returns the image of these words, one of whose reads fails.
fn image_of<R: Abort + AllocGlobal>(rt: &R, code: &[u32], read: Option<u64>) -> MemSource {
    let bytes = program(rt.alloc(), code).expect(rt, MEMORY);
    MemSource::new(bytes, list(rt, read))
}

// Returns an output, one of whose writes fails.
fn sink<R: Abort + AllocGlobal>(rt: &R, write: Option<u64>) -> MemSink {
    MemSink::new(rt.alloc(), list(rt, write))
}

// Runs a replay with these words; these calls of the image and of the output fail.
fn replay<R: Abort + AllocGlobal>(
    rt: &R,
    code: &[u32],
    line: &str,
    reads: Option<u64>,
    writes: Option<u64>,
) -> Ended {
    replay_of(
        rt,
        &words_of(rt, line),
        &mut image_of(rt, code, reads),
        writes,
    )
}

fn replay_of<R: Abort + AllocGlobal>(
    rt: &R,
    words: &[String],
    image: &mut MemSource,
    writes: Option<u64>,
) -> Ended {
    let mut out = sink(rt, writes);
    let mut err = sink(rt, None);
    let status = replay_run(rt.alloc(), words, image, &mut out, &mut err);
    Ended {
        number: status.number(),
        out,
        err,
    }
}

// Tests how a replay without failures ends: its exit status, its output and its error output.
fn ends<R: Abort + AllocGlobal>(rt: &R, code: &[u32], line: &str, told: (u8, &str, &str)) {
    let ended = replay(rt, code, line, None, None);
    tells(rt, line, &ended, told);
}

fn tells(rt: &impl Abort, key: &str, ended: &Ended, told: (u8, &str, &str)) {
    let (number, out, err) = told;
    let wanted = (number, out.as_bytes(), err.as_bytes());
    same(key, ended.told(), wanted).expect(rt, "not the same");
}

// A program, a line, and the text.
static TEXTS: [(&[u32], &str, &str); 10] = [
    // Another byte is sent.
    (
        &SENDS,
        "fail_replay image.elf 2 2 1",
        "site 2 2 1\n2 20000008 00208023\n3 2000000c 0000a423\ndiffers pc - registers 2 output 3\noutput 43\nend halted 0\noutcome silent\n",
    ),
    (
        &SENDS,
        "fail_replay --whole image.elf 2 2 1",
        "site 2 2 1\n0 20000000 f00000b7\n1 20000004 04100113\n2 20000008 00208023\n3 2000000c 0000a423\n\
        differs pc - registers 2 output 3\noutput 43\nend halted 0\noutcome silent\n",
    ),
    (
        &SENDS,
        "fail_replay --brief image.elf 2 2 1",
        "site 2 2 1\ndiffers pc - registers 2 output 3\noutput 43\nend halted 0\noutcome silent\n",
    ),
    // The flip is overwritten.
    (
        &SENDS,
        "fail_replay --brief image.elf 1 2 1",
        "site 1 2 1\ndiffers pc - registers 1 output -\noutput 41\nend halted 0\noutcome no-effect\n",
    ),
    // The byte goes to the port that detects.
    (
        &SENDS,
        "fail_replay image.elf 2 1 2",
        "site 2 1 2\n2 20000008 00208023\ndiffers pc - registers 2 output -\noutput -\nend detected\noutcome detected\n",
    ),
    // The last store goes to an address without a device, and to a misaligned one.
    (
        &SENDS,
        "fail_replay image.elf 3 1 3 3 1 0",
        "site 3 1 3\n3 2000000c 0000a423\ndiffers pc - registers 3 output -\noutput 41\nend trapped\n\
        outcome address\nsite 3 1 0\n3 2000000c 0000a423\ndiffers pc - registers 3 output -\noutput 41\n\
        end trapped\noutcome misaligned\n",
    ),
    // It counts down from 6 instead of 2.
    (
        &COUNTS_DOWN,
        "fail_replay image.elf 1 2 2 --limit 8",
        "site 1 2 2\n1 20000004 fff10113\n2 20000008 fe011ee3\n3 20000004 fff10113\n4 20000008 fe011ee3\n\
        5 20000004 fff10113\n6 20000008 fe011ee3\n7 20000004 fff10113\n\
        differs pc 5 registers 1 output -\noutput -\nend limit\noutcome timeout\n",
    ),
    // The pc goes back to the first instruction.
    (
        &HALTS,
        "fail_replay image.elf 1 0 2 --pc",
        "site 1 0 2\n1 20000000 f00000b7\n2 20000004 0000a423\ndiffers pc 1 registers - output -\noutput -\nend halted 0\noutcome no-effect\n",
    ),
    // The pc goes to an address without memory.
    (
        &HALTS,
        "fail_replay --whole image.elf 0x1 0x0 0x1f --pc",
        "site 1 0 31\n0 20000000 f00000b7\n1 a0000004 --------\ndiffers pc 1 registers - output -\noutput -\nend trapped\noutcome address\n",
    ),
    // The last bit of RAM.
    (
        &HALTS,
        "fail_replay --brief image.elf 1 47 7",
        "site 1 47 7\ndiffers pc - registers - output -\noutput -\nend halted 0\noutcome no-effect\n",
    ),
];

#[test]
fn texts(rt: HostRuntime) {
    for (code, line, text) in TEXTS.as_slice() {
        ends(&rt, code, line, (0, *text, ""));
    }
}

const USAGE: &str = "usage: fail_replay [--whole | --brief] IMAGE CYCLE CELL BIT .. [options]\n";

// Lines that are refused: the exit status, and the line on the error output.
static REFUSED: [(&[u32], &str, u8, &str); 19] = [
    (&HALTS, "fail_replay", 1, USAGE),
    (&HALTS, "fail_replay image.elf", 1, USAGE),
    (&HALTS, "fail_replay image.elf 0 1", 1, USAGE),
    (&HALTS, "fail_replay image.elf 0 1 0 1", 1, USAGE),
    (&HALTS, "fail_replay image.elf 0 1 256", 1, USAGE),
    (&HALTS, "fail_replay image.elf 0x100000000 1 0", 1, USAGE),
    (&HALTS, "fail_replay image.elf 0 x1 0", 1, USAGE),
    (&HALTS, "fail_replay image.elf 0 1 0 --whole", 1, USAGE),
    (
        &HALTS,
        "fail_replay --brief --whole image.elf 0 1 0",
        1,
        USAGE,
    ),
    (&HALTS, "fail_replay image.elf 0 1 0 --workers=2", 1, USAGE),
    (&HALTS, "fail_replay image.elf 0 1 0 --limit=0", 1, USAGE),
    (
        &DETECTS,
        "fail_replay image.elf 0 1 0",
        4,
        "golden run detected at cycle 1\n",
    ),
    (
        &HALTS,
        "fail_replay image.elf 2 1 0",
        13,
        "no such site: cycle 2 cell 1 bit 0\n",
    ),
    (
        &HALTS,
        "fail_replay image.elf 1 0 0",
        13,
        "no such site: cycle 1 cell 0 bit 0\n",
    ),
    (
        &HALTS,
        "fail_replay image.elf 1 48 0",
        13,
        "no such site: cycle 1 cell 48 bit 0\n",
    ),
    (
        &HALTS,
        "fail_replay image.elf 1 31 32",
        13,
        "no such site: cycle 1 cell 31 bit 32\n",
    ),
    (
        &HALTS,
        "fail_replay image.elf 1 32 8",
        13,
        "no such site: cycle 1 cell 32 bit 8\n",
    ),
    // Of two sites, the first that the case does not have is named.
    (
        &HALTS,
        "fail_replay image.elf 0 1 0 1 47 255 9 9 9",
        13,
        "no such site: cycle 1 cell 47 bit 255\n",
    ),
    (
        &[],
        "fail_replay image.elf 0 1 0",
        4,
        "golden run trapped at cycle 0\n",
    ),
];

#[test]
fn refused(rt: HostRuntime) {
    for (code, line, number, told) in REFUSED.as_slice() {
        ends(&rt, code, line, (*number, "", *told));
    }
}

// An image that cannot be read, and an output that fails.
#[test]
fn failing_devices(rt: HostRuntime) {
    let line = "fail_replay image.elf 0 1 0";
    let unread = replay(&rt, &HALTS, line, Some(1), None);
    tells(&rt, "image", &unread, (2, "", "image could not be read\n"));
    let unwritten = replay(&rt, &HALTS, line, None, Some(1));
    let told = (8, "", "output could not be written\n");
    tells(&rt, "output", &unwritten, told);
}
