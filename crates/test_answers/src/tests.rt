//! Whole calls of `answers_run`.
//!
//! The campaign files are made byte by byte, and the lines are worked out by hand. `fail_replay` gives the same
//! outputs and ends.

use answers_run::answers_run;
use fs_outside::{FreeGate, MemDisk, MemSink, MemSource};
use std::process::Abort;
use std::thread::Threads;
use test_asserts::same;
use test_programs::{COUNTS_DOWN, DETECTS, RAM, ROM, SENDS, code, program};

const MEMORY: &str = "memory";

// The words of IMAGE and KEEP, and of the map of all calls.
const LINE: &str = "fail_answers image.elf campaign.keep --rom=0x20000000:64 --ram=0x80000000:16 ";

// The number of bytes of a campaign file before its first batch.
const HEADER: usize = 118;

/// A row in a file: the cycle and the cell in four bytes each, the bit, and the outcome's number.
type RowBytes = [u8; 10];

/// The answer of a call, and what its outputs took.
#[derive(Drop)]
struct Ended {
    number: u8,
    out: MemSink,
    err: MemSink,
}

fn put<R: Abort + AllocGlobal>(rt: &R, file: &mut Vec<u8>, bytes: &[u8]) {
    file.extend_from_slice(bytes).expect(rt, MEMORY);
}

// Returns the campaign file of a program with one batch of these rows.
fn file_of<R: Abort + AllocGlobal>(
    rt: &R,
    words: &[u32],
    limit: u32,
    rows: &[RowBytes],
) -> Vec<u8> {
    let mut file = Vec::new(rt.alloc());
    put(rt, &mut file, b"\xa5FAILCMP");
    put(rt, &mut file, &[1, 105, 0, 0, 0, 1]);
    for number in [ROM, ROM, 64, RAM, 16, limit] {
        put(rt, &mut file, &number.to_le_bytes());
    }
    let code = code(rt.alloc(), words).expect(rt, MEMORY);
    put(rt, &mut file, &code);
    for _ in file.len()..HEADER {
        put(rt, &mut file, &[0]);
    }
    let count = u16::try_from(rows.len()).expect(rt, "few rows");
    put(rt, &mut file, &[0xa5]);
    put(rt, &mut file, &count.to_le_bytes());
    for row in rows {
        put(rt, &mut file, row);
    }
    put(rt, &mut file, &[0]);
    file
}

// Appends the words of a line, which one space separates.
fn push_words<R: Abort + AllocGlobal>(rt: &R, words: &mut Vec<String>, line: &str) {
    for word in line.split(' ') {
        if !word.is_empty() {
            let word = String::from_str(rt.alloc(), word).expect(rt, MEMORY);
            words.push(word).expect(rt, MEMORY);
        }
    }
}

// Returns a list with the number of a call that fails, counted from 1, or an empty list.
fn list<R: Abort + AllocGlobal>(rt: &R, number: Option<u64>) -> Vec<u64> {
    let mut numbers = Vec::new(rt.alloc());
    if let Some(number) = number {
        numbers.push(number).expect(rt, MEMORY);
    }
    numbers
}

// Calls the program with these words after the usual ones; these calls of the image and of the output fail.
fn answers<R: Threads + Sync + Abort + AllocGlobal>(
    rt: &R,
    program_words: &[u32],
    file: Vec<u8>,
    more: &str,
    reads: Option<u64>,
    writes: Option<u64>,
) -> Ended {
    let mut words = Vec::new(rt.alloc());
    push_words(rt, &mut words, LINE);
    push_words(rt, &mut words, more);
    let bytes = program(rt.alloc(), program_words).expect(rt, MEMORY);
    let mut image = MemSource::new(bytes, list(rt, reads));
    let mut disk = MemDisk::new(rt.alloc(), file, Vec::new(rt.alloc())).expect(rt, MEMORY);
    let mut out = MemSink::new(rt.alloc(), list(rt, writes));
    let mut err = MemSink::new(rt.alloc(), Vec::new(rt.alloc()));
    let status = answers_run(
        rt,
        rt.alloc(),
        &words,
        &mut image,
        &mut disk,
        &mut out,
        &mut err,
        &FreeGate,
    );
    Ended {
        number: status.number(),
        out,
        err,
    }
}

fn tells(rt: &impl Abort, key: &str, ended: &Ended, number: u8, out: &str, err: &str) {
    let found = (ended.number, ended.out.bytes(), ended.err.bytes());
    same(key, found, (number, out.as_bytes(), err.as_bytes())).expect(rt, "not the same");
}

// Rows of the program that sends a byte at cycle 2, from register 2 to the address in register 1, and halts at cycle
// 3. They are not in the order of the jobs. The last one is wrong: its flip has no effect.
static ROWS: [RowBytes; 6] = [
    [2, 0, 0, 0, 2, 0, 0, 0, 7, 1],
    [3, 0, 0, 0, 1, 0, 0, 0, 0, 7],
    [2, 0, 0, 0, 1, 0, 0, 0, 3, 1],
    [2, 0, 0, 0, 1, 0, 0, 0, 2, 2],
    [2, 0, 0, 0, 2, 0, 0, 0, 8, 0],
    [2, 0, 0, 0, 2, 0, 0, 0, 9, 1],
];

// The store goes to the port that halts, and another byte is sent. The flips of register 1 at the cycles 1 and 2
// belong to one job.
const SILENT: &str =
    "2 1 3 2 silent - halted 65\n2 2 7 1 silent c1 halted 0\n2 2 9 1 no-effect 41 halted 0\n";

const OTHERS: &str =
    "2 1 2 2 detected - detected\n2 2 8 1 no-effect 41 halted 0\n3 1 0 1 misaligned 41 trapped\n";

// The answers of the jobs with chosen outcomes, by one worker and by several.
#[test]
fn texts(rt: HostRuntime) {
    for (more, text) in [
        ("", SILENT),
        ("--workers=1", SILENT),
        ("--outcome silent --workers=3", SILENT),
        ("--outcome=no-effect,misaligned,detected", OTHERS),
        (
            "--outcome=detected,no-effect,misaligned --workers 2",
            OTHERS,
        ),
        ("--outcome timeout", ""),
    ] {
        let file = file_of(&rt, &SENDS, 1_000_000, &ROWS);
        let ended = answers(&rt, &SENDS, file, more, None, None);
        tells(&rt, more, &ended, 0, text, "");
    }
}

// A run that reaches the limit, and a file without rows.
#[test]
fn limits(rt: HostRuntime) {
    let rows = [[1, 0, 0, 0, 2, 0, 0, 0, 2, 4]];
    let file = file_of(&rt, &COUNTS_DOWN, 8, &rows);
    let more = "--limit 8 --outcome timeout";
    let ended = answers(&rt, &COUNTS_DOWN, file, more, None, None);
    tells(&rt, "limit", &ended, 0, "1 2 2 1 timeout - limit\n", "");
    let empty = answers(&rt, &COUNTS_DOWN, Vec::new(rt.alloc()), more, None, None);
    tells(&rt, "empty", &empty, 0, "", "");
}

// Calls that are refused, each with its status and its line on the error output.
#[test]
fn refused(rt: HostRuntime) {
    let usage = "usage: fail_answers IMAGE KEEP [options]\n";
    for (code, more, number, told) in [
        (SENDS.as_slice(), "--outcome", 1, usage),
        (&SENDS, "--outcome=", 1, usage),
        (&SENDS, "--outcome=silent,", 1, usage),
        (&SENDS, "--outcome=trap", 1, usage),
        (&SENDS, "--workers=0", 1, usage),
        (&SENDS, "--page=7", 1, usage),
        (
            &SENDS,
            "--limit=3",
            4,
            "golden run did not halt within 3 instructions\n",
        ),
        (&DETECTS, "", 4, "golden run detected at cycle 1\n"),
        (
            &SENDS,
            "--limit=9",
            6,
            "campaign file refused: 6 OtherCase at 21\n",
        ),
    ] {
        let file = file_of(&rt, &SENDS, 1_000_000, &ROWS);
        let ended = answers(&rt, code, file, more, None, None);
        tells(&rt, more, &ended, number, "", told);
    }
}

// An image that cannot be read, and an output that fails at its first call and in the middle: one worker writes the
// lines of one page by one call, and two workers by two.
#[test]
fn failing_devices(rt: HostRuntime) {
    let file = file_of(&rt, &SENDS, 1_000_000, &ROWS);
    let unread = answers(&rt, &SENDS, file, "", Some(1), None);
    tells(&rt, "image", &unread, 2, "", "image could not be read\n");
    let told = "output could not be written\n";
    let file = file_of(&rt, &SENDS, 1_000_000, &ROWS);
    let first = answers(&rt, &SENDS, file, "--workers=1", None, Some(1));
    tells(&rt, "first", &first, 8, "", told);
    let file = file_of(&rt, &SENDS, 1_000_000, &ROWS);
    let second = answers(&rt, &SENDS, file, "--workers=2", None, Some(2));
    let part = "2 1 3 2 silent - halted 65\n2 2 7 1 silent c1 halted 0\n";
    tells(&rt, "second", &second, 8, part, told);
}
