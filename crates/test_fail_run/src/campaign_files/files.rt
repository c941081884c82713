//! Campaign files of two programs, byte by byte, and the words of calls that name one.

use fs_outside::{DiskFail, MemDisk};
use std::process::Abort;
use std::sync::Wait;
use std::thread::Threads;
use test_devices::{Ended, Fails, NO_FAILS, call_over};
use test_programs::reports::{HALTS, Row, SENDS};
use test_programs::{RAM, ROM, code, program};

/// A row in a file: the cycle and the cell in four bytes each, the bit, and the outcome's number.
pub type RowBytes = [u8; 10];

/// The number of bytes before the first batch.
pub const HEADER: usize = 118;

// The message of a test that runs out of memory.
const MEMORY: &str = "memory";

/// Returns the words of a command with a campaign file: its usual options, and then these words.
pub fn keep_line<'a, R: Threads + Wait + Sync + Abort + AllocGlobal>(
    rt: &R,
    command: &'a str,
    limit: &'a str,
    more: &[&'a str],
) -> Vec<&'a str> {
    let usual = [
        "fail_star",
        command,
        "image.elf",
        "campaign.keep",
        "--rom=0x20000000:64",
        "--ram=0x80000000:16",
        "--limit",
        limit,
    ];
    let mut words = Vec::new(rt.alloc());
    words.extend_from_slice(&usual).expect(rt, MEMORY);
    words.extend_from_slice(more).expect(rt, MEMORY);
    words
}

/// Returns the image of a program.
pub fn image_of<R: Threads + Wait + Sync + Abort + AllocGlobal>(rt: &R, row: &Row) -> Vec<u8> {
    program(rt.alloc(), row.words).expect(rt, MEMORY)
}

/// Returns a disk with these bytes, some calls of which fail.
pub fn disk<R: Threads + Wait + Sync + Abort + AllocGlobal>(
    rt: &R,
    bytes: &[u8],
    fails: &[DiskFail],
) -> MemDisk {
    let bytes = bytes.to_vec(rt.alloc()).expect(rt, MEMORY);
    let fails = fails.to_vec(rt.alloc()).expect(rt, MEMORY);
    MemDisk::new(rt.alloc(), bytes, fails).expect(rt, MEMORY)
}

/// Calls a command on a program over a disk, with these words after its usual options.
pub fn call_on<'a, R: Threads + Wait + Sync + Abort + AllocGlobal>(
    rt: &R,
    command: &'a str,
    row: &Row<'a>,
    more: &[&'a str],
    disk: &mut MemDisk,
) -> Ended {
    call_failing(rt, command, row, more, &NO_FAILS, disk)
}

/// Calls a command as `call_on` does, with an image and an output that fail.
pub fn call_failing<'a, R: Threads + Wait + Sync + Abort + AllocGlobal>(
    rt: &R,
    command: &'a str,
    row: &Row<'a>,
    more: &[&'a str],
    fails: &Fails,
    disk: &mut MemDisk,
) -> Ended {
    let words = keep_line(rt, command, row.limit, more);
    let image = image_of(rt, row);
    call_over(rt, rt.alloc(), &words, image, fails, disk).expect(rt, MEMORY)
}

/// Returns the header of a file whose card has this code at the start of ROM, and zeros elsewhere.
pub fn header<R: Threads + Wait + Sync + Abort + AllocGlobal>(
    rt: &R,
    words: &[u32],
    limit: u32,
) -> Vec<u8> {
    let mut file = Vec::new(rt.alloc());
    put(rt, &mut file, b"\xa5FAILCMP");
    put(rt, &mut file, &[1, 105, 0, 0, 0, 1]);
    for number in [ROM, ROM, 64, RAM, 16, limit] {
        put(rt, &mut file, &number.to_le_bytes());
    }
    let code = code(rt.alloc(), words).expect(rt, MEMORY);
    put(rt, &mut file, &code);
    for _ in file.len()..HEADER {
        put(rt, &mut file, &[0]);
    }
    file
}

/// Appends bytes to a file.
pub fn put<R: Threads + Wait + Sync + Abort + AllocGlobal>(
    rt: &R,
    file: &mut Vec<u8>,
    bytes: &[u8],
) {
    file.extend_from_slice(bytes).expect(rt, MEMORY);
}

/// Sets a byte of the file.
pub fn set<R: Threads + Wait + Sync + Abort + AllocGlobal>(
    rt: &R,
    file: &mut Vec<u8>,
    at: usize,
    byte: u8,
) {
    assert!(rt; at < file.len());
    file[at] = byte;
}

/// Opens the closed gate at the end of a file, and appends these rows and a closed gate.
pub fn append<R: Threads + Wait + Sync + Abort + AllocGlobal>(
    rt: &R,
    file: &mut Vec<u8>,
    rows: &[RowBytes],
) {
    let _ = file.pop();
    put(rt, file, &[0xa5]);
    let count = u16::try_from(rows.len()).expect(rt, "few rows");
    put(rt, file, &count.to_le_bytes());
    for row in rows {
        put(rt, file, row);
    }
    put(rt, file, &[0]);
}

/// Returns the file of a program with these rows, in batches of `page` rows. The last batch may have fewer.
pub fn file<R: Threads + Wait + Sync + Abort + AllocGlobal>(
    rt: &R,
    words: &[u32],
    rows: &[RowBytes],
    page: usize,
) -> Vec<u8> {
    let mut file = header(rt, words, 100);
    put(rt, &mut file, &[0]);
    for batch in rows.chunks(page.max(1)) {
        append(rt, &mut file, batch);
    }
    file
}

// Returns the outcome's number for a bit of a register at a cycle, worked out by hand. In the program that sends a
// byte, register 1 with bit 2 flipped is the address of the port that detects, and with bit 3 flipped that of the
// port that halts. The low byte of register 2 is sent. All other flips trap: as misaligned if a word is stored and
// the address is no longer a multiple of 4, and otherwise by the address.
fn outcome_of(cycle: u8, register: u8, bit: u8) -> u8 {
    match (cycle, register, bit) {
        (2, 1, 2) => 2,
        (2, 1, 3) => 1,
        (2, 2, 0..8) => 1,
        (2, 2, _) => 0,
        (2, _, _) => 6,
        (_, _, 0..2) => 7,
        _ => 6,
    }
}

// Returns the rows of these registers at these cycles, bit by bit.
fn rows_of<R: Threads + Wait + Sync + Abort + AllocGlobal>(
    rt: &R,
    reads: &[(u8, u8)],
) -> Vec<RowBytes> {
    let mut rows = Vec::new(rt.alloc());
    for (cycle, register) in reads {
        for bit in 0..32 {
            let outcome = outcome_of(*cycle, *register, bit);
            let row = [*cycle, 0, 0, 0, *register, 0, 0, 0, bit, outcome];
            rows.push(row).expect(rt, MEMORY);
        }
    }
    rows
}

/// Returns the rows of the program that halts at once: register 1 before its store.
pub fn halts_rows<R: Threads + Wait + Sync + Abort + AllocGlobal>(rt: &R) -> Vec<RowBytes> {
    rows_of(rt, &[(1, 1)])
}

/// Returns the rows of the program that sends a byte.
pub fn sends_rows<R: Threads + Wait + Sync + Abort + AllocGlobal>(rt: &R) -> Vec<RowBytes> {
    rows_of(rt, &[(2, 1), (2, 2), (3, 1)])
}

/// A campaign file of one of the programs.
#[derive(Clone, Copy)]
pub enum Kept {
    /// No file yet.
    Nothing,
    /// The whole file of the program that halts at once.
    Halts,
    /// The whole file of the program that sends a byte, in one batch.
    Sends,
    /// Its file, stopped after 40 jobs.
    Stopped,
    /// Its file after a run continued with the other 56 jobs.
    Resumed,
}

/// Returns the bytes of a file.
pub fn bytes_of<R: Threads + Wait + Sync + Abort + AllocGlobal>(rt: &R, kept: Kept) -> Vec<u8> {
    match kept {
        Kept::Nothing => Vec::new(rt.alloc()),
        Kept::Halts => file(rt, HALTS.words, &halts_rows(rt), 32),
        Kept::Sends => file(rt, SENDS.words, &sends_rows(rt), 96),
        Kept::Stopped => file_in_parts(rt, false),
        Kept::Resumed => file_in_parts(rt, true),
    }
}

// Returns the file of the program that sends a byte, with 40 rows in one batch, and if it was resumed with the
// others in a second batch.
fn file_in_parts<R: Threads + Wait + Sync + Abort + AllocGlobal>(rt: &R, resumed: bool) -> Vec<u8> {
    let mut first = sends_rows(rt);
    first.truncate(40);
    let mut file = file(rt, SENDS.words, &first, 40);
    if resumed {
        let rows = sends_rows(rt);
        assert!(rt; rows.len() >= 40);
        append(rt, &mut file, &rows[40..]);
    }
    file
}

/// Returns the file of the program that sends a byte with every second job, from this one on.
pub fn half_file<R: Threads + Wait + Sync + Abort + AllocGlobal>(rt: &R, first: usize) -> Vec<u8> {
    let mut rows = Vec::new(rt.alloc());
    for (number, row) in sends_rows(rt).iter().enumerate() {
        if number % 2 == first {
            rows.push(*row).expect(rt, MEMORY);
        }
    }
    file(rt, SENDS.words, &rows, 48)
}
