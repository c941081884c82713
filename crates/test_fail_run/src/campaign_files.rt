//! Whole calls over campaign files in memory.

mod audits;
mod files;
mod keeps;
mod kinds;
mod merges;
mod old_files;
mod refused_keeps;
mod shards;
mod stops;
mod symbols;
mod workers;

use fail_cli::Status;
use files::{call_on, disk};
use fs_outside::{DiskCall, DiskFail, MemDisk};
use std::process::Abort;
use std::sync::Wait;
use std::thread::Threads;
use test_asserts::same;
use test_devices::Ended;
use test_programs::reports::Row;

/// A failure of the first write. If it did not occur during a call, the call has written nothing.
const NO_WRITES: DiskFail = DiskFail {
    call: DiskCall::Write,
    number: 1,
    taken: 0,
};

/// Tests that a call ends with this status and writes only this line, to the error output.
fn tells<R: Threads + Wait + Sync + Abort + AllocGlobal>(
    rt: &R,
    ended: &Ended,
    status: Status,
    text: &str,
) {
    let wanted = (status, b"".as_slice(), text.as_bytes());
    same(text, ended.told(), wanted).expect(rt, "not the same");
}

/// Tests that a call ends with `Done` and writes only this text.
fn writes<R: Threads + Wait + Sync + Abort + AllocGlobal>(rt: &R, ended: &Ended, text: &str) {
    let wanted = (Status::Done, text.as_bytes(), b"".as_slice());
    same(text, ended.told(), wanted).expect(rt, "not the same");
}

/// Tests that a command on a program over a disk ends with this status and line.
fn call_tells<'a, R: Threads + Wait + Sync + Abort + AllocGlobal>(
    rt: &R,
    command: &'a str,
    row: &Row<'a>,
    more: &[&'a str],
    disk: &mut MemDisk,
    told: (Status, &str),
) {
    let ended = call_on(rt, command, row, more, disk);
    tells(rt, &ended, told.0, told.1);
}

/// Tests that a command on a program over a disk writes this text.
fn call_writes<'a, R: Threads + Wait + Sync + Abort + AllocGlobal>(
    rt: &R,
    command: &'a str,
    row: &Row<'a>,
    more: &[&'a str],
    disk: &mut MemDisk,
    text: &str,
) {
    let ended = call_on(rt, command, row, more, disk);
    writes(rt, &ended, text);
}

/// Tests that a command on a program over a campaign file writes this text, and nothing to the file.
fn only_reads<'a, R: Threads + Wait + Sync + Abort + AllocGlobal>(
    rt: &R,
    command: &'a str,
    row: &Row<'a>,
    more: &[&'a str],
    kept: &[u8],
    text: &str,
) {
    let mut disk = disk(rt, kept, &[NO_WRITES]);
    call_writes(rt, command, row, more, &mut disk, text);
    same(text, (disk.listed(), disk.bytes()), (0, kept)).expect(rt, "not the same");
}
