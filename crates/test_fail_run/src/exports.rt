//! Whole calls of `export_run`.

use fail_cli::Status;
use fs_model::Outcome::{self, Address, Misaligned, NoEffect};
use fs_outside::{MemDisk, MemSink, MemSource};
use results_db::{ExportRow, MemRows, export_run};
use std::process::Abort;
use std::sync::Wait;
use std::thread::Threads;
use test_asserts::same;
use test_devices::{NO_FAILS, call_over};
use test_programs::program;
use test_programs::reports::{HALTS, Row, SENDS};

const MEMORY: &str = "memory";

/// A row that a table holds before the call.
const BEFORE: ExportRow = ExportRow {
    cycle: 7,
    cell: 8,
    bit: 9,
    weight: 10,
    outcome: NoEffect,
};

fn disk_of<R: Abort + AllocGlobal>(rt: &R, bytes: &[u8]) -> MemDisk {
    let bytes = bytes.to_vec(rt.alloc()).expect(rt, MEMORY);
    MemDisk::new(rt.alloc(), bytes, Vec::new(rt.alloc())).expect(rt, MEMORY)
}

// Returns the campaign file that `run` leaves, with these words after its usual ones.
fn kept<R: Threads + Wait + Sync + Abort + AllocGlobal>(rt: &R, row: &Row, more: &str) -> MemDisk {
    let mut disk = disk_of(rt, b"");
    let words = [
        "fail_star",
        "run",
        "image.elf",
        "campaign.keep",
        "--rom=0x20000000:64",
        "--ram=0x80000000:16",
        "--limit=100",
        more,
    ];
    let image = program(rt.alloc(), row.words).expect(rt, MEMORY);
    let _ = call_over(rt, rt.alloc(), &words, image, &NO_FAILS, &mut disk).expect(rt, MEMORY);
    disk
}

/// The answer of a call, and what its outputs took.
#[derive(Drop)]
struct Ended {
    status: Status,
    out: MemSink,
    err: MemSink,
}

// Exports a program's campaign file into a store, with a line of three files and these options.
fn export<R: Abort + AllocGlobal>(
    rt: &R,
    row: &Row,
    options: &[&str],
    disk: &mut MemDisk,
    store: &mut MemRows,
) -> Ended {
    let mut words = Vec::new(rt.alloc());
    for word in ["fail_export", "image.elf", "campaign.keep", "jobs.db"] {
        let word = String::from_str(rt.alloc(), word).expect(rt, MEMORY);
        words.push(word).expect(rt, MEMORY);
    }
    for word in options {
        let word = String::from_str(rt.alloc(), word).expect(rt, MEMORY);
        words.push(word).expect(rt, MEMORY);
    }
    let bytes = program(rt.alloc(), row.words).expect(rt, MEMORY);
    let mut image = MemSource::new(bytes, Vec::new(rt.alloc()));
    let mut out = MemSink::new(rt.alloc(), Vec::new(rt.alloc()));
    let mut err = MemSink::new(rt.alloc(), Vec::new(rt.alloc()));
    let status = export_run(
        rt.alloc(),
        &words,
        &mut image,
        disk,
        store,
        &mut out,
        &mut err,
    );
    Ended { status, out, err }
}

const USUAL: [&str; 3] = ["--rom=0x20000000:64", "--ram=0x80000000:16", "--limit=100"];

// Returns a store with one row, some of whose calls fail.
fn store_with<R: Abort + AllocGlobal>(rt: &R, fails: &[u64]) -> MemRows {
    let mut rows = Vec::new(rt.alloc());
    rows.push(BEFORE).expect(rt, MEMORY);
    MemRows::new(rows, fails.to_vec(rt.alloc()).expect(rt, MEMORY))
}

// Register 1 is flipped before the store that halts: the address is misaligned, or no device has it.
fn outcome_of(bit: u8) -> Outcome {
    if bit < 2 { Misaligned } else { Address }
}

// Each job of the program that halts at once has its row, in order, and the file is only read.
#[test]
fn a_row_for_each_job(rt: HostRuntime) {
    let whole = kept(&rt, &HALTS, "--page=5");
    let mut disk = disk_of(&rt, whole.bytes());
    let mut store = store_with(&rt, &[]);
    let ended = export(&rt, &HALTS, &USUAL, &mut disk, &mut store);
    same("status", ended.status, Status::Done).expect(&rt, "not the same");
    same("out", ended.out.bytes(), b"exported 32\n".as_slice()).expect(&rt, "not the same");
    same("err", ended.err.bytes(), b"".as_slice()).expect(&rt, "not the same");
    same("file", disk.bytes(), whole.bytes()).expect(&rt, "not the same");
    let rows = store.rows();
    same("rows", rows.len(), 32).expect(&rt, "not the same");
    for bit in 0..32_u8 {
        let expected = ExportRow {
            cycle: 1,
            cell: 1,
            bit,
            weight: 1,
            outcome: outcome_of(bit),
        };
        same(bit, rows.get(bit as usize), Some(&expected)).expect(&rt, "not the same");
    }
}

// The store fails at its first call: the table stays as it was, and only that fault is reported.
#[test]
fn a_store_that_fails(rt: HostRuntime) {
    let mut disk = kept(&rt, &HALTS, "--page=5");
    let mut store = store_with(&rt, &[1]);
    let ended = export(&rt, &HALTS, &USUAL, &mut disk, &mut store);
    same("status", ended.status, Status::StoreFault).expect(&rt, "not the same");
    same("number", ended.status.number(), 12).expect(&rt, "not the same");
    same("out", ended.out.bytes(), b"".as_slice()).expect(&rt, "not the same");
    let text = b"export could not be stored\n".as_slice();
    same("err", ended.err.bytes(), text).expect(&rt, "not the same");
    same("rows", store.rows(), [BEFORE].as_slice()).expect(&rt, "not the same");
}

// If a job has no outcome, nothing is stored.
#[test]
fn a_part_of_a_campaign(rt: HostRuntime) {
    let mut disk = kept(&rt, &SENDS, "--stop-after=40");
    let mut store = store_with(&rt, &[]);
    let ended = export(&rt, &SENDS, &USUAL, &mut disk, &mut store);
    let stopped = Status::Stopped { kept: 40, jobs: 96 };
    same("status", ended.status, stopped).expect(&rt, "not the same");
    let text = b"stopped: 40 of 96 jobs kept\n".as_slice();
    same("err", ended.err.bytes(), text).expect(&rt, "not the same");
    same("rows", store.rows(), [BEFORE].as_slice()).expect(&rt, "not the same");
}

// An option that `audit` does not have.
#[test]
fn another_option(rt: HostRuntime) {
    let mut disk = disk_of(&rt, b"");
    let mut store = store_with(&rt, &[]);
    let ended = export(&rt, &HALTS, &["--format=csv"], &mut disk, &mut store);
    same("status", ended.status, Status::Usage).expect(&rt, "not the same");
    let text = b"usage: fail_export IMAGE KEEP DB [options]\n".as_slice();
    same("err", ended.err.bytes(), text).expect(&rt, "not the same");
}
