//! A disk that fails at one call, and a disk that fails from one call on and then crashes: what is kept, and the
//! result of a later run. In pages of 40, the program that sends a byte takes nine writes and ten syncs.

use super::files::{call_on, disk};
use super::{tells, writes};
use Left::{All, Nothing, Other, Rows};
use fail_cli::Status;
use fs_outside::{DiskCall, DiskFail, MemDisk};
use keep_format::FormatFault::NotACampaign;
use result_keeper::KeepRefusal::Format;
use std::process::Abort;
use std::sync::Wait;
use std::thread::Threads;
use test_asserts::same;
use test_devices::Ended;
use test_programs::reports::SENDS;

const FAULT: &str = "campaign file could not be read or written\n";

/// What is left of a campaign.
#[derive(Clone, Copy, Debug, PartialEq, Eq)]
enum Left {
    /// The file is not a campaign file.
    Nothing,
    /// This number of rows.
    Rows(u32),
    /// The rows of all jobs.
    All,
    /// A result that no stop may have.
    Other,
}

// Runs the program in pages of 40.
fn run<R: Threads + Wait + Sync + Abort + AllocGlobal>(
    rt: &R,
    fresh: bool,
    disk: &mut MemDisk,
) -> Ended {
    if fresh {
        return call_on(rt, "run", &SENDS, &["--page=40", "--fresh"], disk);
    }
    call_on(rt, "run", &SENDS, &["--page=40"], disk)
}

// Returns what a report finds.
fn reported<R: Threads + Wait + Sync + Abort + AllocGlobal>(rt: &R, disk: &mut MemDisk) -> Left {
    match call_on(rt, "report", &SENDS, &[], disk).status {
        Status::Done => All,
        Status::Stopped { kept, jobs: 96 } => Rows(kept),
        Status::BadKeep(Format(NotACampaign)) => Nothing,
        _ => Other,
    }
}

// Tests that the same disk continues without failures and in the end has all rows. The file is started again if it
// was not a campaign file.
fn goes_on<R: Threads + Wait + Sync + Abort + AllocGlobal>(
    rt: &R,
    number: u64,
    found: Left,
    disk: &mut MemDisk,
) {
    let ended = run(rt, found == Nothing, disk);
    writes(rt, &ended, SENDS.report);
    same(number, reported(rt, disk), All).expect(rt, "not the same");
}

// One call fails: three writes start the file, and two append a batch. The first sync is that of the opening. Then
// the same disk continues without failures.
#[test]
fn one_call_that_fails(rt: HostRuntime) {
    let nothing_taken = [
        Rows(0),
        Nothing,
        Nothing,
        Rows(0),
        Rows(0),
        Rows(40),
        Rows(40),
        Rows(80),
        Rows(80),
    ];
    let all_taken = [
        Nothing,
        Nothing,
        Rows(0),
        Rows(0),
        Rows(40),
        Rows(40),
        Rows(80),
        Rows(80),
        All,
    ];
    let not_synced = [
        Rows(0),
        Nothing,
        Nothing,
        Rows(0),
        Rows(0),
        Rows(40),
        Rows(40),
        Rows(80),
        Rows(80),
        All,
    ];
    for (call, taken, table) in [
        (DiskCall::Write, 0, &nothing_taken[..]),
        (DiskCall::Write, u32::MAX, &all_taken[..]),
        (DiskCall::Sync, 0, &not_synced[..]),
    ] {
        for (place, expected) in table.iter().enumerate() {
            let number = 1 + place as u64;
            let fail = DiskFail {
                call,
                number,
                taken,
            };
            fails_once(&rt, fail, *expected);
        }
        // No call of this kind follows these.
        let behind = DiskFail {
            call,
            number: 1 + table.len() as u64,
            taken,
        };
        let mut disk = disk(&rt, &[], &[behind]);
        let ended = run(&rt, false, &mut disk);
        writes(&rt, &ended, SENDS.report);
        same(behind.number, disk.listed(), 0).expect(&rt, "not the same");
    }
}

// Tests that a report finds what a run leaves if this call fails.
fn fails_once<R: Threads + Wait + Sync + Abort + AllocGlobal>(
    rt: &R,
    fail: DiskFail,
    expected: Left,
) {
    let mut disk = disk(rt, &[], &[fail]);
    let ended = run(rt, false, &mut disk);
    tells(rt, &ended, Status::KeepFault, FAULT);
    let found = reported(rt, &mut disk);
    same(fail.number, (disk.listed(), found), (1, expected)).expect(rt, "not the same");
    goes_on(rt, fail.number, found, &mut disk);
}

// The second batch's first write fails; then the same disk continues.
#[test]
fn a_second_batch_that_fails(rt: HostRuntime) {
    let sixth = DiskFail {
        call: DiskCall::Write,
        number: 6,
        taken: 0,
    };
    let mut disk = disk(&rt, &[], &[sixth]);
    let ended = run(&rt, false, &mut disk);
    tells(&rt, &ended, Status::KeepFault, FAULT);
    let ended = run(&rt, false, &mut disk);
    writes(&rt, &ended, SENDS.report);
}

// The call with this number and all later ones fail. Then the disk crashes, and a run continues with the file that
// it leaves. Returns whether there was such a call.
fn crashes<R: Threads + Wait + Sync + Abort + AllocGlobal>(
    rt: &R,
    fuse: u64,
    fill: Option<u8>,
) -> bool {
    let mut first = disk(rt, &[], &[]);
    first.fuse(fuse);
    let ended = run(rt, false, &mut first);
    if ended.status == Status::Done {
        return false;
    }
    tells(rt, &ended, Status::KeepFault, FAULT);
    first.crash(rt.alloc(), fill).expect(rt, "memory");
    let mut second = disk(rt, first.bytes(), &[]);
    let found = reported(rt, &mut second);
    let left = [Nothing, Rows(0), Rows(40), Rows(80), All].contains(&found);
    same((fuse, found), left, true).expect(rt, "not the same");
    goes_on(rt, fuse, found, &mut second);
    true
}

// Each call of a run in turn: nine writes, ten syncs, and at least one call that asks for the length.
#[test]
fn crashes_at_each_call(rt: HostRuntime) {
    for fill in [None, Some(0), Some(0xa5)] {
        let mut calls = 0;
        for fuse in 1..100 {
            if !crashes(&rt, fuse, fill) {
                break;
            }
            calls = fuse;
        }
        same(calls, calls >= 20 && calls < 99, true).expect(&rt, "not the same");
    }
}
