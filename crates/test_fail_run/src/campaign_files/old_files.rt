//! Campaign files of the older version, which wrote the number 3 for each trap: their rows stay, and their jobs
//! run again.

use super::files::{RowBytes, append, disk, file, halts_rows, put, sends_rows, set};
use super::{call_tells, call_writes, only_reads};
use fail_cli::Status;
use fs_outside::{DiskCall, DiskFail};
use keep_format::FormatFault::{BadRow, Conflict};
use result_keeper::KeepRefusal::Format;
use std::process::Abort;
use std::sync::Wait;
use std::thread::Threads;
use test_asserts::same;
use test_programs::reports::{HALTS, SENDS};

/// The older version's number of a trap.
const OLD_TRAP: u8 = 3;

// Returns the rows as the older version wrote them.
fn as_old<R: Threads + Wait + Sync + Abort + AllocGlobal>(
    rt: &R,
    rows: &[RowBytes],
) -> Vec<RowBytes> {
    let mut old = Vec::new(rt.alloc());
    for row in rows {
        let [a, b, c, d, e, f, g, h, bit, outcome] = *row;
        let number = if outcome > 4 { OLD_TRAP } else { outcome };
        old.push([a, b, c, d, e, f, g, h, bit, number])
            .expect(rt, "memory");
    }
    old
}

// Returns the older version's whole file of the program that halts at once, whose jobs all trap.
fn old_halts<R: Threads + Wait + Sync + Abort + AllocGlobal>(rt: &R) -> Vec<u8> {
    let mut rows = Vec::new(rt.alloc());
    for bit in 0..32 {
        rows.push([1, 0, 0, 0, 1, 0, 0, 0, bit, OLD_TRAP])
            .expect(rt, "memory");
    }
    file(rt, HALTS.words, &rows, 32)
}

// Returns the older version's file of the program that sends a byte, with `count` rows.
fn old_sends<R: Threads + Wait + Sync + Abort + AllocGlobal>(rt: &R, count: usize) -> Vec<u8> {
    let mut rows = as_old(rt, &sends_rows(rt));
    rows.truncate(count);
    file(rt, SENDS.words, &rows, 96)
}

const NONE_OF_32: (Status, &str) = (
    Status::Stopped { kept: 0, jobs: 32 },
    "stopped: 0 of 32 jobs kept\n",
);

// A job that only an old row names does not count. All these jobs run again, their new rows follow the old ones,
// and then no job is missing.
#[test]
fn all_jobs_again(rt: HostRuntime) {
    let old = old_halts(&rt);
    same("the old file", old.len(), 442).expect(&rt, "not the same");
    let mut kept = disk(&rt, &old, &[]);
    call_tells(&rt, "report", &HALTS, &[], &mut kept, NONE_OF_32);
    only_reads(&rt, "audit", &HALTS, &[], &old, "kept 0 wrong 0\n");
    call_writes(&rt, "run", &HALTS, &[], &mut kept, HALTS.report);
    let mut expected = old_halts(&rt);
    append(&rt, &mut expected, &halts_rows(&rt));
    same("its length", expected.len(), 765).expect(&rt, "not the same");
    same("the file", kept.bytes(), expected.as_slice()).expect(&rt, "not the same");
    for command in ["run", "report"] {
        only_reads(&rt, command, &HALTS, &[], &expected, HALTS.report);
    }
}

// Jobs that do not trap keep their outcomes: 10 of the 40 rows of a file that was stopped, and 34 of the whole
// file.
#[test]
fn other_jobs_stay(rt: HostRuntime) {
    let stopped = old_sends(&rt, 40);
    same("the file that was stopped", stopped.len(), 522).expect(&rt, "not the same");
    let mut kept = disk(&rt, &stopped, &[]);
    let told = (
        Status::Stopped { kept: 10, jobs: 96 },
        "stopped: 10 of 96 jobs kept\n",
    );
    call_tells(&rt, "report", &SENDS, &[], &mut kept, told);
    call_writes(&rt, "run", &SENDS, &[], &mut kept, SENDS.report);
    call_writes(&rt, "report", &SENDS, &[], &mut kept, SENDS.report);
    // The other 86 jobs ran.
    same("its length", kept.bytes().len(), 522 + 3 + 860).expect(&rt, "not the same");

    let whole = old_sends(&rt, 96);
    only_reads(&rt, "audit", &SENDS, &[], &whole, "kept 34 wrong 0\n");
}

// A call that fails, followed by a crash: each leaves the old rows, and the new ones whole or not at all.
#[test]
fn stops(rt: HostRuntime) {
    let old = old_halts(&rt);
    for (number, taken) in [(1, 0), (1, 200), (2, 0)] {
        let call = DiskFail {
            call: DiskCall::Write,
            number,
            taken,
        };
        let mut kept = disk(&rt, &old, &[call]);
        let told = (
            Status::KeepFault,
            "campaign file could not be read or written\n",
        );
        call_tells(&rt, "run", &HALTS, &[], &mut kept, told);
        kept.crash(rt.alloc(), None).expect(&rt, "memory");
        call_tells(&rt, "report", &HALTS, &[], &mut kept, NONE_OF_32);
        call_writes(&rt, "run", &HALTS, &[], &mut kept, HALTS.report);
        same(number, kept.bytes().len(), 765).expect(&rt, "not the same");
    }
}

// A row that names no job is refused, old or not.
#[test]
fn an_old_row_of_no_job(rt: HostRuntime) {
    let mut old = old_sends(&rt, 40);
    let _ = old.pop();
    put(
        &rt,
        &mut old,
        &[0xa5, 1, 0, 3, 0, 0, 0, 2, 0, 0, 0, 0, OLD_TRAP, 0],
    );
    let told = (
        Status::BadKeep(Format(BadRow { at: 524 })),
        "campaign file refused: 4 BadRow at 524\n",
    );
    for command in ["run", "report"] {
        let mut kept = disk(&rt, &old, &[]);
        call_tells(&rt, command, &SENDS, &[], &mut kept, told);
        same(command, kept.bytes(), old.as_slice()).expect(&rt, "not the same");
    }
}

// An old row of a job that does not trap, which no version wrote: the job runs, and its counts are right. The file
// is then refused, since the new row disagrees with the old one.
#[test]
fn a_wrong_old_row(rt: HostRuntime) {
    let mut old = old_sends(&rt, 96);
    set(&rt, &mut old, 160, OLD_TRAP);
    let mut kept = disk(&rt, &old, &[]);
    call_writes(&rt, "run", &SENDS, &[], &mut kept, SENDS.report);
    let told = (
        Status::BadKeep(Format(Conflict {
            first: 151,
            second: 1104,
        })),
        "campaign file refused: 5 Conflict at 151 and 1104\n",
    );
    call_tells(&rt, "report", &SENDS, &[], &mut kept, told);
}
