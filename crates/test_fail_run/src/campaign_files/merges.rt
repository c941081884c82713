//! Merges of one campaign file into another.

use super::files::{Kept, bytes_of, call_on, disk, half_file, image_of, set};
use super::{NO_WRITES, tells, writes};
use fail_cli::{OtherReason, Status};
use fs_outside::{MemDisk, MemSource};
use keep_format::FormatFault::NotACampaign;
use result_keeper::KeepRefusal::Format;
use std::process::Abort;
use std::sync::Wait;
use std::thread::Threads;
use test_asserts::same;
use test_devices::{CallGate, Ended, NO_FAILS, call_with};
use test_programs::reports::SENDS;

const MEMORY: &str = "memory";

const HALF: (Status, &str) = (
    Status::Stopped { kept: 48, jobs: 96 },
    "stopped: 48 of 96 jobs kept\n",
);

/// The place of the first row's outcome.
const FIRST_OUTCOME: usize = 130;

// Merges these bytes into the file of a disk. These reads of the bytes fail.
fn merge_failing<R: Threads + Wait + Sync + Abort + AllocGlobal>(
    rt: &R,
    other: &[u8],
    fails: &[u64],
    disk: &mut MemDisk,
) -> Ended {
    let words = [
        "fail_star",
        "merge",
        "image.elf",
        "campaign.keep",
        "other.keep",
        "--rom=0x20000000:64",
        "--ram=0x80000000:16",
        "--limit=100",
    ];
    let bytes = other.to_vec(rt.alloc()).expect(rt, MEMORY);
    let fails = fails.to_vec(rt.alloc()).expect(rt, MEMORY);
    let mut second = MemSource::new(bytes, fails);
    let sources = (image_of(rt, &SENDS), &mut second);
    let gate = CallGate::Free;
    call_with(rt, rt.alloc(), &words, sources, &NO_FAILS, disk, gate).expect(rt, MEMORY)
}

fn merge<R: Threads + Wait + Sync + Abort + AllocGlobal>(
    rt: &R,
    other: &[u8],
    disk: &mut MemDisk,
) -> Ended {
    merge_failing(rt, other, &[], disk)
}

// Tests that a merge writes nothing to the file, and ends with this status and text.
fn changes_nothing<R: Threads + Wait + Sync + Abort + AllocGlobal>(
    rt: &R,
    other: &[u8],
    kept: &[u8],
    told: (Status, &str),
) {
    let mut disk = disk(rt, kept, &[NO_WRITES]);
    let ended = merge(rt, other, &mut disk);
    tells(rt, &ended, told.0, told.1);
    same(told.1, (disk.listed(), disk.bytes()), (0, kept)).expect(rt, "not the same");
}

// Two shards give a whole campaign, and then nothing is left to append.
#[test]
fn two_shards(rt: HostRuntime) {
    let other = half_file(&rt, 1);
    let mut disk = disk(&rt, &half_file(&rt, 0), &[]);
    writes(&rt, &merge(&rt, &other, &mut disk), SENDS.report);
    same("bytes", disk.bytes().len(), 1085).expect(&rt, "not the same");

    let whole = disk.bytes();
    let mut again = super::files::disk(&rt, whole, &[NO_WRITES]);
    writes(&rt, &merge(&rt, &other, &mut again), SENDS.report);
    same("again", (again.listed(), again.bytes()), (0, whole)).expect(&rt, "not the same");
}

// A file that is merged with itself or with an empty file does not change, and is still a part.
#[test]
fn nothing_to_append(rt: HostRuntime) {
    let first = half_file(&rt, 0);
    changes_nothing(&rt, &first, &first, HALF);
    changes_nothing(&rt, b"", &first, HALF);
}

// An empty file is started, and then has the rows of the second file.
#[test]
fn into_no_file(rt: HostRuntime) {
    let other = bytes_of(&rt, Kept::Sends);
    let mut disk = disk(&rt, b"", &[]);
    writes(&rt, &merge(&rt, &other, &mut disk), SENDS.report);
    same("bytes", disk.bytes(), other.as_slice()).expect(&rt, "not the same");
}

// The first job whose outcomes differ is reported, before anything is written.
#[test]
fn a_job_of_two_outcomes(rt: HostRuntime) {
    let mut other = bytes_of(&rt, Kept::Sends);
    set(&rt, &mut other, FIRST_OUTCOME, 0);
    let disagrees = OtherReason::Disagree {
        cycle: 2,
        cell: 1,
        bit: 0,
    };
    let told = (
        Status::BadOther(disagrees),
        "other campaign file refused: 8 Disagree at cycle 2 cell 1 bit 0\n",
    );
    changes_nothing(&rt, &other, &half_file(&rt, 0), told);
}

// The second file is checked before the campaign file is opened.
#[test]
fn a_bad_other_file(rt: HostRuntime) {
    let told = (
        Status::BadOther(OtherReason::Refused(Format(NotACampaign))),
        "other campaign file refused: 1 NotACampaign\n",
    );
    changes_nothing(&rt, b"no campaign", &half_file(&rt, 0), told);
    changes_nothing(&rt, b"no campaign", b"nor this", told);

    let told = (
        Status::BadKeep(Format(NotACampaign)),
        "campaign file refused: 1 NotACampaign\n",
    );
    changes_nothing(&rt, &half_file(&rt, 1), b"no campaign", told);
}

#[test]
fn an_other_file_that_fails(rt: HostRuntime) {
    let first = half_file(&rt, 0);
    let mut disk = disk(&rt, &first, &[NO_WRITES]);
    let ended = merge_failing(&rt, &half_file(&rt, 1), &[1], &mut disk);
    let text = "other campaign file could not be read\n";
    tells(&rt, &ended, Status::OtherFault, text);
    same(text, disk.bytes(), first.as_slice()).expect(&rt, "not the same");
}

// The disk fails from each of its calls on, and then crashes. The new rows are in the file or not, and another
// merge completes it.
#[test]
fn crashes_at_each_call(rt: HostRuntime) {
    let other = half_file(&rt, 1);
    for number in 1..10 {
        let mut disk = disk(&rt, &half_file(&rt, 0), &[]);
        disk.fuse(number);
        let ended = merge(&rt, &other, &mut disk);
        let failed = ended.status == Status::KeepFault;
        same(number, failed || ended.status == Status::Done, true).expect(&rt, "not the same");
        for fill in [None, Some(0x5a)] {
            let mut left = super::files::disk(&rt, disk.bytes(), &[]);
            if failed {
                left = disk_after(&rt, number, fill);
            }
            let reported = call_on(&rt, "report", &SENDS, &[], &mut left).status;
            same(number, reported == HALF.0 || reported == Status::Done, true).expect(
                &rt,
                "not the same",
            );
            writes(&rt, &merge(&rt, &other, &mut left), SENDS.report);
        }
    }
}

// Returns what a crash leaves after a merge over a disk that fails from this call on.
fn disk_after<R: Threads + Wait + Sync + Abort + AllocGlobal>(
    rt: &R,
    number: u64,
    fill: Option<u8>,
) -> MemDisk {
    let mut disk = disk(rt, &half_file(rt, 0), &[]);
    disk.fuse(number);
    let _ = merge(rt, &half_file(rt, 1), &mut disk);
    disk.crash(rt.alloc(), fill).expect(rt, MEMORY);
    super::files::disk(rt, disk.bytes(), &[])
}
