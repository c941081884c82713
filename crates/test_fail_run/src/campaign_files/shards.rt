//! Campaigns that run the jobs of a shard.

use super::files::{Kept, bytes_of, call_on, disk, half_file};
use super::{call_tells, call_writes, only_reads, tells};
use fail_cli::Status;
use test_asserts::same;
use test_programs::reports::SENDS;

const HALF: (Status, &str) = (
    Status::Stopped { kept: 48, jobs: 96 },
    "stopped: 48 of 96 jobs kept\n",
);

// The file of each shard has the jobs of the shard, whatever the number of workers. The call ends as stopped,
// since other jobs are missing.
#[test]
fn a_shard_alone(rt: HostRuntime) {
    for (shard, first) in [("1/2", 0), ("2/2", 1)] {
        let expected = half_file(&rt, first);
        same(shard, expected.len(), 602).expect(&rt, "not the same");
        for workers in ["1", "3"] {
            let more = ["--shard", shard, "--workers", workers];
            let mut disk = disk(&rt, &[], &[]);
            call_tells(&rt, "run", &SENDS, &more, &mut disk, HALF);
            same(shard, disk.bytes(), expected.as_slice()).expect(&rt, "not the same");
        }
    }
}

// After the second shard's run on the file of the first one, the file has all jobs.
#[test]
fn shards_one_after_the_other(rt: HostRuntime) {
    let mut disk = disk(&rt, &[], &[]);
    call_tells(&rt, "run", &SENDS, &["--shard=1/2"], &mut disk, HALF);
    call_tells(&rt, "run", &SENDS, &["--shard=1/2"], &mut disk, HALF);
    call_writes(
        &rt,
        "run",
        &SENDS,
        &["--shard=2/2"],
        &mut disk,
        SENDS.report,
    );
    same("both", disk.bytes().len(), 1085).expect(&rt, "not the same");
}

// The only shard of one has all jobs, and a shard of a whole file has no job to run.
#[test]
fn shards_of_all_and_none(rt: HostRuntime) {
    let whole = bytes_of(&rt, Kept::Sends);
    let mut disk = disk(&rt, &[], &[]);
    call_writes(
        &rt,
        "run",
        &SENDS,
        &["--shard=1/1"],
        &mut disk,
        SENDS.report,
    );
    same("one", disk.bytes(), whole.as_slice()).expect(&rt, "not the same");
    only_reads(&rt, "run", &SENDS, &["--shard=2/2"], &whole, SENDS.report);
}

// A budget counts the jobs of the shard.
#[test]
fn a_budget_of_a_shard(rt: HostRuntime) {
    let mut disk = disk(&rt, &[], &[]);
    let more = ["--shard=2/2", "--stop-after=10"];
    let ended = call_on(&rt, "run", &SENDS, &more, &mut disk);
    let stopped = Status::Stopped { kept: 10, jobs: 96 };
    tells(&rt, &ended, stopped, "stopped: 10 of 96 jobs kept\n");
}
