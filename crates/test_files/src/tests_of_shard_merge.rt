//! Halves of a campaign, merged on disks some of whose calls fail.
ghost use Rattle.std.specs.Prelude.{◌≡◌, ◌^◌, ◌<◌};
ghost use Rattle.fs_model.specs.Job.{jobs_in};

use super::shards::{Jobs, board_with, listed, outcome_in, sending};
use def_use::{Board, JobList};
use fs_model::{Case, Outcome};
use fs_outside::MemDisk;
use result_keeper::{AdoptRefusal, Keeper, board_of, look};
use shard_merge::{MergeRefusal, Merger};
use std::process::Abort;
use std::test::Fail;
use test_asserts::same;

// The call of the disk from which on every call fails.
#[derive(Clone, Copy)]
enum Fuse {
    Never,
    AfterOpening,
    At(u64),
}

// Merges a board into the file on a disk, and returns the answer, or why the file was not opened.
fn merged<R: Abort + AllocGlobal>(
    rt: &R,
    case: &Case,
    list: &JobList,
    disk: &mut MemDisk,
    page: u32,
    other: &Board,
    fuse: Fuse,
) -> Result<Result<u32, MergeRefusal>, AdoptRefusal>
    requires jobs { list.now.list ≡ jobs_in case.now }
    requires some { 0 < page }
    requires few { page < 2 ^ 16 }
{
    let mut merger = Merger::new(rt.alloc(), page).expect(rt, "memory");
    match fuse {
        Fuse::Never | Fuse::AfterOpening => disk.fuse(u64::MAX),
        Fuse::At(call) => disk.fuse(call),
    }
    match Keeper::adopt(rt.alloc(), disk, case, list, page, false) {
        Ok(mut keeper) => {
            if matches!(fuse, Fuse::AfterOpening) {
                disk.fuse(1);
            }
            assert!(rt; other.len() == list.len());
            let answer = merger.merge(&mut keeper, disk, list, other);
            let failed = answer == Err(MergeRefusal::DiskFault);
            same("healthy", keeper.healthy(), !failed).expect(rt, "not the same");
            Ok(answer)
        }
        Err(refusal) => Err(refusal),
    }
}

const DISAGREE: MergeRefusal = MergeRefusal::Disagree {
    job: 12,
    kept: Outcome::Misaligned,
    other: Outcome::Silent,
};

// What is merged into the same file, the call of the disk from which on every call fails, the answer, and the
// length of the file. It has 119 bytes before the batches; a batch has 3 bytes and 10 for each row. If nothing is
// appended, the disk is not called.
static STEPS: [(Jobs, Fuse, Result<u32, MergeRefusal>, usize); 9] = [
    (Jobs::Nothing, Fuse::AfterOpening, Ok(0), 119),
    (Jobs::Even, Fuse::Never, Ok(48), 602),
    (Jobs::Even, Fuse::AfterOpening, Ok(0), 602),
    (Jobs::Nothing, Fuse::AfterOpening, Ok(0), 602),
    (Jobs::Other, Fuse::AfterOpening, Err(DISAGREE), 602),
    (Jobs::Odd, Fuse::Never, Ok(48), 1085),
    (Jobs::Odd, Fuse::AfterOpening, Ok(0), 1085),
    (Jobs::Even, Fuse::AfterOpening, Ok(0), 1085),
    (Jobs::All, Fuse::AfterOpening, Ok(0), 1085),
];

// Returns whether the bytes give each job the outcome that it has in `jobs`.
fn gives<R: Abort + AllocGlobal>(
    rt: &R,
    bytes: &[u8],
    case: &Case,
    list: &JobList,
    jobs: Jobs,
) -> bool
    requires { list.now.list ≡ jobs_in case.now }
{
    let board = board_of(rt.alloc(), bytes, case, list).expect(rt, "a board");
    for number in 0..list.len() {
        assert!(rt; number < board.len());
        if board.get(number) != outcome_in(jobs, number) {
            return false;
        }
    }
    true
}

#[test]
fn halves_are_merged(rt: HostRuntime) -> Result<(), Fail> {
    let alloc = rt.alloc();
    let case = sending(alloc, 100)?;
    let list = listed(alloc, &case)?;
    let mut disk = MemDisk::new(alloc, Vec::new(alloc), Vec::new(alloc))?;
    for (jobs, fuse, answer, bytes) in STEPS {
        let other = board_with(&rt, &list, jobs);
        let told = merged(&rt, &case, &list, &mut disk, 4096, &other, fuse);
        same((jobs, bytes), told, Ok(answer)).expect(&rt, "not the same");
        same((jobs, "bytes"), disk.bytes().len(), bytes).expect(&rt, "not the same");
    }
    let all = gives(&rt, disk.bytes(), &case, &list, Jobs::All);
    same("all jobs", all, true).expect(&rt, "not the same");
    Ok(())
}

// What is left of a file of the even jobs after the odd jobs are merged into it in pages of 20.
#[derive(Clone, Copy, PartialEq, Eq, Debug)]
enum Left {
    NotOpened,
    /// The disk failed in the merge; after a crash the file has this number of jobs.
    Kept(u32),
    Appended(u32),
}

// Merges the odd jobs over a disk whose calls fail from `call` on, and returns what is left after a crash. The
// crash fills the bytes that were written and not synced.
fn left_of<R: Abort + AllocGlobal>(
    rt: &R,
    case: &Case,
    list: &JobList,
    half: &[u8],
    call: u64,
    fill: Option<u8>,
) -> Left
    requires { list.now.list ≡ jobs_in case.now }
{
    let alloc = rt.alloc();
    let bytes = half.to_vec(alloc).expect(rt, "memory");
    let mut disk = MemDisk::new(alloc, bytes, Vec::new(alloc)).expect(rt, "memory");
    let other = board_with(rt, list, Jobs::Odd);
    match merged(rt, case, list, &mut disk, 20, &other, Fuse::At(call)) {
        Err(_) => Left::NotOpened,
        Ok(Ok(count)) => Left::Appended(count),
        Ok(Err(refusal)) => {
            same(call, refusal, MergeRefusal::DiskFault).expect(rt, "not the same");
            disk.crash(alloc, fill).expect(rt, "memory");
            disk.fuse(u64::MAX);
            let board = look(alloc, &mut disk, case, list).expect(rt, "a board");
            Left::Kept(board.kept())
        }
    }
}

// The first and the last call of the disk that leave this: four calls open the file, and four append each batch,
// of 20, 20 and 8.
static LEFT: [(u64, u64, Left); 5] = [
    (1, 4, Left::NotOpened),
    (5, 8, Left::Kept(48)),
    (9, 12, Left::Kept(68)),
    (13, 16, Left::Kept(88)),
    (17, 17, Left::Appended(48)),
];

// Returns whether only whole batches are left. A crash may also leave the whole batch that was being written.
fn is_whole(left: Left) -> bool {
    matches!(left, Left::Kept(48 | 68 | 88 | 96))
}

// Returns the file of the even jobs.
fn half_of<R: Abort + AllocGlobal>(rt: &R, case: &Case, list: &JobList) -> MemDisk
    requires { list.now.list ≡ jobs_in case.now }
{
    let alloc = rt.alloc();
    let mut disk = MemDisk::new(alloc, Vec::new(alloc), Vec::new(alloc)).expect(rt, "memory");
    let even = board_with(rt, list, Jobs::Even);
    let told = merged(rt, case, list, &mut disk, 4096, &even, Fuse::Never);
    same("the half", told, Ok(Ok(48))).expect(rt, "not the same");
    disk
}

#[test]
fn each_call_fails_in_turn(rt: HostRuntime) -> Result<(), Fail> {
    let alloc = rt.alloc();
    let case = sending(alloc, 100)?;
    let list = listed(alloc, &case)?;
    let half = half_of(&rt, &case, &list);
    for (first, last, left) in LEFT {
        for call in first..=last {
            let told = left_of(&rt, &case, &list, half.bytes(), call, None);
            same(call, told, left).expect(&rt, "not the same");
        }
    }
    for call in 5..17 {
        for fill in [0, 0xA5] {
            let told = left_of(&rt, &case, &list, half.bytes(), call, Some(fill));
            same((call, fill), is_whole(told), true).expect(&rt, "not the same");
        }
    }
    Ok(())
}
