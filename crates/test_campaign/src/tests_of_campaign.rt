//! Campaigns on disks in memory: page by page, within a budget, continued after a failure, and refused.
ghost use Rattle.std.specs.Prelude.{◌≡◌, ◌<◌, ◌≤◌, true};
ghost use Rattle.fs_model.specs.AccessLog.{log};
ghost use Rattle.fs_model.specs.Job.{jobs_of};
ghost use Rattle.golden_trace.specs.Goldens.{IsGolden};
ghost use Rattle.result_keeper.specs.Keep.{HasFile};

use campaign::{
    CaseLedger, KeepRefusal, Performed, PrepareRefusal, Ready, Settings, perform, perform_alone,
    prepare,
};
use def_use::JobList;
use fs_model::{Case, Outcome};
use fs_outside::{Disk, DiskCall, DiskFail, FreeGate, MemDisk, SureDisk};
use golden_trace::{Golden, golden};
use keep_format::FormatFault;
use std::alloc::Global;
use std::marker::Brand;
use std::process::Abort;
use std::sync::Wait;
use std::sync::ledger::Blank;
use std::thread::Threads;
use test_asserts::same;
use test_cases::jobs_of_case;
use test_programs::{COUNTS_DOWN, SENDS, case_of};

// The totals of the program that sends a byte, however the campaign is run.
pub(crate) const SENT: Ended = Ended::Done([4376, 10, 2, 0, 90, 2, 0]);

// How a campaign ended: with its totals, with the numbers of jobs kept and of all jobs, or with a fault.
#[derive(Clone, Copy, PartialEq, Eq, Debug)]
pub(crate) enum Ended {
    Done([u64; 7]),
    Stopped(u32, u32),
    KeepFault,
}

// The results of a campaign: the number of jobs that its file kept before, how it ended, its steps, and whether it
// is healthy. A tuple takes less time to prove than a struct that is compared.
pub(crate) type Told = (u32, Ended, u64, bool);

// All missing jobs, in one batch.
const ONE_CALL: Settings = Settings {
    workers: 2,
    page: 4096,
    stop_after: None,
    fresh: false,
    spacing: 256,
    shard: None,
};

// All missing jobs, in pages of 40.
const PAGES: Settings = Settings {
    workers: 2,
    page: 40,
    stop_after: None,
    fresh: false,
    spacing: 256,
    shard: None,
};

pub(crate) fn end_of(performed: &Performed) -> Ended {
    match performed {
        Performed::Done(totals) => Ended::Done([
            totals.get(Outcome::NoEffect),
            totals.get(Outcome::Silent),
            totals.get(Outcome::Detected),
            totals.get(Outcome::Illegal),
            totals.get(Outcome::Address),
            totals.get(Outcome::Misaligned),
            totals.get(Outcome::Timeout),
        ]),
        Performed::Stopped { kept, jobs } => Ended::Stopped(*kept, *jobs),
        Performed::KeepFault => Ended::KeepFault,
    }
}

// Runs the missing jobs of a campaign that is ready.
fn end_alone<K: CaseLedger, D: Disk>(ready: &mut Ready<'_, K>, disk: &mut D) -> Told
    requires healthy { ready.old.keeper.healthy ≡ true }
    requires file { D.tells → HasFile ready.old.keeper (D.past disk.old) }
{
    let before = ready.board().kept();
    let ended = end_of(&perform_alone(ready, disk));
    (before, ended, ready.taken(), ready.healthy())
}

// Does the same by the workers.
fn end_by_workers<K: CaseLedger + Send + Sync, D: Disk, R: Threads + Wait + Sync>(
    rt: &R,
    ready: &mut Ready<'_, K>,
    disk: &mut D,
) -> Told
    requires healthy { ready.old.keeper.healthy ≡ true }
    requires file { D.tells → HasFile ready.old.keeper (D.past disk.old) }
{
    let before = ready.board().kept();
    let ended = end_of(&perform(ready, rt, disk, &FreeGate));
    (before, ended, ready.taken(), ready.healthy())
}

// Runs a campaign of a case with its file on this disk.
fn told_of<K: CaseLedger, D: Disk>(
    alloc: Global,
    case: &Case,
    run: &Golden,
    list: &JobList,
    disk: &mut D,
    settings: &Settings,
    blank: Blank,
) -> Result<Told, PrepareRefusal>
    requires golden { IsGolden case.now run.now }
    requires list { list.now ≡ jobs_of (log case.now) }
    requires ledger { case.now ≡ K.case }
    requires name { blank.name ≡ K.name }
    requires parts { (blank.parts ≡ K.parts) × (blank.parts ≡ settings.now.workers) }
{
    match prepare::<K, _>(alloc, case, run, list, disk, settings, blank) {
        Ok(mut ready) => {
            let told = end_alone(&mut ready, disk);
            drop(ready);
            Ok(told)
        }
        Err(refusal) => Err(refusal),
    }
}

// Does the same by the workers.
fn by_workers<K: CaseLedger + Send + Sync, R: Threads + Wait + Sync>(
    rt: &R,
    alloc: Global,
    case: &Case,
    run: &Golden,
    list: &JobList,
    disk: &mut MemDisk,
    settings: &Settings,
    blank: Blank,
) -> Result<Told, PrepareRefusal>
    requires golden { IsGolden case.now run.now }
    requires list { list.now ≡ jobs_of (log case.now) }
    requires ledger { case.now ≡ K.case }
    requires name { blank.name ≡ K.name }
    requires parts { (blank.parts ≡ K.parts) × (blank.parts ≡ settings.now.workers) }
{
    match prepare::<K, _>(alloc, case, run, list, disk, settings, blank) {
        Ok(mut ready) => {
            let told = end_by_workers(rt, &mut ready, disk);
            drop(ready);
            Ok(told)
        }
        Err(refusal) => Err(refusal),
    }
}

// Runs a campaign of these words with this limit, and with a ledger of its own.
pub(crate) fn carry_out<D: Disk, R: Abort + AllocGlobal>(
    rt: &R,
    words: &[u32],
    limit: u32,
    disk: &mut D,
    settings: &Settings,
) -> Result<Told, PrepareRefusal> {
    let alloc = rt.alloc();
    let case = case_of(alloc, words, limit).expect(rt, "a case");
    let run = golden(alloc, &case).expect(rt, "a golden run");
    let list = jobs_of_case(alloc, &case, &run).expect(rt, "memory");
    let blank = Blank::new(settings.workers as u64);
    let told = told_of::<Brand, _>(alloc, &case, &run, &list, disk, settings, blank);
    drop(list);
    drop(run);
    drop(case);
    told
}

// Runs a campaign of the program that sends a byte, by the workers.
pub(crate) fn together<R: Threads + Wait + Sync + Abort + AllocGlobal>(
    rt: &R,
    disk: &mut MemDisk,
    settings: &Settings,
) -> Result<Told, PrepareRefusal> {
    let alloc = rt.alloc();
    let case = case_of(alloc, &SENDS, 100).expect(rt, "a case");
    let run = golden(alloc, &case).expect(rt, "a golden run");
    let list = jobs_of_case(alloc, &case, &run).expect(rt, "memory");
    let blank = Blank::new(settings.workers as u64);
    let told = by_workers::<Brand, _>(rt, alloc, &case, &run, &list, disk, settings, blank);
    drop(list);
    drop(run);
    drop(case);
    told
}

// Returns the results of a campaign without a failure.
fn well(before: u32, ended: Ended, taken: u64) -> Result<Told, PrepareRefusal> {
    Ok((before, ended, taken, true))
}

// Returns a disk with these bytes, on which this write fails.
pub(crate) fn disk_of<R: Abort + AllocGlobal>(rt: &R, bytes: &[u8], fail: u64) -> MemDisk {
    let call = DiskFail {
        call: DiskCall::Write,
        number: fail,
        taken: 0,
    };
    let bytes = bytes.to_vec(rt.alloc()).expect(rt, "memory");
    let fails = [call].to_vec(rt.alloc()).expect(rt, "memory");
    MemDisk::new(rt.alloc(), bytes, fails).expect(rt, "memory")
}

// The rows of a page, the most jobs to run, how the campaign ends, its steps, and the length of the file. The file
// has 119 bytes before the batches, and a batch has 3 bytes and 10 for each row. The 32 jobs at cycle 2 whose run
// traps or halts at once take 3 steps, and each other job takes 4.
static PAGED: [(u32, Option<u32>, Ended, u64, u64); 6] = [
    (1, None, SENT, 352, 1367),
    (40, None, SENT, 352, 1088),
    (65_535, None, SENT, 352, 1082),
    (4096, Some(0), Ended::Stopped(0, 96), 0, 119),
    (4096, Some(96), SENT, 352, 1082),
    (4096, Some(97), SENT, 352, 1082),
];

#[test]
fn pages_and_budgets(rt: HostRuntime) {
    for (page, stop_after, ended, taken, size) in PAGED {
        assert!(rt; page > 0);
        assert!(rt; page <= 65_535);
        let settings = Settings {
            workers: 2,
            page,
            stop_after,
            fresh: false,
            spacing: 256,
            shard: None,
        };
        let mut sure = SureDisk::new(rt.alloc());
        let told = carry_out(&rt, &SENDS, 100, &mut sure, &settings);
        same(page, told, well(0, ended, taken)).expect(&rt, "not the same");
        let mut disk = disk_of(&rt, &[], 0);
        let told = carry_out(&rt, &SENDS, 100, &mut disk, &settings);
        same(page, told, well(0, ended, taken)).expect(&rt, "not the same");
        same(page, (sure.len(), disk.len()), (Ok(size), Ok(size))).expect(&rt, "not the same");
    }
}

// A campaign on a disk with a file: its settings, its results without the steps, and the length of the file
// afterwards.
pub(crate) type Next = (Settings, (u32, Ended, bool), usize);

const WITHIN_40: Settings = Settings {
    workers: 2,
    page: 4096,
    stop_after: Some(40),
    fresh: false,
    spacing: 256,
    shard: None,
};

const FRESH: Settings = Settings {
    workers: 2,
    page: 4096,
    stop_after: None,
    fresh: true,
    spacing: 256,
    shard: None,
};

// Runs campaigns of the program that sends a byte, one after another on the disk.
pub(crate) fn follow<R: Abort + AllocGlobal>(rt: &R, disk: &mut MemDisk, list: &[Next]) {
    for (settings, wanted, size) in list {
        let told = carry_out(rt, &SENDS, 100, disk, settings);
        let told = told.map(|(before, ended, _, healthy)| (before, ended, healthy));
        same(size, (told, disk.bytes().len()), (Ok(*wanted), *size)).expect(rt, "not the same");
    }
}

// A call that stops within its budget, the call that completes the campaign, and a call on the complete file,
// which writes nothing.
#[test]
fn goes_on(rt: HostRuntime) {
    let list = [
        (WITHIN_40, (0, Ended::Stopped(40, 96), true), 522),
        (ONE_CALL, (40, SENT, true), 1085),
    ];
    let mut disk = disk_of(&rt, &[], 0);
    follow(&rt, &mut disk, &list);
    let mut complete = disk_of(&rt, disk.bytes(), 1);
    let told = carry_out(&rt, &SENDS, 100, &mut complete, &ONE_CALL);
    same("a complete file", told, well(96, SENT, 0)).expect(&rt, "not the same");
    same("its bytes", complete.bytes(), disk.bytes()).expect(&rt, "not the same");
}

// Three writes start the file, two append the first page, and the next one fails; or the first write fails.
#[test]
fn after_a_fault(rt: HostRuntime) {
    let list = [
        (PAGES, (0, Ended::KeepFault, false), 522),
        (PAGES, (40, SENT, true), 1088),
    ];
    let mut disk = disk_of(&rt, &[], 6);
    follow(&rt, &mut disk, &list);
    let mut disk = disk_of(&rt, &[], 1);
    let told = carry_out(&rt, &SENDS, 100, &mut disk, &PAGES);
    same("the first write", told, Err(PrepareRefusal::KeepFault)).expect(&rt, "not the same");
}

// Returns how the campaign of the program that counts down ends with this limit.
fn counts_down<R: Abort + AllocGlobal>(
    rt: &R,
    limit: u32,
    disk: &mut MemDisk,
    settings: &Settings,
) -> Result<Ended, PrepareRefusal> {
    carry_out(rt, &COUNTS_DOWN, limit, disk, settings).map(|(_, ended, _, _)| ended)
}

// Tests that the campaign refuses this file for this reason, and does not change it.
fn is_refused<R: Abort + AllocGlobal>(rt: &R, bytes: &[u8], refusal: KeepRefusal) {
    let mut disk = disk_of(rt, bytes, 0);
    let ended = counts_down(rt, 70, &mut disk, &ONE_CALL);
    same(70, ended, Err(PrepareRefusal::Refused(refusal))).expect(rt, "not the same");
    same("its bytes", disk.bytes(), bytes).expect(rt, "not the same");
}

// A file of another limit, and a file that is not a campaign file: only `fresh` starts it again.
#[test]
fn refused(rt: HostRuntime) {
    let mut disk = disk_of(&rt, &[], 0);
    let ended = counts_down(&rt, 71, &mut disk, &ONE_CALL);
    same(71, ended, Ok(Ended::Done([7702, 0, 0, 0, 30, 2, 106]))).expect(&rt, "not the same");
    is_refused(&rt, disk.bytes(), KeepRefusal::OtherCase { at: 21 });

    let none = [0x7f, 0x45, 0x4c, 0x46, 1, 1, 1, 0];
    let refusal = KeepRefusal::Format(FormatFault::NotACampaign);
    is_refused(&rt, &none, refusal);
    let mut disk = disk_of(&rt, &none, 0);
    let ended = counts_down(&rt, 70, &mut disk, &FRESH);
    same(70, ended, Ok(Ended::Done([7698, 0, 0, 0, 30, 2, 110]))).expect(&rt, "not the same");
}

// The steps of all machines together are those of one run of each job, whatever the number of workers.
#[test]
fn steps_of_all(rt: HostRuntime) {
    for workers in [1, 2, 64] {
        assert!(rt; workers > 0);
        assert!(rt; workers <= 64);
        let settings = Settings {
            workers,
            page: 40,
            stop_after: None,
            fresh: false,
            spacing: 256,
            shard: None,
        };
        let mut disk = disk_of(&rt, &[], 0);
        let told = together(&rt, &mut disk, &settings);
        same(workers, told, well(0, SENT, 352)).expect(&rt, "not the same");
    }
}
