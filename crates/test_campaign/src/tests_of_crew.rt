//! Pages of the program that sends a byte, one after another, by any number of workers. Its 96 jobs are the 32
//! bits of x1 and of x2 before the third instruction, and those of x1 before the fourth.
ghost use Rattle.std.specs.Prelude.{◌≡◌, ◌+◌, ◌^◌, ◌<◌, ◌≤◌, All, IfOk, length, vec_len};
ghost use Rattle.fs_model.specs.AccessLog.{log};
ghost use Rattle.fs_model.specs.Job.{jobs_in, jobs_of};
ghost use Rattle.golden_trace.specs.Goldens.{IsGolden};
ghost use Rattle.job_queue.specs.Pages.{AreDistinct};

use def_use::JobList;
use fs_model::{Case, NoMemory, Outcome, Row};
use fs_outside::{FreeGate, Gate, HoldGate};
use golden_trace::{Golden, golden};
use snapshot_store::Snaps;
use std::alloc::Global;
use std::marker::Brand;
use std::process::Abort;
use std::sync::Wait;
use std::sync::ledger::Blank;
use std::test::Fail;
use std::thread::Threads;
use test_asserts::same;
use test_cases::jobs_of_case;
use test_programs::{SENDS, case_of};
use worker_pool::{CaseJobs, CaseLedger, Crew};

// Returns the row of a job, worked out by hand. With bit 2 flipped, x1 is the address of the port that detects,
// and with bit 3 flipped that of the port that halts. Of x2, eight bits are sent. At cycle 3 a word is stored.
fn row_of(number: u32) -> Row {
    let bit = (number % 32) as u8;
    let (cycle, cell) = match number / 32 {
        0 => (2, 1),
        1 => (2, 2),
        _ => (3, 1),
    };
    let outcome = match (cycle, cell, bit) {
        (2, 1, 2) => Outcome::Detected,
        (2, 1, 3) => Outcome::Silent,
        (2, 2, 0..8) => Outcome::Silent,
        (2, 2, _) => Outcome::NoEffect,
        (3, 1, 0..2) => Outcome::Misaligned,
        _ => Outcome::Address,
    };
    Row {
        cycle,
        cell,
        bit,
        outcome,
    }
}

// Returns `count` numbers from `first` on.
fn numbers_from(alloc: Global, first: u32, count: u32) -> Result<Vec<u32>, NoMemory>
    requires { first + count < 2 ^ 32 }
    ensures apart { IfOk result (λ v. AreDistinct v.items) }
    ensures below { IfOk result (λ v. All (λ n. n < first + count) v.items) }
    ensures count { IfOk result (λ v. vec_len v ≡ count) }
{
    let mut numbers = Vec::with_capacity(alloc, count as usize)?;
    for number in first..first + count {
        numbers.push(number)?;
    }
    Ok(numbers)
}

// Runs `count` jobs from `first` on, and compares their rows.
fn run_part<K: CaseLedger + Send + Sync, R: Threads + Wait + Sync + Abort, G: Gate>(
    rt: &R,
    alloc: Global,
    crew: &mut Crew<'_, K>,
    gate: &G,
    first: u32,
    count: u32,
) -> Result<(), Fail>
    requires jobs { length (jobs_in crew.old.case) ≡ 96 }
    requires part { (count ≤ crew.old.page) × (first + count ≤ 96) }
    ensures same { (crew.new.case ≡ crew.old.case) × (crew.new.page ≡ crew.old.page) }
{
    let numbers = numbers_from(alloc, first, count)?;
    let mut rows = Vec::with_capacity(alloc, count as usize)?;
    crew.run_page(rt, gate, numbers.as_slice(), &mut rows);
    same(first, rows.len(), count as usize).expect(rt, "not the same");
    for place in 0..count {
        let row = rows.get(place as usize).copied();
        same(first + place, row, Some(row_of(first + place))).expect(rt, "not the same");
    }
    Ok(())
}

// Runs three pages, of 40, 40 and 16 jobs. Each of the first 32 jobs takes 3 steps, and each later one 4.
fn run_pages<K: CaseLedger + Send + Sync, R: Threads + Wait + Sync + Abort, G: Gate>(
    rt: &R,
    alloc: Global,
    crew: &mut Crew<'_, K>,
    workers: u32,
    gate: &G,
) -> Result<(), Fail>
    requires page { crew.old.page ≡ 40 }
    requires jobs { length (jobs_in crew.old.case) ≡ 96 }
{
    for (first, count, taken) in [(0, 40, 128), (40, 40, 288), (80, 16, 352)] {
        assert!(rt; first <= 80);
        assert!(rt; count <= 40);
        assert!(rt; first + count <= 96);
        run_part(rt, alloc, crew, gate, first, count)?;
        same(workers, crew.taken(), taken).expect(rt, "not the same");
    }
    Ok(())
}

// Runs all pages of a case.
fn run_all<K: CaseLedger + Send + Sync, R: Threads + Wait + Sync + Abort, G: Gate>(
    rt: &R,
    alloc: Global,
    case: &Case,
    run: &Golden,
    list: &JobList,
    workers: u32,
    gate: &G,
    blank: Blank,
) -> Result<(), Fail>
    requires golden { IsGolden case.now run.now }
    requires table { list.now ≡ jobs_of (log case.now) }
    requires list { list.now.list ≡ jobs_in case.now }
    requires ledger { case.now ≡ K.case }
    requires workers { (0 < workers) × (workers ≤ 64) }
    requires blank { (blank.name ≡ K.name) × (blank.parts ≡ K.parts) × (blank.parts ≡ workers) }
{
    assert!(rt; list.len() == 96);
    let snaps = Snaps::take(alloc, case, run.count(), 256)?;
    let of = CaseJobs {
        case,
        golden: run,
        list,
    };
    let mut crew = Crew::<K>::new(alloc, of, snaps, 40, workers, blank)?;
    run_pages(rt, alloc, &mut crew, workers, gate)
}

// Runs all pages with this number of workers.
fn by_workers<R: Threads + Wait + Sync + Abort, G: Gate>(
    rt: &R,
    alloc: Global,
    workers: u32,
    gate: &G,
) -> Result<(), Fail> {
    let case = case_of(alloc, &SENDS, 100).expect(rt, "a case");
    let run = golden(alloc, &case).expect(rt, "a golden run");
    let list = jobs_of_case(alloc, &case, &run).expect(rt, "memory");
    assert!(rt; workers > 0);
    assert!(rt; workers <= 64);
    let blank = Blank::new(workers as u64);
    let ran = run_all::<Brand, _, _>(rt, alloc, &case, &run, &list, workers, gate, blank);
    drop(list);
    drop(run);
    drop(case);
    ran
}

// The gate holds the first claim until another worker has claimed.
#[test]
fn pages_by_workers(rt: HostRuntime) -> Result<(), Fail> {
    for workers in [1, 2, 64] {
        by_workers(&rt, rt.alloc(), workers, &FreeGate)?;
    }
    let gate = HoldGate::new();
    by_workers(&rt, rt.alloc(), 2, &gate)?;
    assert!(rt; gate.saw());
    Ok(())
}
