//! From programs to totals, by contracts only, with numbers that were worked out without the code.
ghost use Rattle.std.specs.Prelude.{◌≡◌, ◌+◌, ◌≤◌, ◌&&◌, false, length, pos, IfOk, IfSome};
ghost use Rattle.fs_model.specs.declared.outcomes.Outcome.{Outcome};
ghost use Rattle.fs_model.specs.AccessLog.{log};
ghost use Rattle.fs_model.specs.Job.{jobs_in, jobs_of, job_list, HasOutcomes};
ghost use Rattle.fs_model.specs.Outcome.{total_at, count, outcome};
ghost use Rattle.fs_model.specs.Site.{sites_of};
ghost use Rattle.golden_trace.specs.Goldens.{IsGolden};

use access_log::Log;
use def_use::{Board, JobList, Put, Read};
use fault_space::laws::{bounds, whole};
use fault_space::{space_size, totals_of};
use fs_model::{Case, Job, NoMemory, Outcome, Totals};
use golden_trace::{Golden, golden};
use std::alloc::Global;
use std::process::Abort;
use std::test::Fail;
use test_asserts::same;
use test_cases::jobs_of_case;
use test_programs::{
    COUNTS_DOWN, HALTS, LOADS, RAM, ROM, SENDS, STORES, case_in, case_of, code, small_map,
};

// Returns the number of live and dead sites of a case together.
fn weight_of_case(alloc: Global, case: &Case, run: &Golden) -> Result<u64, NoMemory>
    requires { IsGolden case.now run.now }
    ensures { IfOk result (λ weight. weight ≡ length (sites_of case.now)) }
{
    whole();
    let list = jobs_of_case(alloc, case, run)?;
    let dead = list.dead_weight();
    Ok(list.live_weight() + dead)
}

// Returns the number of jobs of a case, which fits 31 bits unless both flags are set.
fn number_of_jobs(case: &Case, list: &JobList) -> i32
    requires list { list.now.list ≡ jobs_in case.now }
    requires flags { (case.now.pc_cell && case.now.ram_code) ≡ false }
    ensures { result ≡ pos (length (jobs_in case.now)) }
{
    bounds();
    case.facts();
    list.len() as i32
}

// Returns the totals of a case, from a board with the outcomes of its jobs.
fn totals_of_case(case: &Case, list: &JobList, board: &Board) -> Option<Totals>
    requires list { list.now ≡ jobs_of (log case.now) }
    requires board { HasOutcomes (outcome case.now) list.now.list board.now }
    ensures { IfSome result (λ totals. (o : Outcome) → total_at totals o ≡ count case.now o) }
{
    if board.len() != list.len() {
        return None;
    }
    totals_of(list, board).ok()
}

/// The numbers of the instructions, sites, jobs, live sites and dead sites of a case.
type Numbers = (u32, u64, u32, u64, u64);

// Returns the numbers of a case.
fn numbers_of<R: Abort + AllocGlobal>(rt: &R, case: &Case) -> Numbers {
    let run = golden(rt.alloc(), case).expect(rt, "a golden run");
    let list = jobs_of_case(rt.alloc(), case, &run).expect(rt, "memory");
    let size = space_size(run.count(), &case.map(), case.pc_cell());
    let (live, dead) = (list.live_weight(), list.dead_weight());
    let numbers = (run.count(), size, list.len(), live, dead);
    drop(list);
    drop(run);
    numbers
}

// Returns the numbers of a program.
fn numbers_of_words<R: Abort + AllocGlobal>(rt: &R, words: &[u32], limit: u32) -> Numbers {
    let case = case_of(rt.alloc(), words, limit).expect(rt, "a case");
    let numbers = numbers_of(rt, &case);
    drop(case);
    numbers
}

// A program, its limit, and these numbers.
static NUMBERS: [(&[u32], u32, Numbers); 6] = [
    (&HALTS, 100, (2, 2240, 32, 32, 2208)),
    (&SENDS, 100, (4, 4480, 96, 128, 4352)),
    (&COUNTS_DOWN, 71, (7, 7840, 160, 160, 7680)),
    (&COUNTS_DOWN, 7, (7, 7840, 160, 160, 7680)),
    (&LOADS, 100, (5, 5600, 136, 176, 5424)),
    (&STORES, 100, (8, 8960, 288, 376, 8584)),
];

#[test]
fn numbers(rt: HostRuntime) {
    for (words, limit, numbers) in NUMBERS.as_slice() {
        let found = numbers_of_words(&rt, words, *limit);
        same((*words, *limit), found, *numbers).expect(&rt, "not the same");
    }
    the_pc_a_cell(&rt);
}

fn the_pc_a_cell<R: Abort + AllocGlobal>(rt: &R) {
    let case = case_of(rt.alloc(), &HALTS, 100)
        .expect(rt, "a case")
        .with_pc();
    let numbers = (2, 2304, 96, 96, 2208);
    same("the pc a cell", numbers_of(rt, &case), numbers).expect(rt, "not the same");
    let run = golden(rt.alloc(), &case).expect(rt, "a golden run");
    let weight = weight_of_case(rt.alloc(), &case, &run);
    same("all sites", weight, Ok(2304)).expect(rt, "not the same");
    drop(run);
    drop(case);
}

// A cell and a cycle of the program that counts down, and the next touch.
static NEXT: [(u32, u32, Option<(u32, bool)>); 9] = [
    (2, 0, Some((0, false))),
    // The instruction at cycle 1 reads x2 and writes it.
    (2, 1, Some((1, true))),
    (2, 3, Some((3, true))),
    (2, 5, None),
    (1, 0, Some((5, false))),
    (1, 6, Some((6, true))),
    // A cell that is never touched; no cell; a cycle after the end.
    (3, 0, None),
    (48, 0, None),
    (1, 7, None),
];

#[test]
fn next_touches(rt: HostRuntime) {
    let alloc = rt.alloc();
    let case = case_of(alloc, &COUNTS_DOWN, 100).expect(&rt, "a case");
    let run = golden(alloc, &case).expect(&rt, "a golden run");
    let log = Log::from_touches(alloc, run.touches(), &case.map(), case.pc_cell());
    let log = log.expect(&rt, "memory");
    has_touches(&rt, &log);
    drop(log);
    drop(run);
    drop(case);
}

fn has_touches(rt: &impl Abort, log: &Log<'_>) {
    for (cell, from, next) in NEXT.as_slice() {
        same((*cell, *from), log.next_touch(*cell, *from), *next).expect(rt, "not the same");
    }
    let found = (log.ram(), log.pc(), log.touches().len());
    same("the log", found, (16, false, 7)).expect(rt, "not the same");
}

// Returns the jobs of a program.
fn listed<R: Abort + AllocGlobal>(rt: &R, words: &[u32]) -> JobList {
    let case = case_of(rt.alloc(), words, 100).expect(rt, "a case");
    let run = golden(rt.alloc(), &case).expect(rt, "a golden run");
    let list = jobs_of_case(rt.alloc(), &case, &run).expect(rt, "memory");
    drop(run);
    drop(case);
    list
}

// The reads of the bytes 0 and 1 of RAM at cycle 4: byte 1 was stored again at cycle 3.
const READS: [Read; 2] = [
    Read {
        cycle: 4,
        cell: 32,
        weight: 2,
    },
    Read {
        cycle: 4,
        cell: 33,
        weight: 1,
    },
];

#[test]
fn jobs_by_number_and_name(rt: HostRuntime) {
    let list = listed(&rt, &STORES);
    finds_each(&rt, &list);
    has_reads(&rt, &list);
    drop(list);
}

fn finds_each(rt: &impl Abort, list: &JobList) {
    for number in 0..list.len() {
        let job = list.get(number);
        let found = list.find(job.cycle, job.cell, job.bit);
        same(number, found, Some(number)).expect(rt, "not the same");
    }
}

fn has_reads(rt: &impl Abort, list: &JobList) {
    for read in READS {
        assert!(rt; list.reads().iter().any(|r| *r == read), "{read:?}");
    }
    for (cycle, cell, bit) in [(4, 32, 8), (3, 33, 0), (8, 1, 0)] {
        same((cycle, cell, bit), list.find(cycle, cell, bit), None).expect(rt, "not the same");
    }
}

// Returns the outcome of a job of the program that sends a byte, by hand. At cycle 2, x1 with bit 2 flipped is the
// address of the port that detects, and with bit 3 flipped that of the port that halts; with another bit flipped,
// no device has the address. At cycle 3 a word is stored.
fn outcome_of(job: Job) -> Outcome {
    match (job.cycle, job.cell, job.bit) {
        (2, 1, 2) => Outcome::Detected,
        (2, 1, 3) => Outcome::Silent,
        (2, 2, 0..=7) => Outcome::Silent,
        (2, 2, _) => Outcome::NoEffect,
        (3, 1, 0..=1) => Outcome::Misaligned,
        _ => Outcome::Address,
    }
}

fn fill(rt: &impl Abort, list: &JobList, board: &mut Board) {
    for number in 0..list.len() {
        assert!(rt; number < board.len());
        same(number, board.next_missing(0), Some(number)).expect(rt, "not the same");
        let put = board.put(number, outcome_of(list.get(number)));
        assert!(rt; put == Put::New);
    }
}

// Tests what a full board has, and what happens if an outcome is put on it again.
fn is_full(rt: &impl Abort, board: &mut Board) {
    same(
        "a full board",
        (board.kept(), board.next_missing(0)),
        (96, None),
    )
    .expect(rt, "not the same");
    assert!(rt; board.len() == 96);
    assert!(rt; board.put(2, Outcome::Detected) == Put::Same);
    assert!(rt; board.put(2, Outcome::Address) == Put::Other(Outcome::Detected));
    same("job 2", board.get(2), Some(Outcome::Detected)).expect(rt, "not the same");
}

static TOTALS: [(Outcome, u64); 7] = [
    (Outcome::NoEffect, 4376),
    (Outcome::Silent, 10),
    (Outcome::Detected, 2),
    (Outcome::Illegal, 0),
    (Outcome::Address, 90),
    (Outcome::Misaligned, 2),
    (Outcome::Timeout, 0),
];

#[test]
fn totals(rt: HostRuntime) {
    let list = listed(&rt, &SENDS);
    let mut board = Board::new(rt.alloc(), list.len()).expect(&rt, "memory");
    has_totals(&rt, &list, &mut board);
    drop(board);
    drop(list);
}

fn has_totals(rt: &impl Abort, list: &JobList, board: &mut Board) {
    assert!(rt; board.len() == list.len());
    let unfinished = totals_of(list, board).err().map(|why| why.first);
    same("an empty board", unfinished, Some(0)).expect(rt, "not the same");
    fill(rt, list, board);
    is_full(rt, board);
    assert!(rt; board.len() == list.len());
    assert!(rt; list.len() == 96);
    let totals = totals_of(list, board).expect(rt, "all outcomes");
    for (outcome, total) in TOTALS {
        same(outcome, totals.get(outcome), total).expect(rt, "not the same");
    }
}

// `lw x4,0(x3)` and `sw x2,0(x3)`: no instruction touches more cells or makes more jobs.
const LOAD: u32 = 0x0001_a203;

const STORE: u32 = 0x0021_a023;

// Returns the case of `lui x3,0x80000`, this word, `lui x1,0xF0000; sw x0,8(x1)`. The program is at the start of
// ROM and of RAM, and the entry is in one of them.
fn case_with(alloc: Global, word: u32, pc: bool, in_ram: bool) -> Result<Case, Fail> {
    let words = [0x8000_01b7, word, 0xf000_00b7, 0x0000_a423];
    let entry = if in_ram { RAM } else { ROM };
    let mut case = case_in(alloc, &small_map()?, entry, &words, 100)?;
    let code = code(alloc, &words)?;
    if case.covers(RAM, code.len()) {
        case.fill(RAM, code.as_slice());
    }
    if pc {
        case = case.with_pc();
    }
    if in_ram {
        case = case.with_ram_code();
    }
    Ok(case)
}

// Returns how many cells the instruction at cycle 1 touches, and how many of 32 bits and of 8 bits it reads.
fn touched(alloc: Global, case: &Case) -> Result<(u32, usize, usize), Fail> {
    let run = golden(alloc, case)?;
    let list = jobs_of_case(alloc, case, &run)?;
    let cells = match run.touches().get(1) {
        Some(touches) => touches.len(),
        None => 0,
    };
    let reads = list.reads();
    let words = reads
        .iter()
        .filter(|read| read.cycle == 1 && read.cell < 32);
    let bytes = reads
        .iter()
        .filter(|read| read.cycle == 1 && read.cell >= 32);
    Ok((cells, words.count(), bytes.count()))
}

// The word, whether the pc is a cell, and whether the entry is in RAM.
static MOST: [(u32, bool, bool, (u32, usize, usize)); 8] = [
    // 64 jobs
    (LOAD, false, false, (6, 1, 4)),
    (STORE, false, false, (6, 2, 0)),
    // 96
    (LOAD, true, false, (7, 2, 4)),
    (STORE, true, false, (7, 3, 0)),
    (LOAD, false, true, (10, 1, 8)),
    (STORE, false, true, (10, 2, 4)),
    // 128
    (LOAD, true, true, (11, 2, 8)),
    (STORE, true, true, (11, 3, 4)),
];

#[test]
fn bounds_are_reached(rt: HostRuntime) -> Result<(), Fail> {
    for (word, pc, in_ram, wanted) in MOST.as_slice() {
        let case = case_with(rt.alloc(), *word, *pc, *in_ram)?;
        let found = touched(rt.alloc(), &case)?;
        same((*word, *pc, *in_ram), found, *wanted).expect(&rt, "not the same");
    }
    let case = case_with(rt.alloc(), LOAD, false, false)?;
    has_all_jobs(&rt, &case);
    Ok(())
}

fn has_all_jobs<R: Abort + AllocGlobal>(rt: &R, case: &Case) {
    assert!(rt; !(case.pc_cell() && case.ram_code()));
    let run = golden(rt.alloc(), case).expect(rt, "a golden run");
    let list = jobs_of_case(rt.alloc(), case, &run).expect(rt, "memory");
    same("all jobs", number_of_jobs(case, &list), 96).expect(rt, "not the same");
    drop(list);
    drop(run);
}
