//! Counts by line for the sites of a program whose jobs' outcomes were worked out by hand.

ghost use Rattle.std.specs.Prelude.{◌≡◌, ℕ, ◌<◌, ◌==◌, true, length};
ghost use Rattle.access_log.specs.LogData.{log_in};
ghost use Rattle.def_use.specs.Board.{HasOutcomeBelow};
ghost use Rattle.fs_model.specs.Job.{jobs_of};
ghost use Rattle.fs_model.specs.Outcome.{sum_of};
ghost use Rattle.site_counts.specs.Counts.{weight_where};
ghost use Rattle.site_counts.specs.Lines.{line_in, totals_at};

use access_log::Log;
use def_use::{Board, JobList, jobs};
use fault_space::totals_of;
use fs_model::{Outcome, Totals};
use golden_trace::golden;
use site_counts::{Table, add_dead, bits_by, counts_by};
use std::process::Abort;
use test_asserts::same;
use test_cases::outcome_of_loads;
use test_programs::{LOADS, case_of};

fn fill(rt: &impl Abort, list: &JobList, board: &mut Board) {
    for number in 0..list.len() {
        assert!(rt; number < board.len());
        board.put(number, outcome_of_loads(list.get(number)));
    }
}

// Returns the totals of three lines for a full board.
fn counted(list: &JobList, board: &Board, table: &Table) -> [Totals; 3]
    requires same { length board.now ≡ length list.now.list }
    requires whole { HasOutcomeBelow board.now (length board.now) }
    requires last { table.now.last ≡ 2 }
    ensures sum { (k : ℕ) → k < 3 → sum_of (totals_at result k) ≡ weight_where (λ site. line_in table.now site.cycle site.cell == k) list.now.list }
{
    table.facts();
    let mut totals = [Totals::zero(), Totals::zero(), Totals::zero()];
    counts_by(list, board, table, &mut totals);
    totals
}

// Returns the totals of three lines of cells, with their dead sites.
fn counted_by_cell(log: &Log, list: &JobList, board: &Board, table: &Table) -> [Totals; 3]
    requires list { list.now ≡ jobs_of (log_in log.now) }
    requires same { length board.now ≡ length list.now.list }
    requires whole { HasOutcomeBelow board.now (length board.now) }
    requires last { table.now.last ≡ 2 }
    requires by_cell { table.now.by_cell ≡ true }
{
    let cycles = log.touches().len() as u32;
    let mut bits = [0; 3];
    let mut totals = counted(list, board, table);
    table.facts();
    bits_by(log.ram(), log.pc(), table, &mut bits);
    add_dead(cycles, &bits, &mut totals);
    totals
}

// Returns the totals of a line, in the order of a report.
fn numbers(totals: &Totals) -> [u64; 7] {
    [
        totals.get(Outcome::NoEffect),
        totals.get(Outcome::Silent),
        totals.get(Outcome::Detected),
        totals.get(Outcome::Illegal),
        totals.get(Outcome::Address),
        totals.get(Outcome::Misaligned),
        totals.get(Outcome::Timeout),
    ]
}

// By function: one has the first three instructions, another the last two, and no instruction is outside both.
static FUNCTIONS: [[u64; 7]; 3] = [
    [0, 20, 0, 0, 28, 0, 0],
    [48, 17, 1, 0, 60, 2, 0],
    [0, 0, 0, 0, 0, 0, 0],
];

// By object: one is the first byte of RAM, 15 bytes belong to no object, and the registers have a line of their
// own.
static OBJECTS: [[u64; 7]; 3] = [
    [24, 16, 0, 0, 0, 0, 0],
    [4848, 21, 1, 0, 88, 2, 0],
    [600, 0, 0, 0, 0, 0, 0],
];

// The lines of the cells: the pc, which is not a cell here, 31 registers, and the first byte of RAM.
const LINES: [u32; 33] = [
    1, 1, 1, 1, 1, 1, 1, 1, 1, 1, 1, 1, 1, 1, 1, 1, 1, 1, 1, 1, 1, 1, 1, 1, 1, 1, 1, 1, 1, 1, 1, 1,
    0,
];

fn are_lines(rt: &impl Abort, what: &str, totals: &[Totals; 3], wanted: &[[u64; 7]; 3]) {
    for line in 0..3 {
        same((what, line), numbers(&totals[line]), wanted[line]).expect(rt, "not the same");
    }
}

#[test]
fn lines(rt: HostRuntime) {
    let alloc = rt.alloc();
    let case = case_of(alloc, &LOADS, 100).expect(&rt, "a case");
    let run = golden(alloc, &case).expect(&rt, "a golden run");
    let log = Log::without_index(run.touches(), &case.map(), case.pc_cell());
    let list = jobs(alloc, &log, run.count()).expect(&rt, "memory");
    let mut board = Board::new(alloc, list.len()).expect(&rt, "memory");
    fill(&rt, &list, &mut board);
    has_lines(&rt, &log, &list, &board);
    drop(board);
    drop(list);
    drop(log);
    drop(run);
    drop(case);
}

// Tests the lines of a board that has all outcomes.
fn has_lines(rt: &impl Abort, log: &Log, list: &JobList, board: &Board)
    requires { list.now ≡ jobs_of (log_in log.now) }
{
    assert!(rt; board.len() == list.len());
    let _ = totals_of(list, board).expect(rt, "all outcomes");
    let functions = Table {
        lines: &[0, 0, 0, 1, 1],
        last: 2,
        by_cell: false,
    };
    let found = counted(list, board, &functions);
    are_lines(rt, "functions", &found, &FUNCTIONS);
    same("dead sites", list.dead_weight(), 5424).expect(rt, "not the same");
    let objects = Table {
        lines: &LINES,
        last: 2,
        by_cell: true,
    };
    let found = counted_by_cell(log, list, board, &objects);
    are_lines(rt, "objects", &found, &OBJECTS);
}
