//! Counts in windows of a program whose jobs' outcomes were worked out by hand.

ghost use Rattle.std.specs.Prelude.{◌≡◌};
ghost use Rattle.fs_model.specs.AccessLog.{log};
ghost use Rattle.fs_model.specs.Job.{jobs_of};
ghost use Rattle.golden_trace.specs.Goldens.{IsGolden};

use crate::totals::numbers;
use def_use::{Board, JobList};
use fs_model::Case;
use golden_trace::{Golden, golden};
use std::process::Abort;
use test_asserts::same;
use test_cases::{jobs_of_case, outcome_of_loads};
use test_programs::{LOADS, case_of};
use window_counts::{Window, counts_in, sites_in};

/// The counts in a window, or the first due job without an outcome.
type Counts = Result<[u64; 7], u32>;

// Returns the counts in a window, if the window and the board have the right lengths.
fn counted(
    case: &Case,
    run: &Golden,
    list: &JobList,
    board: &Board,
    window: &Window,
) -> Option<(u64, Counts)>
    requires golden { IsGolden case.now run.now }
    requires list { list.now ≡ jobs_of (log case.now) }
{
    if board.len() != list.len() || window.cycles() != run.count() {
        return None;
    }
    let sites = sites_in(case, window);
    match counts_in(case, list, board, window) {
        Ok(totals) => Some((sites, Ok(numbers(&totals)))),
        Err(why) => Some((sites, Err(why.first))),
    }
}

fn fill(rt: &impl Abort, list: &JobList, board: &mut Board, from: u32, to: u32) {
    for number in from..to {
        assert!(rt; number < list.len());
        assert!(rt; number < board.len());
        board.put(number, outcome_of_loads(list.get(number)));
    }
}

// The first and the last cycle of a window, its sites and its counts. The byte of RAM is read at cycle 1 by a job
// of weight 2, and x2 at cycle 3 by jobs of weight 2: a window with one of the two cycles has half of their sites.
static WINDOWS: [(u32, u32, u64, [u64; 7]); 9] = [
    (0, 0, 1120, [1112, 8, 0, 0, 0, 0, 0]),
    (1, 1, 1120, [1080, 12, 0, 0, 28, 0, 0]),
    (2, 2, 1120, [1112, 8, 0, 0, 0, 0, 0]),
    (3, 3, 1120, [1080, 9, 1, 0, 30, 0, 0]),
    (4, 4, 1120, [1088, 0, 0, 0, 30, 2, 0]),
    (1, 2, 2240, [2192, 20, 0, 0, 28, 0, 0]),
    (0, 4, 5600, [5472, 37, 1, 0, 88, 2, 0]),
    (3, 9, 2240, [2168, 9, 1, 0, 60, 2, 0]),
    (2, 1, 0, [0, 0, 0, 0, 0, 0, 0]),
];

// The first due job of the window of one cycle, on a board without outcomes, and the number of its due jobs. The
// jobs are those of x3 and the byte at cycle 1, of x1 and x2 at cycle 3, and of x1 at cycle 4.
static DUE: [(u32, u32, u32); 5] = [
    (0, 32, 8),
    (1, 0, 40),
    (2, 72, 32),
    (3, 40, 64),
    (4, 104, 32),
];

#[test]
fn windows(rt: HostRuntime) {
    let alloc = rt.alloc();
    let case = case_of(alloc, &LOADS, 100).expect(&rt, "a case");
    let run = golden(alloc, &case).expect(&rt, "a golden run");
    let list = jobs_of_case(alloc, &case, &run).expect(&rt, "memory");
    let mut board = Board::new(alloc, list.len()).expect(&rt, "memory");
    has_due(&rt, &case, &run, &list, &mut board);
    fill(&rt, &list, &mut board, 0, 136);
    has_counts(&rt, &case, &run, &list, &board);
    has_other_windows(&rt, &case, &run, &list, &board);
    drop(board);
    drop(list);
    drop(run);
    drop(case);
}

// Tests which jobs are due, and that no other jobs need an outcome.
fn has_due<R: Abort + AllocGlobal>(
    rt: &R,
    case: &Case,
    run: &Golden,
    list: &JobList,
    board: &mut Board,
)
    requires golden { IsGolden case.now run.now }
    requires list { list.now ≡ jobs_of (log case.now) }
{
    for (cycle, first, count) in DUE.as_slice() {
        let window = Window::of_cycles(rt.alloc(), run.count(), *cycle, *cycle).expect(
            rt, "memory",
        );
        let found = counted(case, run, list, board, &window);
        same(("blank", *cycle), found, Some((1120, Err(*first)))).expect(rt, "not the same");
        same(("due", *cycle), due(list, &window), *count).expect(rt, "not the same");
        drop(window);
    }
    fill(rt, list, board, 72, 104);
    let window = Window::of_cycles(rt.alloc(), run.count(), 2, 2).expect(rt, "memory");
    let found = counted(case, run, list, board, &window);
    let wanted = Some((1120, Ok([1112, 8, 0, 0, 0, 0, 0])));
    same("x2", found, wanted).expect(rt, "not the same");
    drop(window);
}

// Returns the number of due jobs.
fn due(list: &JobList, window: &Window) -> u32 {
    let mut count = 0;
    for number in 0..list.len() {
        if window.is_due(&list.get(number)) {
            count += 1;
        }
    }
    count
}

fn has_counts<R: Abort + AllocGlobal>(
    rt: &R,
    case: &Case,
    run: &Golden,
    list: &JobList,
    board: &Board,
)
    requires golden { IsGolden case.now run.now }
    requires list { list.now ≡ jobs_of (log case.now) }
{
    for (first, last, sites, wanted) in WINDOWS.as_slice() {
        let window = Window::of_cycles(rt.alloc(), run.count(), *first, *last).expect(rt, "memory");
        let found = counted(case, run, list, board, &window);
        same((*first, *last), found, Some((*sites, Ok(*wanted)))).expect(rt, "not the same");
        drop(window);
    }
}

// The same by flags and by addresses.
fn has_other_windows<R: Abort + AllocGlobal>(
    rt: &R,
    case: &Case,
    run: &Golden,
    list: &JobList,
    board: &Board,
)
    requires golden { IsGolden case.now run.now }
    requires list { list.now ≡ jobs_of (log case.now) }
{
    let window = Window::new(rt.alloc(), &[true, false, false, true, false]).expect(rt, "memory");
    let found = counted(case, run, list, board, &window);
    let wanted = Some((2240, Ok([2192, 17, 1, 0, 30, 0, 0])));
    same("cycles 0 and 3", found, wanted).expect(rt, "not the same");
    let inside = (
        window.len(),
        window.inside(1, 3),
        window.has(0),
        window.has(5),
    );
    same("inside", inside, (2, 1, true, false)).expect(rt, "not the same");
    drop(window);
    assert!(rt; run.pcs().len() < 100);
    let window = Window::of_addresses(rt.alloc(), run.pcs(), 0x2000_0004, 0x2000_0008);
    let window = window.expect(rt, "memory");
    let found = counted(case, run, list, board, &window);
    let wanted = Some((2240, Ok([2192, 20, 0, 0, 28, 0, 0])));
    same("the second and the third address", found, wanted).expect(rt, "not the same");
    drop(window);
}
