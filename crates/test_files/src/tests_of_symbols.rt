//! Counts by function and object for the program that sends a byte of RAM, whose jobs' outcomes were worked out by
//! hand.

ghost use Rattle.std.specs.Prelude.{◌≡◌, length};
ghost use Rattle.def_use.specs.Board.{HasOutcomeBelow};
ghost use Rattle.fs_model.specs.AccessLog.{log};
ghost use Rattle.fs_model.specs.Job.{jobs_of};
ghost use Rattle.golden_trace.specs.Goldens.{IsGolden};

use super::tests_of_elf_symbols::{changed, with_symbols};
use def_use::{Board, JobList};
use elf_symbols::{Symbol, symbols};
use fault_space::totals_of;
use fs_model::Case;
use fs_outside::{MemSink, Sink, SureSink};
use golden_trace::{Golden, golden};
use report::{ReportRefusal, write_symbols};
use std::alloc::Global;
use std::process::Abort;
use test_asserts::same;
use test_cases::{jobs_of_case, outcome_of_loads};
use test_programs::{LOADS, case_of};

fn fill(rt: &impl Abort, list: &JobList, board: &mut Board) {
    for number in 0..list.len() {
        assert!(rt; number < board.len());
        board.put(number, outcome_of_loads(list.get(number)));
    }
}

fn written<O: Sink>(
    alloc: Global,
    out: &mut O,
    case: &Case,
    run: &Golden,
    list: &JobList,
    board: &Board,
    symbols: &[Symbol<'_>],
) -> Result<(), ReportRefusal>
    requires golden { IsGolden case.now run.now }
    requires list { list.now ≡ jobs_of (log case.now) }
    requires same { length board.now ≡ length list.now.list }
    requires whole { HasOutcomeBelow board.now (length board.now) }
{
    write_symbols(alloc, out, case, run.pcs(), list, board, symbols)
}

// The place of a change in the image, the new bytes, and the text.
static TEXTS: [(usize, &[u8], &str); 4] = [
    (
        0,
        &[],
        "function main 0 20 0 0 28 0 0\nfunction emit 48 17 1 0 60 2 0\nfunction (none) 0 0 0 0 0 0 0\n\
        function (dead) 5424 0 0 0 0 0 0\nobject buf 24 16 0 0 0 0 0\nobject (none) 600 0 0 0 0 0 0\n\
        object (registers) 4848 21 1 0 88 2 0\n",
    ),
    // A name with a space, a byte that is not ASCII, and the last two visible characters.
    (
        202,
        &[0x20, 0xe9, 0x7e, 0x21],
        "function ??~! 0 20 0 0 28 0 0\nfunction emit 48 17 1 0 60 2 0\nfunction (none) 0 0 0 0 0 0 0\n\
        function (dead) 5424 0 0 0 0 0 0\nobject buf 24 16 0 0 0 0 0\nobject (none) 600 0 0 0 0 0 0\n\
        object (registers) 4848 21 1 0 88 2 0\n",
    ),
    // `main` has only the first instruction, and the next two belong to no function.
    (
        161,
        &[4],
        "function main 0 0 0 0 0 0 0\nfunction emit 48 17 1 0 60 2 0\nfunction (none) 0 20 0 0 28 0 0\n\
        function (dead) 5424 0 0 0 0 0 0\nobject buf 24 16 0 0 0 0 0\nobject (none) 600 0 0 0 0 0 0\n\
        object (registers) 4848 21 1 0 88 2 0\n",
    ),
    // An image without section headers has no symbols.
    (
        48,
        &[0],
        "function (none) 48 37 1 0 88 2 0\nfunction (dead) 5424 0 0 0 0 0 0\nobject (none) 624 16 0 0 0 0 0\nobject (registers) 4848 21 1 0 88 2 0\n",
    ),
];

// Tests the text for an image.
fn gives<R: Abort + AllocGlobal>(
    rt: &R,
    case: &Case,
    run: &Golden,
    list: &JobList,
    board: &Board,
    image: &[u8; 336],
    want: &str,
)
    requires golden { IsGolden case.now run.now }
    requires list { list.now ≡ jobs_of (log case.now) }
    requires same { length board.now ≡ length list.now.list }
    requires whole { HasOutcomeBelow board.now (length board.now) }
{
    let found = symbols(rt.alloc(), image).expect(rt, "symbols");
    let mut out = SureSink::new(rt.alloc());
    let answer = written(rt.alloc(), &mut out, case, run, list, board, &found);
    same(want, (answer, out.bytes()), (Ok(()), want.as_bytes())).expect(rt, "not the same");
}

// The sink's second write fails, after the first word.
fn fails<R: Abort + AllocGlobal>(
    rt: &R,
    case: &Case,
    run: &Golden,
    list: &JobList,
    board: &Board,
    image: &[u8; 336],
)
    requires golden { IsGolden case.now run.now }
    requires list { list.now ≡ jobs_of (log case.now) }
    requires same { length board.now ≡ length list.now.list }
    requires whole { HasOutcomeBelow board.now (length board.now) }
{
    let found = symbols(rt.alloc(), image).expect(rt, "symbols");
    let mut out = MemSink::new(rt.alloc(), vec![in rt.alloc(); 2].expect(rt, "memory"));
    let answer = written(rt.alloc(), &mut out, case, run, list, board, &found);
    let wanted = (Err(ReportRefusal::Failed), b"function".as_slice());
    same("failed", (answer, out.bytes()), wanted).expect(rt, "not the same");
}

#[test]
fn functions_and_objects(rt: HostRuntime) {
    let case = case_of(rt.alloc(), &LOADS, 100).expect(&rt, "a case");
    let run = golden(rt.alloc(), &case).expect(&rt, "a golden run");
    let list = jobs_of_case(rt.alloc(), &case, &run).expect(&rt, "memory");
    let mut board = Board::new(rt.alloc(), list.len()).expect(&rt, "memory");
    fill(&rt, &list, &mut board);
    assert!(rt; board.len() == list.len());
    let _ = totals_of(&list, &board).expect(&rt, "all outcomes");
    let plain = with_symbols(&rt);
    for (at, bytes, want) in TEXTS {
        let image = changed(&rt, &plain, at, bytes);
        gives(&rt, &case, &run, &list, &board, &image, want);
    }
    fails(&rt, &case, &run, &list, &board, &plain);
    drop(board);
    drop(list);
    drop(run);
    drop(case);
}
