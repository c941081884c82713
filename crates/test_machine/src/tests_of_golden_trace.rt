//! Golden runs whose ends were worked out by hand.

use fs_model::{Case, Touch, Touches};
use golden_trace::{Golden, GoldenFault, GoldenRefusal, golden};
use std::alloc::Global;
use std::process::Abort;
use test_asserts::same;
use test_programs::{COUNTS_DOWN, DETECTS, HALTS, ROM, SENDS, STORES_A_WORD, case_in, small_map};

// The expected values of a golden run: the halt's value, the output, the address of each instruction, and the
// number of cells that each touches. Then the cells that one of its instructions touches, and whether it reads
// them.
struct Good {
    words: &'static [u32],
    exit: u32,
    output: &'static [u8],
    pcs: &'static [u32],
    touched: &'static [u32],
    cycle: usize,
    cells: &'static [(u32, bool)],
}

static GOOD: [Good; 4] = [
    Good {
        words: &HALTS,
        exit: 0,
        output: &[],
        pcs: &[0x2000_0000, 0x2000_0004],
        touched: &[1, 1],
        cycle: 0,
        cells: &[(1, false)],
    },
    Good {
        words: &SENDS,
        exit: 0,
        output: &[65],
        pcs: &[0x2000_0000, 0x2000_0004, 0x2000_0008, 0x2000_000c],
        touched: &[1, 1, 2, 1],
        cycle: 2,
        cells: &[(1, true), (2, true)],
    },
    // It reads x2 and writes it.
    Good {
        words: &COUNTS_DOWN,
        exit: 0,
        output: &[],
        pcs: &[
            0x2000_0000,
            0x2000_0004,
            0x2000_0008,
            0x2000_0004,
            0x2000_0008,
            0x2000_000c,
            0x2000_0010,
        ],
        touched: &[1, 1, 1, 1, 1, 1, 1],
        cycle: 3,
        cells: &[(2, true)],
    },
    // The four bytes of RAM are only written.
    Good {
        words: &STORES_A_WORD,
        exit: 65,
        output: &[],
        pcs: &[
            0x2000_0000,
            0x2000_0004,
            0x2000_0008,
            0x2000_000c,
            0x2000_0010,
        ],
        touched: &[1, 1, 6, 1, 2],
        cycle: 2,
        cells: &[
            (2, true),
            (3, true),
            (32, false),
            (33, false),
            (34, false),
            (35, false),
        ],
    },
];

// A program, its entry and limit, and the fault of its golden run.
static REFUSED: [(&[u32], u32, u32, GoldenFault); 4] = [
    (&HALTS, 0, 100, GoldenFault::GoldenTrap(0)),
    (&DETECTS, ROM, 100, GoldenFault::GoldenDetected(1)),
    (&COUNTS_DOWN, ROM, 6, GoldenFault::GoldenLong(6)),
    (&HALTS, ROM, 1, GoldenFault::GoldenLong(1)),
];

fn case_of(rt: &impl Abort, alloc: Global, words: &[u32], entry: u32, limit: u32) -> Case {
    let map = small_map().expect(rt, "a map");
    case_in(alloc, &map, entry, words, limit).expect(rt, "a case")
}

fn has_counts(rt: &impl Abort, touches: &[Touches], wanted: &Good) {
    same(wanted.words, touches.len(), wanted.touched.len()).expect(rt, "not the same");
    for (list, count) in touches.iter().zip(wanted.touched) {
        same(wanted.words, list.len(), *count).expect(rt, "not the same");
    }
}

fn has_cells(rt: &impl Abort, list: &[Touch], wanted: &Good) {
    same(wanted.words, list.len(), wanted.cells.len()).expect(rt, "not the same");
    for (touch, (cell, reads)) in list.iter().zip(wanted.cells) {
        same(wanted.words, (touch.cell, touch.reads), (*cell, *reads)).expect(rt, "not the same");
    }
}

fn has_touches(rt: &impl Abort, touches: &[Touches], wanted: &Good) {
    has_counts(rt, touches, wanted);
    assert!(rt; wanted.cycle < touches.len());
    let list = touches[wanted.cycle].list();
    has_cells(rt, list.as_slice(), wanted);
    drop(list);
}

fn has_end(rt: &impl Abort, run: &Golden, wanted: &Good) {
    let found = (run.exit(), run.output(), run.count() as usize);
    let (exit, output, count) = (wanted.exit, wanted.output, wanted.touched.len());
    same(wanted.words, found, (exit, output, count)).expect(rt, "not the same");
    same(wanted.words, run.pcs(), wanted.pcs).expect(rt, "not the same");
}

fn is_good(rt: &impl Abort, alloc: Global, wanted: &Good) {
    let case = case_of(rt, alloc, wanted.words, ROM, 100);
    let run = golden(alloc, &case).expect(rt, "a golden run");
    has_end(rt, &run, wanted);
    has_touches(rt, run.touches(), wanted);
    drop(run);
    drop(case);
}

// Returns the number of instructions of a golden run, or its fault.
fn count_of(
    rt: &impl Abort,
    alloc: Global,
    words: &[u32],
    entry: u32,
    limit: u32,
) -> Result<u32, GoldenRefusal> {
    let case = case_of(rt, alloc, words, entry, limit);
    let count = golden(alloc, &case).map(|run| run.count());
    drop(case);
    count
}

fn refused(rt: &impl Abort, alloc: Global) {
    for (words, entry, limit, fault) in REFUSED {
        let found = count_of(rt, alloc, words, entry, limit);
        same((words, limit), found, Err(GoldenRefusal::Fault(fault))).expect(rt, "not the same");
    }
}

#[test]
fn golden_runs(rt: HostRuntime) {
    for wanted in GOOD.as_slice() {
        is_good(&rt, rt.alloc(), wanted);
    }
    refused(&rt, rt.alloc());
    // The golden run takes the whole limit.
    let found = count_of(&rt, rt.alloc(), &COUNTS_DOWN, ROM, 7);
    same("limit 7", found, Ok(7)).expect(&rt, "not the same");
}
