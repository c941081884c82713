//! Samples: the totals of the sites that a seed draws, and their steps. `tests/definitions/draws.py` gives the
//! same sites.

use super::totals::numbers;
use access_log::Log;
use campaign::sample;
use fs_model::Case;
use golden_trace::golden;
use rv_machine::Machine;
use snapshot_store::Snaps;
use std::alloc::Global;
use std::process::Abort;
use test_asserts::same;
use test_cases::jobs_of_case;
use test_programs::{HALTS, NoCase, RAM, SENDS, case_of, code, small_map};

// Returns the totals of three draws of seed 42, and the number of steps of the machine.
fn drawn<R: Abort + AllocGlobal>(rt: &R, case: &Case, live: bool) -> ([u64; 7], u64) {
    let alloc = rt.alloc();
    let run = golden(alloc, case).expect(rt, "a golden run");
    let log = Log::from_touches(alloc, run.touches(), &case.map(), case.pc_cell());
    let log = log.expect(rt, "memory");
    let list = jobs_of_case(alloc, case, &run).expect(rt, "memory");
    let snaps = Snaps::take(alloc, case, run.count(), 256).expect(rt, "memory");
    let mut machine = Machine::new(alloc, case).expect(rt, "memory");
    let totals = sample(
        alloc,
        case,
        &run,
        &log,
        &list,
        &snaps,
        &mut machine,
        42,
        3,
        live,
    )
    .expect(rt, "memory");
    let found = (numbers(&totals), machine.taken());
    drop(machine);
    drop(snaps);
    drop(list);
    drop(log);
    drop(run);
    found
}

// Returns the case of the program that halts at once, in RAM. ROM is 0.
fn halts_in_ram(rt: &impl Abort, alloc: Global) -> Result<Case, NoCase> {
    let mut case = Case::blank(alloc, &small_map()?, RAM, 100)?;
    let words = code(alloc, &HALTS)?;
    assert!(rt; case.covers(RAM, words.len()));
    case.fill(RAM, words.as_slice());
    Ok(case.with_ram_code())
}

// Bits 20, 23 and 23 of x1 at cycle 1: two jobs of two steps, and three draws.
#[test]
fn a_job_drawn_again(rt: HostRuntime) {
    let case = case_of(rt.alloc(), &HALTS, 100).expect(&rt, "a case");
    let found = drawn(&rt, &case, true);
    same("live", found, ([0, 0, 0, 0, 3, 0, 0], 4)).expect(&rt, "not the same");
}

// Bits 0, 6 and 7 of the second byte of the second word, each with two sites: numbers 80, 93 and 95 of 128.
#[test]
fn live_sites_of_code(rt: HostRuntime) {
    let case = halts_in_ram(&rt, rt.alloc()).expect(&rt, "a case");
    let found = drawn(&rt, &case, true);
    same("live", found, ([0, 0, 0, 1, 1, 1, 0], 6)).expect(&rt, "not the same");
}

// Cycle 2, bit 7 of x19, bit 0 of byte 3 and bit 1 of byte 15: all are dead.
#[test]
fn dead_sites(rt: HostRuntime) {
    let case = case_of(rt.alloc(), &SENDS, 100).expect(&rt, "a case");
    let found = drawn(&rt, &case, false);
    same("all", found, ([3, 0, 0, 0, 0, 0, 0], 0)).expect(&rt, "not the same");
}
