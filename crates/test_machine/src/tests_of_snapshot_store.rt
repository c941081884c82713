//! Stored states of a short program.

use fs_model::{Case, Event};
use rv_machine::Machine;
use snapshot_store::{Snaps, advance};
use std::alloc::Global;
use std::process::Abort;
use test_asserts::same;
use test_programs::{STORES, case_of};

// With a state stored every three cycles, for each cycle: the greatest stored cycle that is not above it, and
// whether the two are equal.
static BELOW: [(u32, bool); 8] = [
    (0, true),
    (0, false),
    (0, false),
    (3, true),
    (3, false),
    (3, false),
    (6, true),
    (6, false),
];

// Each stored state is the state that a machine reaches in single steps.
fn has_states(rt: &impl Abort, snaps: &Snaps<'_>, machine: &mut Machine<'_>) {
    for cycle in 0..8 {
        let snap = snaps.at(cycle).expect(rt, "a cycle whose state is kept");
        let found = (snap.cycle(), machine.same(snap.machine()));
        same(cycle, found, (cycle, true)).expect(rt, "not the same");
        let _ = machine.step();
    }
    same(8, snaps.at(8).is_none(), true).expect(rt, "not the same");
}

fn every_cycle(rt: &impl Abort, alloc: Global, case: &Case) {
    let snaps = Snaps::take(alloc, case, 8, 1).expect(rt, "memory");
    same("the spacing", snaps.spacing(), 1).expect(rt, "not the same");
    // Instruction 6 sends the byte.
    let found = (snaps.nearest(6).sent(), snaps.nearest(7).sent());
    same("what was sent", found, (0, 1)).expect(rt, "not the same");
    let mut machine = Machine::new(alloc, case).expect(rt, "memory");
    has_states(rt, &snaps, &mut machine);
    drop(machine);
    drop(snaps);
}

fn every_third_cycle(rt: &impl Abort, alloc: Global, case: &Case) {
    let snaps = Snaps::take(alloc, case, 8, 3).expect(rt, "memory");
    for cycle in 0..8u32 {
        let found = (snaps.nearest(cycle).cycle(), snaps.at(cycle).is_some());
        same(cycle, found, BELOW[cycle as usize]).expect(rt, "not the same");
    }
    // After the last cycle no state is stored.
    same(9, snaps.at(9).is_none(), true).expect(rt, "not the same");
    drop(snaps);
}

// A machine that begins at a stored state continues as the first machine did.
fn goes_on(rt: &impl Abort, alloc: Global, case: &Case) {
    let snaps = Snaps::take(alloc, case, 8, 4).expect(rt, "memory");
    let snap = snaps.nearest(5);
    let mut machine = snap.machine().another(alloc).expect(rt, "memory");
    machine.copy_from(snap.machine());
    let sent = advance(&mut machine, snap.sent(), snap.cycle(), 7);
    same("the way", (sent, machine.taken()), (1, 3)).expect(rt, "not the same");
    same("the end", machine.step(), Event::Halted(65)).expect(rt, "not the same");
    drop(machine);
    drop(snaps);
}

#[test]
fn kept_states(rt: HostRuntime) {
    let case = case_of(rt.alloc(), &STORES, 100).expect(&rt, "a case");
    every_cycle(&rt, rt.alloc(), &case);
    every_third_cycle(&rt, rt.alloc(), &case);
    goes_on(&rt, rt.alloc(), &case);
    drop(case);
}
