//! States of a short program that differ in a bit or two, and keys. Before instruction 2 of the program x2 and x3 are
//! live: it stores x2 at x3. Instruction 4 loads x4, and nothing reads x5.
ghost use Rattle.std.specs.Prelude.{◌≡◌};

use fs_model::{Case, Site, is_site};
use known_states::{Apart, Key, difference};
use live_registers::LiveRegisters;
use rv_machine::Machine;
use snapshot_store::Snaps;
use std::alloc::Global;
use std::process::Abort;
use test_asserts::same;
use test_programs::{STORES, case_of};

/// The cycle of the states.
const CYCLE: u32 = 2;

/// A cell, and a bit of it.
type Flip = (u32, u8);

// Two flips, and how the state with them differs from the one without: by (0, 0, 0) if it is in more than one bit,
// by (1, 0, 0) if it is in no bit that matters, and else by the site of the bit. A flip that is made twice is none.
static DIFFERENCES: [(Flip, Flip, (u32, u32, u8)); 10] = [
    ((5, 0), (5, 0), (1, 0, 0)),
    ((5, 0), (4, 7), (1, 0, 0)),
    ((2, 6), (5, 31), (CYCLE, 2, 6)),
    ((3, 0), (4, 1), (CYCLE, 3, 0)),
    ((35, 7), (5, 0), (CYCLE, 35, 7)),
    ((32, 0), (4, 0), (CYCLE, 32, 0)),
    ((2, 6), (3, 0), (0, 0, 0)),
    ((2, 6), (2, 7), (0, 0, 0)),
    ((2, 6), (35, 7), (0, 0, 0)),
    ((32, 0), (33, 0), (0, 0, 0)),
];

// Returns a machine that holds the state of another one with two flips.
fn with_flips<'c>(
    rt: &impl Abort,
    alloc: Global,
    case: &Case,
    base: &Machine<'c>,
    first: Flip,
    second: Flip,
) -> Machine<'c>
    requires { base.now.case ≡ case.now }
    ensures { result.case ≡ base.now.case }
{
    let mut machine = base.another(alloc).expect(rt, "memory");
    machine.copy_from(base);
    flip_one(rt, case, &mut machine, first);
    flip_one(rt, case, &mut machine, second);
    machine
}

// Flips a bit.
fn flip_one(rt: &impl Abort, case: &Case, machine: &mut Machine, flip: Flip)
    requires { machine.old.case ≡ case.now }
    ensures { machine.new.case ≡ machine.old.case }
{
    let site = Site {
        cycle: CYCLE,
        cell: flip.0,
        bit: flip.1,
    };
    assert!(rt; is_site(case, 8, &site));
    machine.flip(site.cell, site.bit);
}

fn told(apart: Option<Apart>) -> (u32, u32, u8) {
    match apart {
        None => (0, 0, 0),
        Some(Apart::Nowhere) => (1, 0, 0),
        Some(Apart::InBit(site)) => (site.cycle, site.cell, site.bit),
    }
}

// Returns the machine of a case at the cycle.
fn at_cycle<'c>(rt: &impl Abort, alloc: Global, case: &'c Case) -> Machine<'c>
    ensures { result.case ≡ case.now }
{
    let mut machine = Machine::new(alloc, case).expect(rt, "memory");
    let _ = machine.step();
    let _ = machine.step();
    machine
}

fn all_differences(rt: &impl Abort, alloc: Global, case: &Case) {
    let live = LiveRegisters::new(alloc, case).expect(rt, "memory");
    let base = at_cycle(rt, alloc, case);
    for (first, second, wanted) in DIFFERENCES {
        let machine = with_flips(rt, alloc, case, &base, first, second);
        let mut room = Vec::with_capacity(alloc, 2).expect(rt, "memory");
        let apart = difference(&base, &machine, &live, CYCLE, &mut room);
        same((first, second), told(apart), wanted).expect(rt, "not the same");
        drop(machine);
    }
    drop(base);
    drop(live);
}

// Keys are the same if the states differ in registers only that are not live.
fn keys(rt: &impl Abort, alloc: Global, case: &Case) {
    let live = LiveRegisters::new(alloc, case).expect(rt, "memory");
    let snaps = Snaps::take(alloc, case, 8, 1).expect(rt, "memory");
    let base = at_cycle(rt, alloc, case);
    let mut one = Key::new(alloc, 1).expect(rt, "memory");
    let has_key = one.set(&snaps, &live, &base, CYCLE, Some(0));
    same("a key", has_key, true).expect(rt, "not the same");
    for (flip, is_same) in [((5, 0), true), ((2, 6), false), ((32, 0), false)] {
        let machine = with_flips(rt, alloc, case, &base, flip, (4, 0));
        let mut other = Key::new(alloc, 1).expect(rt, "memory");
        let has_key = other.set(&snaps, &live, &machine, CYCLE, Some(0));
        same(flip, (has_key, one.same(&other)), (true, is_same)).expect(rt, "not the same");
        drop(machine);
        drop(other);
    }
    drop(one);
    drop(base);
    drop(snaps);
    drop(live);
}

#[test]
fn states_by_hand(rt: HostRuntime) {
    let case = case_of(rt.alloc(), &STORES, 100).expect(&rt, "a case");
    all_differences(&rt, rt.alloc(), &case);
    keys(&rt, rt.alloc(), &case);
    drop(case);
}
