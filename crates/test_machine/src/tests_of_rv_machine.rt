//! Short programs with known ends.
ghost use Rattle.fs_model.specs.Cell.{IsCell};

use Call::{Holds, Run, Stands, Step, Taken, Word};
use fs_model::{Event, Touch, TrapKind};
use rv_machine::Machine;
use std::alloc::Global;
use std::process::Abort;
use test_asserts::same;
use test_programs::{HALTS, case_of};

/// A call of a machine, with the expected result.
#[derive(Clone, Copy)]
enum Call {
    /// This number of steps, each with this event.
    Step(u32, Event),
    /// A run of at most this number of steps.
    Run(u64, (Event, u64)),
    /// The number of steps taken.
    Taken(u64),
    /// The pc.
    Stands(u32),
    /// The word at the pc.
    Word(Option<u32>),
    /// The value of the register with this number.
    Holds(usize, u32),
}

const TRAPPED: Event = Event::Trapped(TrapKind::Address);

const MISALIGNED: Event = Event::Trapped(TrapKind::Misaligned);

// lui x1,0xF0000; lui x5,0x80000; addi x6,x0,-1; div x7,x5,x6; srli x8,x7,24; sb x8,0(x1); rem x9,x5,x6; sw x9,8(x1):
// -2 ^ 31 by -1 is -2 ^ 31, whose highest byte is sent, and the remainder is 0
const OVERFLOWS: [u32; 8] = [
    0xf00000b7, 0x800002b7, 0xfff00313, 0x0262c3b3, 0x0183d413, 0x00808023, 0x0262e4b3, 0x0090a423,
];

// auipc x1,0; jalr x1,8(x1)
const JUMPS: [u32; 3] = [0x00000097, 0x008080e7, 0x00000013];

// It writes `sw x0,8(x1)` to RAM and jumps there.
const WRITES_CODE: [u32; 6] = [
    0xf00000b7, 0x800001b7, 0x0000a237, 0x42320213, 0x0041a023, 0x00018067,
];

// It writes `sw x4,4(x3)` and a return to RAM and calls that twice: the code in RAM stores the word after it, which
// adds 1 to x5 in the first call and 16 in the second one.
const CHANGES_CODE: [u32; 15] = [
    0xf00000b7, 0x800001b7, 0x0041a237, 0x22320213, 0x0041a023, 0x00038237, 0x06720213, 0x0041a423,
    0x00128237, 0x29320213, 0x000183e7, 0x01028237, 0x29320213, 0x000183e7, 0x0050a423,
];

// A loop that counts to three, a byte that is sent, and a fetch that traps.
const TRAPS: [u32; 6] = [
    0x00300113, 0xfff10113, 0xfe011ee3, 0xf00000b7, 0x00208023, 0x00000067,
];

// The same program in several runs, and step by step.
const BY_LEGS: [Call; 5] = [
    Run(0, (Event::Went, 0)),
    Run(3, (Event::Went, 3)),
    Run(100, (Event::Out(0), 6)),
    Run(100, (TRAPPED, 2)),
    Taken(11),
];

const BY_STEPS: [Call; 4] = [
    Step(1, Event::Out(0)),
    Step(1, Event::Went),
    Step(1, TRAPPED),
    Taken(11),
];

// A program, whether code may be in RAM, and calls of a machine that runs it.
static ROWS: [(&[u32], bool, &[Call]); 5] = [
    (
        &HALTS,
        false,
        &[
            Holds(1, 0),
            Step(1, Event::Went),
            Holds(1, 0xf000_0000),
            Step(1, Event::Halted(0)),
            Taken(2),
            Stands(0x2000_0004),
            Word(Some(0x0000a423)),
        ],
    ),
    (
        &OVERFLOWS,
        false,
        &[
            Step(5, Event::Went),
            Step(1, Event::Out(0x80)),
            Step(1, Event::Went),
            Step(1, Event::Halted(0)),
            Holds(0, 0),
            Holds(6, 0xffff_ffff),
            Holds(7, 0x8000_0000),
            Holds(8, 0x80),
            Holds(9, 0),
            Holds(31, 0),
        ],
    ),
    // The jump uses the old x1.
    (
        &JUMPS,
        false,
        &[
            Run(2, (Event::Went, 2)),
            Stands(0x2000_0008),
            Holds(1, 0x2000_0008),
        ],
    ),
    // It runs only if code may be in RAM.
    (&WRITES_CODE, false, &[Run(9, (TRAPPED, 7)), Word(None)]),
    (
        &WRITES_CODE,
        true,
        &[Run(9, (Event::Halted(0), 7)), Word(Some(0x0000a423))],
    ),
];

// Each program puts two numbers into x5 and x6, computes with them, and halts with the result in x7: the M
// extension's products of -2 ^ 31 and of all ones, and quotients and remainders of -7 by 2 and of 7 by 0.
static RESULTS: [(u32, u32, u32, u32); 10] = [
    (0x800002b7, 0x00028313, 0x026293b3, 0x40000000),
    (0xfff00293, 0x00028313, 0x0262a3b3, 0xffffffff),
    (0x800002b7, 0xfff00313, 0x0262a3b3, 0x80000000),
    (0xfff00293, 0x00028313, 0x0262b3b3, 0xfffffffe),
    (0xff900293, 0x00200313, 0x0262c3b3, 0xfffffffd),
    (0xff900293, 0x00200313, 0x0262e3b3, 0xffffffff),
    (0x00700293, 0x00000313, 0x0262c3b3, 0xffffffff),
    (0x00700293, 0x00000313, 0x0262d3b3, 0xffffffff),
    (0x00700293, 0x00000313, 0x0262e3b3, 7),
    (0x00700293, 0x00000313, 0x0262f3b3, 7),
];

// Tests what the machine shows.
fn shows(rt: &impl Abort, at: (&[u32], usize), machine: &Machine<'_>, call: Call) {
    match call {
        Taken(count) => same(at, machine.taken(), count).expect(rt, "not the same"),
        Stands(pc) => same(at, machine.pc(), pc).expect(rt, "not the same"),
        Word(word) => same(at, machine.word(), word).expect(rt, "not the same"),
        Holds(number, value) => {
            assert!(rt; number < 32);
            same(at, machine.registers()[number], value).expect(rt, "not the same");
        }
        Step(_, _) | Run(_, _) => (),
    }
}

fn steps(
    rt: &impl Abort,
    at: (&[u32], usize),
    machine: &mut Machine<'_>,
    count: u32,
    event: Event,
) {
    for _ in 0..count {
        same(at, machine.step(), event).expect(rt, "not the same");
    }
}

// Makes the calls on the machine. The words are those that it runs; with the call's number, they tell the place.
fn carry_out(rt: &impl Abort, words: &[u32], machine: &mut Machine<'_>, calls: &[Call]) {
    for i in 0..calls.len() {
        let at = (words, i);
        match calls[i] {
            Step(count, event) => steps(rt, at, machine, count, event),
            Run(most, told) => same(at, machine.run(most), told).expect(rt, "not the same"),
            call => shows(rt, at, machine, call),
        }
    }
}

// Makes the calls of a row on a machine that runs its program.
fn run(rt: &impl Abort, alloc: Global, words: &[u32], ram_code: bool, calls: &[Call]) {
    let mut case = case_of(alloc, words, 100).expect(rt, "a case");
    if ram_code {
        case = case.with_ram_code();
    }
    let mut machine = Machine::new(alloc, &case).expect(rt, "memory");
    carry_out(rt, words, &mut machine, calls);
    drop(machine);
    drop(case);
}

// Returns the value with which the program halts.
fn value_of(rt: &impl Abort, alloc: Global, words: &[u32]) -> Option<u32> {
    let case = case_of(alloc, words, 100).expect(rt, "a case");
    let mut machine = Machine::new(alloc, &case).expect(rt, "memory");
    let value = match machine.run(100) {
        (Event::Halted(value), _) => Some(value),
        _ => None,
    };
    drop(machine);
    drop(case);
    value
}

fn results(rt: &impl Abort, alloc: Global) {
    for (first, second, word, wanted) in RESULTS {
        let value = value_of(rt, alloc, &[0xf00000b7, first, second, word, 0x0070a423]);
        same(word, value, Some(wanted)).expect(rt, "not the same");
    }
}

#[test]
fn programs(rt: HostRuntime) {
    for (words, ram_code, calls) in ROWS {
        run(&rt, rt.alloc(), words, ram_code, calls);
    }
    results(&rt, rt.alloc());
}

// Two machines differ on the way, and are in the same state at the end.
fn run_two(rt: &impl Abort, machine: &mut Machine<'_>, other: &mut Machine<'_>) {
    carry_out(rt, &TRAPS, machine, &BY_LEGS);
    carry_out(rt, &TRAPS, other, &[Step(8, Event::Went)]);
    same("the way", machine.same(other), false).expect(rt, "not the same");
    carry_out(rt, &TRAPS, other, &BY_STEPS);
    same("the end", machine.same(other), true).expect(rt, "not the same");
}

#[test]
fn runs_as_it_steps(rt: HostRuntime) {
    let case = case_of(rt.alloc(), &TRAPS, 100).expect(&rt, "a case");
    let mut machine = Machine::new(rt.alloc(), &case).expect(&rt, "memory");
    let mut other = machine.another(rt.alloc()).expect(&rt, "memory");
    run_two(&rt, &mut machine, &mut other);
    drop(other);
    drop(machine);
    drop(case);
}

// A word of RAM that was executed changes by a store, by a flip, which makes the store misaligned, and by a return to
// the initial state.
fn run_again(rt: &impl Abort, machine: &mut Machine<'_>)
    requires { IsCell machine.old.case 32 }
{
    same("the loop", machine.run(17), (Event::Went, 17)).expect(rt, "not the same");
    flip_first_byte(machine);
    carry_out(
        rt,
        &CHANGES_CODE,
        machine,
        &[Run(99, (MISALIGNED, 1)), Holds(5, 1)],
    );
    machine.rewind();
    carry_out(
        rt,
        &CHANGES_CODE,
        machine,
        &[Run(99, (Event::Halted(17), 21))],
    );
}

#[test]
fn code_that_changes(rt: HostRuntime) {
    let case = case_of(rt.alloc(), &CHANGES_CODE, 100)
        .expect(&rt, "a case")
        .with_ram_code();
    let mut machine = Machine::new(rt.alloc(), &case).expect(&rt, "memory");
    run_again(&rt, &mut machine);
    drop(machine);
    drop(case);
}

// What `lb x2,0(x3)` touches: one byte and two registers.
static LOADED: [Touch; 3] = [
    Touch {
        cell: 2,
        reads: false,
    },
    Touch {
        cell: 3,
        reads: true,
    },
    Touch {
        cell: 32,
        reads: true,
    },
];

// Tests the touches of `lui x3,0x80000; lb x2,0(x3); sw x2,0(x3)`.
fn has_touches(rt: &impl Abort, machine: &mut Machine<'_>)
    requires { IsCell machine.old.case 32 }
{
    same("lui", machine.step(), Event::Went).expect(rt, "not the same");
    let found = machine.touches().list();
    same("lb", found.as_slice(), LOADED.as_slice()).expect(rt, "not the same");
    drop(found);
    flip_first_byte(machine);
    same("lb", machine.step(), Event::Went).expect(rt, "not the same");
    same("sw", machine.touches().len(), 6).expect(rt, "not the same");
}

#[test]
fn touches(rt: HostRuntime) {
    let words = [0x800001b7, 0x00018103, 0x0021a023];
    let case = case_of(rt.alloc(), &words, 100).expect(&rt, "a case");
    let mut machine = Machine::new(rt.alloc(), &case).expect(&rt, "memory");
    has_touches(&rt, &mut machine);
    drop(machine);
    drop(case);
}

// Flips a bit of the first byte of RAM.
#[tactic(auto, unfolding(fs_model::specs::Cell::bits, fs_model::specs::Cell::cell_at))]
fn flip_first_byte(machine: &mut Machine<'_>)
    requires { IsCell machine.old.case 32 }
{
    machine.flip(32, 7);
}
