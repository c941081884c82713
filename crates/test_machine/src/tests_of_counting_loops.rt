//! Loops whose number of rounds was worked out by hand.

use counting_loops::Loops;
use rv_machine::Machine;
use std::alloc::Global;
use std::process::Abort;
use test_asserts::same;
use test_programs::case_of;

// `lui x2,0x80000; loop: addi x2,x2,-1; bne x2,x0,loop; lui x1,0xF0000; sw x0,8(x1)`: 2^31 rounds.
const LONG: [u32; 5] = [
    0x8000_0137,
    0xfff1_0113,
    0xfe01_1ee3,
    0xf000_00b7,
    0x0000_a423,
];

// The same with `lui x2,0x80`: 524,288 rounds, so it halts at instruction 1,048,579.
const SHORTER: [u32; 5] = [
    0x0008_0137,
    0xfff1_0113,
    0xfe01_1ee3,
    0xf000_00b7,
    0x0000_a423,
];

// `lui x3,0x80000; lui x2,0x80000; loop: sw x2,0(x3); lw x4,0(x3); addi x2,x2,-1; bne x2,x0,loop`
const STORES: [u32; 6] = [
    0x8000_01b7,
    0x8000_0137,
    0x0021_a023,
    0x0001_a203,
    0xfff1_0113,
    0xfe01_1ae3,
];

// `lui x2,0x80000; loop: addi x2,x2,1; blt x2,x0,loop`: the least signed number counts up to 0.
const SIGNED: [u32; 3] = [0x8000_0137, 0x0011_0113, 0xfe01_4ee3];

// `loop: jal x0,loop`
const STAYS: [u32; 1] = [0x0000_006f];

// `lui x3,0x80000; loop: lw x4,0(x3); addi x4,x4,1; sw x4,0(x3); bne x4,x0,loop`: 2^32 rounds, counted in RAM.
const COUNTS_IN_RAM: [u32; 5] = [
    0x8000_01b7,
    0x0001_a203,
    0x0012_0213,
    0x0041_a023,
    0xfe02_1ae3,
];

// `lui x3,0x80000; lui x2,0x80; sw x2,0(x3); loop: lw x4,0(x3); addi x4,x4,-1; sw x4,0(x3); bne x4,x0,loop;
// lui x1,0xF0000; sw x0,8(x1)`: 524,288 rounds, counted in RAM, so it halts at instruction 2,097,157.
const SHORTER_IN_RAM: [u32; 9] = [
    0x8000_01b7,
    0x0008_0137,
    0x0021_a023,
    0x0001_a203,
    0xfff2_0213,
    0x0041_a023,
    0xfe02_1ae3,
    0xf000_00b7,
    0x0000_a423,
];

// `lui x3,0x80000; loop: lbu x4,0(x3); addi x4,x4,1; sb x4,0(x3); jal x0,loop`: a byte, which comes again after 256
// rounds.
const COUNTS_A_BYTE: [u32; 5] = [
    0x8000_01b7,
    0x0001_c203,
    0x0012_0213,
    0x0041_8023,
    0xff5f_f06f,
];

// `lui x1,0xF0000; loop: sb x2,0(x1); addi x2,x2,1; jal x0,loop`: sends a byte in each round.
const SENDS: [u32; 4] = [0xf000_00b7, 0x0020_8023, 0x0011_0113, 0xff9f_f06f];

// The words, a number of steps, and whether the run is known to take these.
static RUNS: [(&[u32], u32, bool); 11] = [
    (&LONG, 16_000_000, true),
    (&SHORTER, 1_048_000, true),
    (&SHORTER, 1_048_579, false),
    (&STORES, 16_000_000, true),
    (&SIGNED, 16_000_000, true),
    (&STAYS, 16_000_000, true),
    (&COUNTS_IN_RAM, 16_000_000, true),
    (&SHORTER_IN_RAM, 2_097_000, true),
    (&SHORTER_IN_RAM, 2_097_157, false),
    (&COUNTS_A_BYTE, 16_000_000, true),
    (&SENDS, 16_000_000, true),
];

fn goes_on(rt: &impl Abort, alloc: Global, words: &[u32], left: u32) -> bool {
    let case = case_of(alloc, words, 1).expect(rt, "a case");
    let machine = Machine::new(alloc, &case).expect(rt, "memory");
    let mut loops = Loops::new(alloc, &case, &machine).expect(rt, "memory");
    let goes_on = loops.goes_on(&machine, u32::MAX, left);
    drop(loops);
    drop(machine);
    drop(case);
    goes_on
}

#[test]
fn loops_are_found(rt: HostRuntime) {
    for (words, left, wanted) in RUNS {
        let found = goes_on(&rt, rt.alloc(), words, left);
        same(left, found, wanted).expect(&rt, "not the same");
    }
}
