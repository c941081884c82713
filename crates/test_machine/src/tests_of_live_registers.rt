//! Live registers that were worked out by hand.

use live_registers::LiveRegisters;
use std::alloc::Global;
use std::process::Abort;
use test_asserts::same;
use test_programs::{RAM, ROM, case_of};

// Sums 3, 2 and 1, and halts with the sum. JALR may go anywhere, so all registers are live before it.
//      0  addi x1,x0,3
//      4  addi x2,x0,0
//   l: 8  add  x2,x2,x1
//     12  addi x1,x1,-1
//     16  bne  x1,x0,l
//     20  lui  x3,0xf0000
//     24  sw   x2,8(x3)
//     28  (no instruction)
//     32  jal  x5,16
//     36  jalr x0,0(x5)
const SUMS: [u32; 10] = [
    0x0030_0093,
    0x0000_0113,
    0x0011_0133,
    0xfff0_8093,
    0xfe00_9ce3,
    0xf000_01b7,
    0x0021_a423,
    0x0000_0000,
    0x0100_02ef,
    0x0002_8067,
];

// The distance of an address from the start of ROM, and the mask of the registers that are live there.
static MASKS: [(u32, u32); 10] = [
    (0, 0),
    (4, 1 << 1),
    (8, 1 << 1 | 1 << 2),
    (12, 1 << 1 | 1 << 2),
    (16, 1 << 1 | 1 << 2),
    (20, 1 << 2),
    (24, 1 << 2 | 1 << 3),
    (28, 0),
    (32, 0),
    (36, 0xffff_fffe),
];

fn live_of_sums(rt: &impl Abort, alloc: Global) -> LiveRegisters {
    let case = case_of(alloc, &SUMS, 100).expect(rt, "a case");
    let live = LiveRegisters::new(alloc, &case).expect(rt, "memory");
    drop(case);
    live
}

#[test]
fn masks_by_hand(rt: HostRuntime) {
    let live = live_of_sums(&rt, rt.alloc());
    for (place, mask) in MASKS {
        // Bit 0 means nothing.
        let found = live.mask(ROM.wrapping_add(place)) & !1;
        same(place, found, mask).expect(&rt, "not the same");
    }
    drop(live);
}

#[test]
fn all_are_live_outside_of_the_words(rt: HostRuntime) {
    let live = live_of_sums(&rt, rt.alloc());
    for pc in [ROM - 4, ROM + 2, ROM + 64, RAM] {
        same(pc, live.mask(pc), 0xffff_ffff).expect(&rt, "not the same");
    }
    drop(live);
}
