//! Programs whose ends were worked out by hand.

/// `lui x1,0xF0000; sw x0,8(x1)`: it halts at once.
pub const HALTS: [u32; 2] = [0xf000_00b7, 0x0000_a423];

/// `lui x1,0xF0000; addi x1,x1,8; sw x0,0(x1)`: it halts, by an address that two instructions make.
pub const RUNS_ON: [u32; 3] = [0xf000_00b7, 0x0080_8093, 0x0000_a023];

/// `lui x1,0xF0000; sw x0,4(x1)`: it reports a detected error.
pub const DETECTS: [u32; 2] = [0xf000_00b7, 0x0000_a223];

/// `lui x1,0xF0000; addi x2,x0,65; sb x2,0(x1); sw x0,8(x1)`: it sends a byte.
pub const SENDS: [u32; 4] = [0xf000_00b7, 0x0410_0113, 0x0020_8023, 0x0000_a423];

/// `lui x1,0xF0000; addi x2,x0,65; sb x2,0(x1); addi x2,x0,0; sw x2,8(x1)`: it sends a byte, and clears its register.
pub const SENDS_AND_CLEARS: [u32; 5] = [
    0xf000_00b7,
    0x0410_0113,
    0x0020_8023,
    0x0000_0113,
    0x0020_a423,
];

/// `addi x2,x0,2; loop: addi x2,x2,-1; bne x2,x0,loop; lui x1,0xF0000; sw x0,8(x1)`: it counts down from 2.
pub const COUNTS_DOWN: [u32; 5] = [
    0x0020_0113,
    0xfff1_0113,
    0xfe01_1ee3,
    0xf000_00b7,
    0x0000_a423,
];

/// `lui x1,0xF0000; addi x2,x0,1; andi x2,x2,1; sw x2,8(x1)`: it masks a value.
pub const MASKS: [u32; 4] = [0xf000_00b7, 0x0010_0113, 0x0011_7113, 0x0020_a423];

/// `lui x3,0x80000; lb x2,0(x3); lui x1,0xF0000; sb x2,0(x1); sw x0,8(x1)`: it sends a byte of RAM.
pub const LOADS: [u32; 5] = [
    0x8000_01b7,
    0x0001_8103,
    0xf000_00b7,
    0x0020_8023,
    0x0000_a423,
];

/// `lui x3,0x80000; addi x2,x0,65; sw x2,0(x3); lui x1,0xF0000; sw x2,8(x1)`: it stores a word, and halts with it.
pub const STORES_A_WORD: [u32; 5] = [
    0x8000_01b7,
    0x0410_0113,
    0x0021_a023,
    0xf000_00b7,
    0x0020_a423,
];

/// `lui x3,0x80000; addi x2,x0,65; sw x2,0(x3); sb x0,1(x3); lw x4,0(x3); lui x1,0xF0000; sb x4,0(x1); sw x4,8(x1)`:
/// it stores a word, overwrites a byte of it, and sends and halts with what it loads.
pub const STORES: [u32; 8] = [
    0x8000_01b7,
    0x0410_0113,
    0x0021_a023,
    0x0001_80a3,
    0x0001_a203,
    0xf000_00b7,
    0x0040_8023,
    0x0040_a423,
];

/// `fence; lui x1,0xF0000; sw x0,8(x1)`: it halts after an instruction that does nothing.
pub const FENCES: [u32; 3] = [0x0ff0_000f, 0xf000_00b7, 0x0000_a423];

/// `lui x1,0xF0000; auipc x3,0; sw x1,4(x3); sw x0,8(x1)`: it stores over the word of its own store, and halts.
pub const STORES_OVER_ITSELF: [u32; 4] = [0xf000_00b7, 0x0000_0197, 0x0011_a223, 0x0000_a423];

/// `lui x1,0xF0000; auipc x3,0; sb x0,11(x3); sw x0,-24(x1)`: it stores over the next word, which becomes
/// `sw x0,8(x1)`.
pub const STORES_OVER_THE_NEXT: [u32; 4] = [0xf000_00b7, 0x0000_0197, 0x0001_85a3, 0xfe00_a423];

/// It divides by zero and on overflow, both signed, and sends bytes of the results.
pub const DIVIDES: [u32; 13] = [
    0xf000_00b7,
    0x0070_0113,
    0x0201_4233,
    0x0040_8023,
    0x0201_6233,
    0x0040_8023,
    0x8000_02b7,
    0xfff0_0313,
    0x0262_c3b3,
    0x0183_d413,
    0x0080_8023,
    0x0262_e4b3,
    0x0090_a423,
];
