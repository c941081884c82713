//! Short programs with the counts that `tests/definitions/reference.py` gives.
//! `tests/definitions/short_programs.py` has their instructions, and wrote this table.

/// A program at the start of ROM.
pub struct Program {
    pub words: &'static [u32],
    /// The most instructions of a run.
    pub limit: u32,
    /// The instructions of the golden run.
    pub instructions: u32,
    /// The numbers of sites by outcome: no effect, silent data corruption, detected, illegal instruction, address
    /// fault, misaligned address, timeout.
    pub totals: [u64; 7],
}

pub static PROGRAMS: [Program; 53] = [
    // sum of a loop: lui x1,0xF0000; addi x2,x0,5; loop: add x4,x4,x2; addi x2,x2,-1; bne x2,x0,loop; sw x4,8(x1)
    Program {
        words: &[
            0xf00000b7, 0x00500113, 0x00220233, 0xfff10113, 0xfe011ce3, 0x0040a423,
        ],
        limit: 60,
        instructions: 18,
        totals: [18560, 630, 0, 0, 510, 34, 426],
    },
    // Fibonacci numbers: lui x1,0xF0000; addi x5,x0,1; addi x2,x0,2; loop: add x6,x4,x5; addi x4,x5,0; addi x5,x6,0;
    // addi x2,x2,-1; bge x2,x0,loop; sw x4,8(x1)
    Program {
        words: &[
            0xf00000b7, 0x00100293, 0x00200113, 0x00520333, 0x00028213, 0x00030293, 0xfff10113,
            0xfe0158e3, 0x0040a423,
        ],
        limit: 60,
        instructions: 19,
        totals: [19425, 896, 0, 0, 540, 36, 383],
    },
    // loop that counts up: lui x1,0xF0000; addi x2,x0,4; loop: addi x4,x4,1; blt x4,x2,loop; sb x4,0(x1);
    // sw x0,8(x1)
    Program {
        words: &[
            0xf00000b7, 0x00400113, 0x00120213, 0xfe224ee3, 0x00408023, 0x0000a423,
        ],
        limit: 60,
        instructions: 12,
        totals: [12573, 307, 10, 0, 330, 2, 218],
    },
    // loop by unsigned comparison: lui x1,0xF0000; addi x2,x0,9; loop: addi x2,x2,-3; bltu x0,x2,loop; sw x2,8(x1)
    Program {
        words: &[0xf00000b7, 0x00900113, 0xffd10113, 0xfe206ee3, 0x0020a423],
        limit: 50,
        instructions: 9,
        totals: [9600, 32, 0, 0, 240, 16, 192],
    },
    // loop that a flip makes long: lui x1,0xF0000; addi x2,x0,3; loop: addi x2,x2,-1; bgeu x2,x4,next; sw x0,4(x1);
    // next: bne x2,x0,loop; sw x0,8(x1)
    Program {
        words: &[
            0xf00000b7, 0x00300113, 0xfff10113, 0x00417463, 0x0000a223, 0xfe011ae3, 0x0000a423,
        ],
        limit: 40,
        instructions: 12,
        totals: [12514, 0, 320, 0, 330, 22, 254],
    },
    // loop in a loop: lui x1,0xF0000; addi x2,x0,2; outer: addi x4,x0,2; inner: addi x5,x5,1; addi x4,x4,-1;
    // bne x4,x0,inner; addi x2,x2,-1; bne x2,x0,outer; sb x5,8(x1)
    Program {
        words: &[
            0xf00000b7, 0x00200113, 0x00200213, 0x00128293, 0xfff20213, 0xfe021ce3, 0xfff10113,
            0xfe0116e3, 0x00508423,
        ],
        limit: 60,
        instructions: 21,
        totals: [21752, 246, 0, 0, 640, 0, 882],
    },
    // doubling until it is large: lui x1,0xF0000; addi x2,x0,3; addi x5,x0,100; loop: add x2,x2,x2; bge x5,x2,loop;
    // sh x2,8(x1)
    Program {
        words: &[
            0xf00000b7, 0x00300113, 0x06400293, 0x00210133, 0xfe22dee3, 0x00209423,
        ],
        limit: 60,
        instructions: 16,
        totals: [16738, 690, 0, 0, 465, 15, 12],
    },
    // bytes with and without sign: lui x3,0x80000; lui x1,0xF0000; addi x2,x0,-128; sb x2,3(x3); lb x4,3(x3);
    // lbu x5,3(x3); add x6,x4,x5; sb x6,0(x1); sw x4,8(x1)
    Program {
        words: &[
            0x800001b7, 0xf00000b7, 0xf8000113, 0x002181a3, 0x00318203, 0x0031c283, 0x00520333,
            0x00608023, 0x0040a423,
        ],
        limit: 40,
        instructions: 9,
        totals: [9540, 182, 6, 0, 350, 2, 0],
    },
    // halfwords with and without sign: lui x3,0x80000; lui x1,0xF0000; lui x2,0x8; addi x2,x2,1; sh x2,6(x3);
    // lh x4,6(x3); lhu x5,6(x3); sub x6,x4,x5; srai x6,x6,16; sb x6,0(x1); sw x5,8(x1)
    Program {
        words: &[
            0x800001b7, 0xf00000b7, 0x00008137, 0x00110113, 0x00219323, 0x00619203, 0x0061d283,
            0x40520333, 0x41035313, 0x00608023, 0x0050a423,
        ],
        limit: 40,
        instructions: 11,
        totals: [11624, 242, 8, 0, 438, 8, 0],
    },
    // words of RAM: lui x3,0x80000; lui x1,0xF0000; lui x2,0x12345; addi x2,x2,0x678; sw x2,12(x3); lw x4,12(x3);
    // sb x4,0(x1); sw x4,8(x1)
    Program {
        words: &[
            0x800001b7, 0xf00000b7, 0x12345137, 0x67810113, 0x0021a623, 0x00c1a203, 0x00408023,
            0x0040a423,
        ],
        limit: 30,
        instructions: 8,
        totals: [8448, 165, 5, 0, 330, 12, 0],
    },
    // a word from bytes: lui x3,0x80000; lui x1,0xF0000; addi x2,x0,17; sb x2,0(x3); sb x2,1(x3); sb x2,2(x3);
    // lw x4,0(x3); sw x4,8(x1)
    Program {
        words: &[
            0x800001b7, 0xf00000b7, 0x01100113, 0x00218023, 0x002180a3, 0x00218123, 0x0001a203,
            0x0040a423,
        ],
        limit: 30,
        instructions: 8,
        totals: [8422, 166, 0, 0, 348, 24, 0],
    },
    // bytes of a word: lui x3,0x80000; lui x1,0xF0000; lui x2,0xABCDE; sw x2,4(x3); lbu x4,7(x3); lb x5,6(x3);
    // lhu x6,6(x3); add x4,x4,x6; add x4,x4,x5; sw x4,8(x1)
    Program {
        words: &[
            0x800001b7, 0xf00000b7, 0xabcde137, 0x0021a223, 0x0071c203, 0x00618283, 0x0061d303,
            0x00620233, 0x00520233, 0x0040a423,
        ],
        limit: 36,
        instructions: 10,
        totals: [10409, 358, 0, 0, 408, 25, 0],
    },
    // a word from halfwords: lui x3,0x80000; lui x1,0xF0000; addi x2,x0,0x7FF; sh x2,8(x3); sh x2,10(x3);
    // lw x4,8(x3); lbu x5,9(x3); sb x5,0(x1); sw x4,8(x1)
    Program {
        words: &[
            0x800001b7, 0xf00000b7, 0x7ff00113, 0x00219423, 0x00219523, 0x0081a203, 0x0091c283,
            0x00508023, 0x0040a423,
        ],
        limit: 36,
        instructions: 9,
        totals: [9476, 202, 6, 0, 384, 12, 0],
    },
    // stores of all widths over each other: lui x3,0x80000; lui x1,0xF0000; addi x2,x0,-1; sw x2,0(x3); sh x0,2(x3);
    // sb x3,1(x3); lh x4,0(x3); lhu x5,2(x3); sb x4,0(x1); sh x5,0(x1); sw x4,8(x1)
    Program {
        words: &[
            0x800001b7, 0xf00000b7, 0xfff00113, 0x0021a023, 0x00019123, 0x003180a3, 0x00019203,
            0x0021d283, 0x00408023, 0x00509023, 0x0040a423,
        ],
        limit: 40,
        instructions: 11,
        totals: [11603, 231, 8, 0, 465, 13, 0],
    },
    // a byte that is overwritten: lui x3,0x80000; lui x1,0xF0000; addi x2,x0,7; sb x2,0(x3); addi x2,x2,1;
    // sb x2,0(x3); lbu x4,0(x3); sw x4,8(x1)
    Program {
        words: &[
            0x800001b7, 0xf00000b7, 0x00700113, 0x00218023, 0x00110113, 0x00218023, 0x0001c203,
            0x0040a423,
        ],
        limit: 36,
        instructions: 8,
        totals: [8532, 68, 0, 0, 348, 12, 0],
    },
    // RAM that nothing wrote: lui x3,0x80000; lui x1,0xF0000; lw x2,4(x3); lbu x4,15(x3); add x2,x2,x4; sw x2,8(x1)
    Program {
        words: &[
            0x800001b7, 0xf00000b7, 0x0041a103, 0x00f1c203, 0x00410133, 0x0020a423,
        ],
        limit: 20,
        instructions: 6,
        totals: [6240, 256, 0, 0, 212, 12, 0],
    },
    // loads from ROM: lui x5,0x20000; lui x1,0xF0000; lw x2,0(x5); lhu x4,6(x5); lb x6,4(x5); sb x6,0(x1);
    // sw x4,8(x1)
    Program {
        words: &[
            0x200002b7, 0xf00000b7, 0x0002a103, 0x0062d203, 0x00428303, 0x00608023, 0x0040a423,
        ],
        limit: 24,
        instructions: 7,
        totals: [7448, 135, 4, 0, 246, 7, 0],
    },
    // a copy by bytes: lui x3,0x80000; lui x1,0xF0000; addi x2,x0,0x5A5; sh x2,0(x3); addi x4,x0,2;
    // loop: lbu x5,0(x3); sb x5,8(x3); addi x3,x3,1; addi x4,x4,-1; bne x4,x0,loop; lhu x6,6(x3); sh x6,8(x1)
    Program {
        words: &[
            0x800001b7, 0xf00000b7, 0x5a500113, 0x00219023, 0x00200213, 0x0001c283, 0x00518423,
            0x00118193, 0xfff20213, 0xfe0218e3, 0x0061d303, 0x00609423,
        ],
        limit: 50,
        instructions: 17,
        totals: [17542, 264, 0, 0, 1198, 36, 0],
    },
    // output by all widths: lui x1,0xF0000; addi x2,x0,0x123; sb x2,0(x1); sh x2,0(x1); sw x2,0(x1); sb x0,8(x1)
    Program {
        words: &[
            0xf00000b7, 0x12300113, 0x00208023, 0x00209023, 0x0020a023, 0x00008423,
        ],
        limit: 24,
        instructions: 6,
        totals: [6536, 28, 4, 0, 149, 3, 0],
    },
    // end by a byte: lui x1,0xF0000; addi x2,x0,-2; sb x2,0(x1); sb x2,8(x1)
    Program {
        words: &[0xf00000b7, 0xffe00113, 0x00208023, 0x00208423],
        limit: 12,
        instructions: 4,
        totals: [4368, 18, 2, 0, 92, 0, 0],
    },
    // end by a halfword: lui x1,0xF0000; addi x2,x0,-2; sb x2,0(x1); sh x2,8(x1)
    Program {
        words: &[0xf00000b7, 0xffe00113, 0x00208023, 0x00209423],
        limit: 12,
        instructions: 4,
        totals: [4352, 34, 2, 0, 91, 1, 0],
    },
    // end by a word: lui x1,0xF0000; addi x2,x0,-2; sb x2,0(x1); sw x2,8(x1)
    Program {
        words: &[0xf00000b7, 0xffe00113, 0x00208023, 0x0020a423],
        limit: 12,
        instructions: 4,
        totals: [4320, 66, 2, 0, 90, 2, 0],
    },
    // letters in a loop: lui x1,0xF0000; addi x2,x0,65; addi x4,x0,69; loop: sb x2,0(x1); addi x2,x2,1;
    // bne x2,x4,loop; sw x0,8(x1)
    Program {
        words: &[
            0xf00000b7, 0x04100113, 0x04500213, 0x00208023, 0x00110113, 0xfe411ce3, 0x0000a423,
        ],
        limit: 60,
        instructions: 16,
        totals: [16640, 69, 12, 0, 450, 6, 743],
    },
    // a call and its return: lui x1,0xF0000; addi x2,x0,20; jal x5,double; sb x2,0(x1); sw x2,8(x1);
    // double: add x2,x2,x2; jalr x0,0(x5)
    Program {
        words: &[
            0xf00000b7, 0x01400113, 0x00c002ef, 0x00208023, 0x0020a423, 0x00210133, 0x00028067,
        ],
        limit: 24,
        instructions: 7,
        totals: [7430, 165, 5, 8, 228, 4, 0],
    },
    // two calls of one function: lui x1,0xF0000; addi x2,x0,3; jal x5,square; jal x5,square; sw x2,8(x1);
    // square: mul x2,x2,x2; addi x2,x2,-1; jalr x0,0(x5)
    Program {
        words: &[
            0xf00000b7, 0x00300113, 0x00c002ef, 0x008002ef, 0x0020a423, 0x02210133, 0xfff10113,
            0x00028067,
        ],
        limit: 40,
        instructions: 11,
        totals: [11558, 265, 0, 18, 444, 26, 9],
    },
    // a call in a call: lui x1,0xF0000; lui x3,0x80000; addi x2,x0,1; jal x5,outer; sw x2,8(x1);
    // outer: sw x5,12(x3); jal x5,inner; jal x5,inner; lw x5,12(x3); jalr x0,0(x5); inner: addi x2,x2,5;
    // jalr x0,0(x5)
    Program {
        words: &[
            0xf00000b7, 0x800001b7, 0x00100113, 0x008002ef, 0x0020a423, 0x0051a623, 0x010002ef,
            0x00c002ef, 0x00c1a283, 0x00028067, 0x00510113, 0x00028067,
        ],
        limit: 60,
        instructions: 14,
        totals: [14200, 357, 0, 39, 1002, 59, 23],
    },
    // a jump by register: lui x1,0xF0000; auipc x5,0; addi x2,x0,9; jalr x6,17(x5); sw x0,4(x1); sw x2,8(x1)
    Program {
        words: &[
            0xf00000b7, 0x00000297, 0x00900113, 0x01128367, 0x0000a223, 0x0020a423,
        ],
        limit: 20,
        instructions: 5,
        totals: [5344, 64, 2, 10, 168, 12, 0],
    },
    // a link that is used: lui x1,0xF0000; jal x5,4; jalr x6,8(x5); fence; sub x2,x6,x5; sb x2,0(x1); sw x2,8(x1)
    Program {
        words: &[
            0xf00000b7, 0x004002ef, 0x00828367, 0x0ff0000f, 0x40530133, 0x00208023, 0x0020a423,
        ],
        limit: 24,
        instructions: 6,
        totals: [6400, 134, 4, 4, 174, 3, 1],
    },
    // jumps that a flip misaligns: lui x1,0xF0000; lui x5,0x20000; addi x5,x5,20; jalr x2,0(x5); sw x0,4(x1);
    // srli x2,x2,4; sb x2,0(x1); sw x0,8(x1)
    Program {
        words: &[
            0xf00000b7, 0x200002b7, 0x01428293, 0x00028167, 0x0000a223, 0x00415113, 0x00208023,
            0x0000a423,
        ],
        limit: 24,
        instructions: 7,
        totals: [7571, 24, 6, 7, 228, 4, 0],
    },
    // factorial: lui x1,0xF0000; addi x2,x0,4; addi x4,x0,1; loop: mul x4,x4,x2; addi x2,x2,-1; bne x2,x0,loop;
    // sb x4,0(x1); sw x4,8(x1)
    Program {
        words: &[
            0xf00000b7, 0x00400113, 0x00100213, 0x02220233, 0xfff10113, 0xfe011ce3, 0x00408023,
            0x0040a423,
        ],
        limit: 50,
        instructions: 17,
        totals: [17675, 497, 15, 0, 480, 2, 371],
    },
    // power: lui x1,0xF0000; addi x2,x0,-3; addi x4,x0,1; addi x5,x0,4; loop: mul x4,x4,x2; addi x5,x5,-1;
    // blt x0,x5,loop; sw x4,8(x1)
    Program {
        words: &[
            0xf00000b7, 0xffd00113, 0x00100213, 0x00400293, 0x02220233, 0xfff28293, 0xfe504ce3,
            0x0040a423,
        ],
        limit: 60,
        instructions: 17,
        totals: [17326, 878, 0, 0, 480, 32, 324],
    },
    // high halves of products: lui x1,0xF0000; lui x2,0x80000; addi x4,x0,-1; mulh x5,x2,x2; mulhsu x6,x2,x4;
    // mulhu x7,x4,x4; xor x5,x5,x6; xor x5,x5,x7; sw x5,8(x1)
    Program {
        words: &[
            0xf00000b7, 0x80000137, 0xfff00213, 0x022112b3, 0x02412333, 0x024233b3, 0x0062c2b3,
            0x0072c2b3, 0x0050a423,
        ],
        limit: 36,
        instructions: 9,
        totals: [9344, 480, 0, 0, 240, 16, 0],
    },
    // low and high half: lui x1,0xF0000; addi x2,x0,-7; addi x4,x0,-1; mul x5,x2,x4; mulhsu x6,x4,x2; mulh x7,x2,x4;
    // sb x5,0(x1); sb x6,0(x1); sw x7,8(x1)
    Program {
        words: &[
            0xf00000b7, 0xff900113, 0xfff00213, 0x024102b3, 0x02222333, 0x024113b3, 0x00508023,
            0x00608023, 0x0070a423,
        ],
        limit: 30,
        instructions: 9,
        totals: [9638, 193, 7, 0, 240, 2, 0],
    },
    // signed division: lui x1,0xF0000; addi x2,x0,-7; addi x4,x0,2; div x5,x2,x4; rem x6,x2,x4; sb x5,0(x1);
    // sb x6,0(x1); sw x5,8(x1)
    Program {
        words: &[
            0xf00000b7, 0xff900113, 0x00200213, 0x024142b3, 0x02416333, 0x00508023, 0x00608023,
            0x0050a423,
        ],
        limit: 30,
        instructions: 8,
        totals: [8464, 278, 6, 0, 210, 2, 0],
    },
    // unsigned division: lui x1,0xF0000; addi x2,x0,-7; addi x4,x0,16; divu x5,x2,x4; remu x6,x2,x4; sb x6,0(x1);
    // sw x5,8(x1)
    Program {
        words: &[
            0xf00000b7, 0xff900113, 0x01000213, 0x024152b3, 0x02417333, 0x00608023, 0x0050a423,
        ],
        limit: 30,
        instructions: 7,
        totals: [7429, 224, 5, 0, 180, 2, 0],
    },
    // division by zero: lui x1,0xF0000; addi x2,x0,-9; div x4,x2,x0; rem x5,x2,x0; divu x6,x2,x0; remu x7,x2,x0;
    // and x4,x4,x5; and x6,x6,x7; sb x4,0(x1); sw x6,8(x1)
    Program {
        words: &[
            0xf00000b7, 0xff700113, 0x02014233, 0x020162b3, 0x02015333, 0x020173b3, 0x00527233,
            0x00737333, 0x00408023, 0x0060a423,
        ],
        limit: 40,
        instructions: 10,
        totals: [10495, 425, 8, 0, 270, 2, 0],
    },
    // division that does not fit: lui x1,0xF0000; lui x2,0x80000; addi x4,x0,-1; div x5,x2,x4; rem x6,x2,x4;
    // srli x5,x5,24; sb x5,0(x1); sw x6,8(x1)
    Program {
        words: &[
            0xf00000b7, 0x80000137, 0xfff00213, 0x024142b3, 0x02416333, 0x0182d293, 0x00508023,
            0x0060a423,
        ],
        limit: 30,
        instructions: 8,
        totals: [8489, 253, 6, 0, 210, 2, 0],
    },
    // greatest common divisor: lui x1,0xF0000; addi x2,x0,84; addi x4,x0,36; loop: remu x5,x2,x4; addi x2,x4,0;
    // addi x4,x5,0; bne x4,x0,loop; sb x2,0(x1); sw x2,8(x1)
    Program {
        words: &[
            0xf00000b7, 0x05400113, 0x02400213, 0x024172b3, 0x00020113, 0x00028213, 0xfe021ae3,
            0x00208023, 0x0020a423,
        ],
        limit: 60,
        instructions: 13,
        totals: [13568, 619, 11, 0, 360, 2, 0],
    },
    // a value kept twice: lui x1,0xF0000; lui x3,0x80000; addi x2,x0,0x55; sw x2,0(x3); sw x2,8(x3); lw x4,0(x3);
    // lw x5,8(x3); beq x4,x5,good; sw x0,4(x1); good: sb x4,0(x1); sw x4,8(x1)
    Program {
        words: &[
            0xf00000b7, 0x800001b7, 0x05500113, 0x0021a023, 0x0021a423, 0x0001a203, 0x0081a283,
            0x00520463, 0x0000a223, 0x00408023, 0x0040a423,
        ],
        limit: 40,
        instructions: 10,
        totals: [10402, 105, 266, 0, 415, 12, 0],
    },
    // a value kept thrice: lui x1,0xF0000; lui x3,0x80000; addi x2,x0,0x5A; sb x2,0(x3); sb x2,1(x3); sb x2,2(x3);
    // lbu x4,0(x3); lbu x5,1(x3); lbu x6,2(x3); and x7,x4,x5; and x8,x4,x6; and x9,x5,x6; or x7,x7,x8; or x7,x7,x9;
    // sb x7,0(x1); sw x0,8(x1)
    Program {
        words: &[
            0xf00000b7, 0x800001b7, 0x05a00113, 0x00218023, 0x002180a3, 0x00218123, 0x0001c203,
            0x0011c283, 0x0021c303, 0x005273b3, 0x00627433, 0x0062f4b3, 0x0083e3b3, 0x0093e3b3,
            0x00708023, 0x0000a423,
        ],
        limit: 50,
        instructions: 16,
        totals: [17179, 79, 14, 0, 646, 2, 0],
    },
    // a value and its complement: lui x1,0xF0000; addi x2,x0,100; xori x4,x2,-1; add x5,x2,x4; addi x5,x5,1;
    // beq x5,x0,good; sb x0,4(x1); good: sw x2,8(x1)
    Program {
        words: &[
            0xf00000b7, 0x06400113, 0xfff14213, 0x004102b3, 0x00128293, 0x00028463, 0x00008223,
            0x0020a423,
        ],
        limit: 30,
        instructions: 7,
        totals: [7392, 128, 128, 0, 180, 12, 0],
    },
    // a parity that is checked: lui x1,0xF0000; addi x2,x0,2; addi x5,x0,2; loop: andi x6,x5,1; xor x4,x4,x6;
    // srli x5,x5,1; bne x5,x0,loop; addi x6,x0,1; beq x4,x6,good; sh x0,4(x1); good: sw x2,8(x1)
    Program {
        words: &[
            0xf00000b7, 0x00200113, 0x00200293, 0x0012f313, 0x00624233, 0x0012d293, 0xfe029ae3,
            0x00100313, 0x00620463, 0x00009223, 0x0020a423,
        ],
        limit: 54,
        instructions: 14,
        totals: [14116, 384, 598, 0, 390, 26, 166],
    },
    // a counter that is checked: lui x1,0xF0000; addi x2,x0,4; loop: addi x4,x4,1; addi x2,x2,-1; bne x2,x0,loop;
    // addi x5,x0,4; beq x4,x5,good; sw x4,4(x1); good: sb x4,0(x1); sb x4,8(x1)
    Program {
        words: &[
            0xf00000b7, 0x00400113, 0x00120213, 0xfff10113, 0xfe011ce3, 0x00400293, 0x00520463,
            0x0040a223, 0x00408023, 0x00408423,
        ],
        limit: 60,
        instructions: 18,
        totals: [18672, 32, 602, 0, 512, 0, 342],
    },
    // a sum computed twice: lui x1,0xF0000; addi x2,x0,11; addi x4,x0,22; add x5,x2,x4; add x6,x4,x2; bne x5,x6,bad;
    // sb x5,0(x1); sw x5,8(x1); bad: sw x0,4(x1)
    Program {
        words: &[
            0xf00000b7, 0x00b00113, 0x01600213, 0x004102b3, 0x00220333, 0x00629663, 0x00508023,
            0x0050a423, 0x0000a223,
        ],
        limit: 36,
        instructions: 8,
        totals: [8416, 166, 166, 0, 210, 2, 0],
    },
    // shifts: lui x1,0xF0000; addi x2,x0,-77; addi x4,x0,35; sll x5,x2,x4; srl x6,x2,x4; sra x7,x2,x4; xor x5,x5,x6;
    // sub x5,x5,x7; sw x5,8(x1)
    Program {
        words: &[
            0xf00000b7, 0xfb300113, 0x02300213, 0x004112b3, 0x00415333, 0x404153b3, 0x0062c2b3,
            0x407282b3, 0x0050a423,
        ],
        limit: 30,
        instructions: 9,
        totals: [9408, 416, 0, 0, 240, 16, 0],
    },
    // shifts by constants: lui x1,0xF0000; addi x2,x0,-77; slli x4,x2,31; srli x5,x2,28; srai x6,x2,4; or x4,x4,x5;
    // sb x6,0(x1); sw x4,8(x1)
    Program {
        words: &[
            0xf00000b7, 0xfb300113, 0x01f11213, 0x01c15293, 0x40415313, 0x00526233, 0x00608023,
            0x0040a423,
        ],
        limit: 30,
        instructions: 8,
        totals: [8477, 265, 6, 0, 210, 2, 0],
    },
    // comparisons: lui x1,0xF0000; addi x2,x0,-1; slt x4,x2,x0; sltu x5,x2,x0; slti x6,x2,-1; sltiu x7,x2,-1;
    // slli x5,x5,1; or x4,x4,x5; or x4,x4,x6; or x4,x4,x7; sb x4,0(x1); sw x4,8(x1)
    Program {
        words: &[
            0xf00000b7, 0xfff00113, 0x00012233, 0x000132b3, 0xfff12313, 0xfff13393, 0x00129293,
            0x00526233, 0x00626233, 0x00726233, 0x00408023, 0x0040a423,
        ],
        limit: 36,
        instructions: 12,
        totals: [12428, 670, 10, 0, 330, 2, 0],
    },
    // branches that are not taken: lui x1,0xF0000; addi x2,x0,-5; blt x0,x2,bad; bge x2,x0,bad; bltu x2,x0,bad;
    // bgeu x0,x2,bad; beq x2,x0,bad; sw x2,8(x1); bad: sw x2,4(x1)
    Program {
        words: &[
            0xf00000b7, 0xffb00113, 0x00204c63, 0x00015a63, 0x00016863, 0x00207663, 0x00010463,
            0x0020a423, 0x0020a223,
        ],
        limit: 30,
        instructions: 8,
        totals: [8544, 190, 2, 0, 210, 14, 0],
    },
    // constants: lui x1,0xF0000; ori x2,x0,0x0F0; xori x2,x2,0x3C; andi x2,x2,0x7C; addi x2,x2,-1; sb x2,0(x1);
    // sw x2,8(x1)
    Program {
        words: &[
            0xf00000b7, 0x0f006113, 0x03c14113, 0x07c17113, 0xfff10113, 0x00208023, 0x0020a423,
        ],
        limit: 24,
        instructions: 7,
        totals: [7542, 111, 5, 0, 180, 2, 0],
    },
    // nothing in x0: lui x1,0xF0000; addi x0,x1,5; lui x3,0x80000; lw x0,0(x3); fence; add x2,x0,x0; sb x2,0(x1);
    // sw x2,8(x1)
    Program {
        words: &[
            0xf00000b7, 0x00508013, 0x800001b7, 0x0001a003, 0x0ff0000f, 0x00000133, 0x00208023,
            0x0020a423,
        ],
        limit: 24,
        instructions: 8,
        totals: [8642, 70, 6, 0, 238, 4, 0],
    },
    // addresses from pc: lui x1,0xF0000; auipc x2,1; auipc x4,0; sub x5,x2,x4; srli x5,x5,8; sb x5,0(x1);
    // sw x5,8(x1)
    Program {
        words: &[
            0xf00000b7, 0x00001117, 0x00000217, 0x404102b3, 0x0082d293, 0x00508023, 0x0050a423,
        ],
        limit: 20,
        instructions: 7,
        totals: [7477, 176, 5, 0, 180, 2, 0],
    },
    // a value that is masked: lui x1,0xF0000; addi x2,x0,1; andi x2,x2,1; sw x2,8(x1)
    Program {
        words: &[0xf00000b7, 0x00100113, 0x00117113, 0x0020a423],
        limit: 100,
        instructions: 4,
        totals: [4351, 33, 0, 0, 90, 6, 0],
    },
    // a byte of a word that is overwritten: lui x3,0x80000; addi x2,x0,65; sw x2,0(x3); sb x0,1(x3); lw x4,0(x3);
    // lui x1,0xF0000; sb x4,0(x1); sw x4,8(x1)
    Program {
        words: &[
            0x800001b7, 0x04100113, 0x0021a023, 0x000180a3, 0x0001a203, 0xf00000b7, 0x00408023,
            0x0040a423,
        ],
        limit: 100,
        instructions: 8,
        totals: [8596, 181, 1, 0, 172, 10, 0],
    },
];
