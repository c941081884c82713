//! Words from an assembler with its input, and words that are not instructions.
use rv_decode::{Instr, Op, decode};
use test_asserts::same;

// A word, and its instruction's operation, rd, rs1, rs2 and immediate value.
static WORDS: [(u32, (Op, u8, u8, u8, u32)); 14] = [
    (0xf00000b7, (Op::Lui, 1, 0, 0, 0xf0000000)),
    (0x0000a423, (Op::Sw, 0, 1, 0, 8)),
    (0x00208023, (Op::Sb, 0, 1, 2, 0)),
    (0x000180a3, (Op::Sb, 0, 3, 0, 1)),
    (0x04100113, (Op::Addi, 2, 0, 0, 65)),
    (0xfff10113, (Op::Addi, 2, 2, 0, 0xffffffff)),
    (0xfe011ee3, (Op::Bne, 0, 2, 0, 0xfffffffc)),
    (0x00018103, (Op::Lb, 2, 3, 0, 0)),
    (0x0001a203, (Op::Lw, 4, 3, 0, 0)),
    (0x0051c103, (Op::Lbu, 2, 3, 0, 5)),
    (0x0183d413, (Op::Srli, 8, 7, 0, 24)),
    (0x02014233, (Op::Div, 4, 2, 0, 0)),
    (0x0262c3b3, (Op::Div, 7, 5, 6, 0)),
    (0x0262e4b3, (Op::Rem, 9, 5, 6, 0)),
];

// A word of zeros, ECALL, EBREAK, FENCE.I, SLLI with another funct7, and JALR with another funct3.
static OTHERS: [u32; 6] = [
    0, 0x00000073, 0x00100073, 0x0000100f, 0x40001013, 0x00009067,
];

#[test]
fn words(rt: HostRuntime) {
    for (word, (op, rd, rs1, rs2, imm)) in WORDS {
        let wanted = Instr {
            op,
            rd,
            rs1,
            rs2,
            imm,
        };
        same(word, decode(word), Some(wanted)).expect(&rt, "not the same");
    }
    for word in OTHERS {
        same(word, decode(word), None).expect(&rt, "not the same");
    }
}
