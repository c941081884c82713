//! The words of RAM that a machine has decoded. Each is kept beside its instruction, and a step compares it with
//! RAM before it uses the instruction. So a word is decoded once, and again only after it has changed, and no
//! write to RAM needs to know of this table.

ghost use Rattle.std.specs.Prelude.{◌≡◌, ◌<◌, Some, IfSome};
ghost use Rattle.std.specs.Coded.{Coded-set, coded_option};
ghost use Rattle.fs_model.specs.Decode.{decode, HasRegisters};

use fs_model::{Case, Instr, NoMemory, Op};
use std::alloc::Global;

/// The number of places in a table. Two words of RAM at this distance have the same place.
pub(crate) const PLACES: usize = 512;

/// A word, and its instruction.
#[derive(Clone, Copy)]
pub(crate) struct DecodedWord {
    word: u32,
    instr: Instr,
    ghost is: { decode word ≡ Some instr } by { Coded-set (coded_option instr-code) (decode word) (Some instr) },
    ghost rd: { instr.rd < 32 },
    ghost rs1: { instr.rs1 < 32 },
    ghost rs2: { instr.rs2 < 32 },
}

// Returns the word that each place holds at first: ADDI x0, x0, 0.
fn first_word() -> DecodedWord {
    DecodedWord {
        word: 0x13,
        instr: Instr {
            op: Op::Addi,
            rd: 0,
            rs1: 0,
            rs2: 0,
            imm: 0,
        },
    }
}

/// Returns the table of a machine, which is empty unless code in RAM may run.
pub(crate) fn new_table(alloc: Global, case: &Case) -> Result<Vec<DecodedWord>, NoMemory> {
    let count = if case.ram_code() { PLACES } else { 0 };
    Ok(vec![in alloc; first_word(); count]?)
}

/// Returns the instruction of word `k` of RAM, if the table has it.
#[inline(always)]
pub(crate) fn instr_of(table: &[DecodedWord; PLACES], k: usize, word: u32) -> Option<&Instr>
    ensures is { IfSome result (λ instr. decode word ≡ Some instr.now) }
    ensures registers { IfSome result (λ instr. HasRegisters instr.now) }
{
    let kept = &table[k % PLACES];
    if kept.word == word {
        Some(&kept.instr)
    } else {
        None
    }
}

/// Keeps the instruction of word `k` of RAM.
pub(crate) fn keep(table: &mut [DecodedWord], k: usize, word: u32, instr: Instr)
    requires is { decode word ≡ Some instr }
    requires registers { HasRegisters instr }
{
    let place = k % PLACES;
    if place < table.len() {
        table[place] = DecodedWord { word, instr };
    }
}
