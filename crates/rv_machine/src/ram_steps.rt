//! Steps of code in RAM whose words were decoded before.

ghost use Rattle.std.specs.Prelude.{◌≡◌, ◌+◌, ◌^◌, ◌<◌, ◌≤◌, length, true, IfSome, OnSome, IfNone};
ghost use Rattle.fs_model.specs.Machine.{turn};
ghost use Rattle.rv_machine.specs.Blocks.{HasMarks};
ghost use Rattle.rv_machine.specs.Cores.{core_of, core_with};
ghost use Rattle.rv_machine.specs.Loops.{IsEnd, IsRest};

use crate::blocks::BLOCKS;
use crate::decoded_words::{DecodedWord, PLACES, instr_of};
use crate::effects::effect_of;
use crate::memory::number_at;
use crate::program::{Program, View};
use crate::state::{State, is_plain};
use crate::undecoded::apply;
use fs_model::{Event, Instr, Size};

// Executes the word at the pc, if it is in RAM and the table has it. It reads the instruction part by part, as
// `state::turn_in_rom` does.
#[inline(always)]
fn turn_in_ram(
    view: &View,
    table: &[DecodedWord; PLACES],
    pc: &mut u32,
    regs: &mut [u32; 32],
    ram: &mut [u8],
    marks: &mut [bool; BLOCKS],
) -> Option<Event>
    requires code { view.now.ram_code ≡ true }
    requires ram { HasMarks view.now.ram ram.old marks.old }
    ensures event { IfSome result (λ event. event ≡ (turn view.now (core_with pc.old regs.old ram.old)).event) }
    ensures core { OnSome result (core_with pc.new regs.new ram.new ≡ (turn view.now (core_with pc.old regs.old ram.old)).core) }
    ensures none { IfNone result (core_with pc.new regs.new ram.new ≡ core_with pc.old regs.old ram.old) }
    ensures marks { HasMarks view.now.ram ram.new marks.new }
{
    view.facts();
    let k = view.ram_word(ram, *pc)?;
    let kept = instr_of(table, k, number_at(Size::Word, ram, 4 * k))?;
    let instr = Instr {
        op: kept.op,
        rd: kept.rd,
        rs1: kept.rs1,
        rs2: kept.rs2,
        imm: kept.imm,
    };
    let a = regs[instr.rs1 as usize];
    let b = regs[instr.rs2 as usize];
    let effect = effect_of(instr, *pc, a, b);
    Some(apply(view, pc, regs, ram, marks, instr.rd, effect))
}

// Executes words of RAM until one reports more than that the run continues, or `most` were executed. Returns the
// event and the number of steps that are left. If the next word is not in RAM, or the table does not have it, it
// returns no event, and that step is already subtracted.
#[inline(always)]
fn leg_in_ram(
    view: &View,
    table: &[DecodedWord],
    pc: &mut u32,
    regs: &mut [u32; 32],
    ram: &mut [u8],
    marks: &mut [bool; BLOCKS],
    most: u64,
) -> (Option<Event>, u64)
    requires code { view.now.ram_code ≡ true }
    requires ram { HasMarks view.now.ram ram.old marks.old }
    requires some { 0 < most }
    ensures ends { IfSome result.0 (λ event. IsEnd view.now (core_with pc.old regs.old ram.old) most event (core_with pc.new regs.new ram.new) result.1) }
    ensures rest { IfNone result.0 (IsRest view.now (core_with pc.old regs.old ram.old) most (core_with pc.new regs.new ram.new) (result.1 + 1)) }
    ensures marks { HasMarks view.now.ram ram.new marks.new }
{
    let Some(places) = table.first_chunk::<PLACES>() else {
        return (None, most - 1);
    };
    let mut at = *pc;
    let mut left = most;
    'steps: loop {
        let told = turn_in_ram(view, places, &mut at, regs, ram, marks);
        left -= 1;
        if !is_plain(told) {
            *pc = at;
            return (told, left);
        }
        if left == 0 {
            *pc = at;
            return (Some(Event::Went), 0);
        }
    }
}

/// Does the same to a state, if code in RAM may run.
#[inline(always)]
pub(crate) fn leg_of_ram(program: &Program, state: &mut State, most: u64) -> (Option<Event>, u64)
    requires ram { HasMarks program.now.ram state.old.ram.items state.old.marks }
    requires some { 0 < most }
    ensures ends { IfSome result.0 (λ event. IsEnd program.now (core_of state.old) most event (core_of state.new) result.1) }
    ensures rest { IfNone result.0 (IsRest program.now (core_of state.old) most (core_of state.new) (result.1 + 1)) }
    ensures marks { HasMarks program.now.ram state.new.ram.items state.new.marks }
{
    if !program.case().ram_code() {
        return (None, most - 1);
    }
    let view = program.view();
    leg_in_ram(
        &view,
        state.table.as_slice(),
        &mut state.pc,
        &mut state.regs,
        &mut state.ram,
        &mut state.marks,
        most,
    )
}
