//! Steps that the loop over ROM does not execute: code in RAM, a word whose slot is undecoded, and a fetch that
//! traps.

ghost use Rattle.std.specs.Prelude.{◌≡◌, ◌+◌, ◌^◌, ◌<◌, ◌≤◌, [], length, IfSome, IfNone};
ghost use Rattle.fs_model.specs.Machine.{turn, execute, apply, fetch_trap};
ghost use Rattle.fs_model.specs.Decode.{decode};
ghost use Rattle.rv_machine.specs.Blocks.{HasMarks};
ghost use Rattle.rv_machine.specs.Cores.{core_of, core_with};
ghost use Rattle.rv_machine.specs.Loops.{IsEnd, IsRest};

use crate::blocks::BLOCKS;
use crate::decoded_words::{DecodedWord, keep};
use crate::effects::effect_of;
use crate::memory::is_aligned;
use crate::moves::{jump, load_from, next, set, store};
use crate::program::{Program, View};
use crate::ram_steps::leg_of_ram;
use crate::state::{State, is_went};
use fs_model::{Effect, Event, Instr, Size, TrapKind};
use rv_decode::decode;

// Returns why no word can be fetched.
fn fetch_trap(pc: u32) -> TrapKind
    ensures { result ≡ fetch_trap (core_with pc [] []) }
{
    if is_aligned(Size::Word, pc) {
        TrapKind::Address
    } else {
        TrapKind::Misaligned
    }
}

/// Applies the effect of an instruction whose rd is `k`.
#[inline(always)]
pub(crate) fn apply(
    view: &View,
    pc: &mut u32,
    regs: &mut [u32; 32],
    ram: &mut [u8],
    marks: &mut [bool; BLOCKS],
    k: u8,
    effect: Effect,
) -> Event
    requires ram { HasMarks view.now.ram ram.old marks.old }
    requires rd { k < 32 }
    ensures event { result ≡ (apply view.now (core_with pc.old regs.old ram.old) k effect).event }
    ensures core { core_with pc.new regs.new ram.new ≡ (apply view.now (core_with pc.old regs.old ram.old) k effect).core }
    ensures marks { HasMarks view.now.ram ram.new marks.new }
{
    match effect {
        Effect::Next => next(pc, regs, ram),
        Effect::Set(value) => set(pc, regs, ram, k, value),
        Effect::Jump(link, target) => jump(pc, regs, ram, k, link, target),
        Effect::Load(size, signed, at) => load_from(view, pc, regs, ram, k, size, signed, at),
        Effect::Store(size, at, value) => store(view, pc, regs, ram, marks, size, at, value),
    }
}

// Executes a word, and keeps its instruction in the table if it is in RAM.
fn execute(
    view: &View,
    table: &mut [DecodedWord],
    pc: &mut u32,
    regs: &mut [u32; 32],
    ram: &mut [u8],
    marks: &mut [bool; BLOCKS],
    word: u32,
) -> Event
    requires { HasMarks view.now.ram ram.old marks.old }
    ensures event { result ≡ (execute view.now (core_with pc.old regs.old ram.old) (decode word)).event }
    ensures core { core_with pc.new regs.new ram.new ≡ (execute view.now (core_with pc.old regs.old ram.old) (decode word)).core }
    ensures marks { HasMarks view.now.ram ram.new marks.new }
{
    match decode(word) {
        Some(instr) => {
            if let Some(place) = view.code_place(ram, *pc) {
                keep(table, place / 4, word, instr);
            }
            let a = regs[instr.rs1 as usize];
            let b = regs[instr.rs2 as usize];
            let effect = effect_of(instr, *pc, a, b);
            apply(view, pc, regs, ram, marks, instr.rd, effect)
        }
        None => Event::Trapped(TrapKind::Illegal),
    }
}

// Executes one step of a state.
#[inline(never)]
fn turn_undecoded(program: &Program, state: &mut State) -> Event
    requires { HasMarks program.now.ram state.old.ram.items state.old.marks }
    ensures event { result ≡ (turn program.now (core_of state.old)).event }
    ensures core { core_of state.new ≡ (turn program.now (core_of state.old)).core }
    ensures marks { HasMarks program.now.ram state.new.ram.items state.new.marks }
{
    let view = program.view();
    match view.fetch(state.ram.as_slice(), state.pc) {
        Some(word) => execute(
            &view,
            &mut state.table,
            &mut state.pc,
            &mut state.regs,
            &mut state.ram,
            &mut state.marks,
            word,
        ),
        None => Event::Trapped(fetch_trap(state.pc)),
    }
}

/// Executes words of RAM as long as their instructions are kept, or else one step. Returns the event, if it ended the
/// leg of `most` steps, and the number of steps that are left. It is not inlined, so that the loop over ROM keeps its
/// registers.
#[inline(never)]
pub(crate) fn leg_undecoded(program: &Program, state: &mut State, most: u64) -> (Option<Event>, u64)
    requires ram { HasMarks program.now.ram state.old.ram.items state.old.marks }
    requires some { 0 < most }
    ensures ends { IfSome result.0 (λ event. IsEnd program.now (core_of state.old) most event (core_of state.new) result.1) }
    ensures rest { IfNone result.0 (IsRest program.now (core_of state.old) most (core_of state.new) result.1) }
    ensures less { IfNone result.0 (result.1 < most) }
    ensures marks { HasMarks program.now.ram state.new.ram.items state.new.marks }
{
    let (told, rest) = leg_of_ram(program, state, most);
    if let Some(event) = told {
        return (Some(event), rest);
    }
    if rest + 1 < most {
        return (None, rest + 1);
    }
    let event = turn_undecoded(program, state);
    if is_went(event) {
        (None, rest)
    } else {
        (Some(event), rest)
    }
}
