//! One step of a loop, in all rounds.

ghost use Rattle.std.specs.Prelude.{ℕ, true, ◌≡◌, ◌+◌, ◌^◌, ◌<◌, ◌≤◌, IfSome, length, slice_index_or};
ghost use Rattle.fs_model.specs.Effect.{effect_of};
ghost use Rattle.fs_model.specs.Machine.{reg};
ghost use Rattle.counting_loops.specs.declared.paces.Pace.{Pace};
ghost use Rattle.counting_loops.specs.Paces.{MovedBy};
ghost use Rattle.counting_loops.specs.Steps.{Alike, FixedIf, IsInstr, IsInRange, LoadStays, StepStays, WordsAfter};

use crate::accesses::{stays_readable, stays_writable};
use crate::branches::{equality_stays, order_stays, signed_order_stays};
use crate::kinds::{Kind, kind_of};
use crate::paces::{Moving, Pace, difference, fixed, masked, shifted, sum};
use crate::words::{Held, WORDS, loaded_pace, store_in, word_around};
use fs_model::{Case, Instr, Size};
use rv_decode::decode;
use rv_machine::Machine;

// Returns the pace of what a step writes to rd, if no more is known than whether it stays alike in all rounds.
fn unknown_if(stays: bool) -> Option<Pace>
    ensures { IfSome result (λ pace. (stays ≡ true) × (pace ≡ Pace.Unknown)) }
{
    if stays { Some(Pace::Unknown) } else { None }
}

// Returns the pace of a number that is the same in all rounds, or is not known to be.
fn fixed_if(stays: bool) -> Pace
    ensures { FixedIf (stays ≡ true) result }
{
    if stays { Pace::By(0) } else { Pace::Unknown }
}

// Returns the pace of what a load gives, if its address is known to be good in the rounds up to `last`.
fn pace_of_load(
    case: &Case,
    held: &[Held; WORDS],
    at: Moving,
    size: Size,
    last: u32,
) -> Option<Pace>
    ensures { IfSome result (λ pace. (i x : ℕ) → i ≤ last → MovedBy at.pace i at.first x → LoadStays case.now held.now size at.first x pace) }
{
    if at.is_fixed() {
        Some(loaded_pace(case, held, at.first, size))
    } else {
        unknown_if(stays_readable(case, at, size, last))
    }
}

// Returns the pace of what an instruction writes to rd, whose rs1 and rs2 are `a` and `b`, if its effect is known to
// be alike in the rounds up to `last`.
fn pace_after(
    case: &Case,
    held: &[Held; WORDS],
    instr: &Instr,
    a: Moving,
    b: Moving,
    last: u32,
) -> Option<Pace>
    ensures { IfSome result (λ pace. (pc i x y : ℕ) → i ≤ last → MovedBy a.pace i a.first x → MovedBy b.pace i b.first y
        → Alike case.now held.now pace i (effect_of instr.now pc a.first b.first) (effect_of instr.now pc x y)) }
{
    match kind_of(instr.op) {
        Kind::Constant => Some(Pace::By(0)),
        Kind::Nothing => Some(Pace::Unknown),
        Kind::AddImmediate => Some(a.pace),
        Kind::Add => Some(sum(a.pace, b.pace)),
        Kind::Subtract => Some(difference(a.pace, b.pace)),
        Kind::ShiftLeft => Some(shifted(a.pace, instr.imm)),
        Kind::JumpRegister => unknown_if(a.is_fixed()),
        Kind::Equality => unknown_if(equality_stays(a, b, last)),
        Kind::Order => unknown_if(order_stays(a, b, last)),
        Kind::SignedOrder => unknown_if(signed_order_stays(a, b, last)),
        Kind::Load(size) => pace_of_load(case, held, a.plus(instr.imm), size, last),
        Kind::Store(size) => unknown_if(stays_writable(case, a.plus(instr.imm), size, last)),
        Kind::Test => Some(fixed_if(order_stays(a, b, last))),
        Kind::SignedTest => Some(fixed_if(signed_order_stays(a, b, last))),
        Kind::TestImmediate => Some(fixed_if(order_stays(a, fixed(instr.imm), last))),
        Kind::SignedTestImmediate => {
            Some(fixed_if(signed_order_stays(a, fixed(instr.imm), last)))
        }
        Kind::Mask => Some(masked(a, instr.imm)),
        Kind::Computed => {
            if a.is_fixed() && b.is_fixed() {
                Some(Pace::By(0))
            } else {
                Some(Pace::Unknown)
            }
        }
    }
}

// Takes into account what an instruction stores, whose rs1 and rs2 are `a` and `b`. Returns whether that is possible.
fn words_after(
    held: &mut [Held; WORDS],
    case: &Case,
    instr: &Instr,
    a: Moving,
    b: Moving,
    last: u32,
) -> bool
    ensures { result ≡ true → (pc i x y : ℕ) → i ≤ last → MovedBy a.pace i a.first x → MovedBy b.pace i b.first y
        → WordsAfter case.now held.old held.new i (effect_of instr.now pc a.first b.first) (effect_of instr.now pc x y) }
{
    match kind_of(instr.op) {
        Kind::Store(size) => store_in(held, case, a.plus(instr.imm), size, b.pace, last),
        _ => true,
    }
}

fn is_in_rom(case: &Case, pc: u32) -> bool
    ensures { result ≡ true → IsInRange case.now.rom_base (length case.now.rom) 4 pc }
{
    case.facts();
    case.rom_base() <= pc && pc as u64 + 4 <= case.rom_base() as u64 + case.rom().len() as u64
}

// Returns the instruction at the pc, if it is in ROM.
fn instr_in_rom(case: &Case, machine: &Machine) -> Option<Instr>
    requires { machine.now.case ≡ case.now }
    ensures { IfSome result (λ instr. IsInstr case.now machine.now.core.pc instr) }
{
    if !is_in_rom(case, machine.pc()) {
        return None;
    }
    match machine.word() {
        Some(word) => decode(word),
        None => None,
    }
}

// Returns what register `k` holds in all rounds.
fn moving_at(machine: &Machine, paces: &[Pace; 32], k: u8) -> Moving
    requires { k < 32 }
    ensures first { result.first ≡ reg machine.now.core k }
    ensures pace { (d : Pace) → result.pace ≡ slice_index_or paces.now k d }
    ensures length { length machine.now.core.regs ≡ 32 }
{
    Moving {
        first: machine.registers()[k as usize],
        pace: paces[k as usize],
    }
}

/// Takes one step of the first round, and brings the paces to the next place. Returns whether the steps of all
/// rounds up to `last` are known to go on in the same way.
pub(crate) fn step_stays(
    case: &Case,
    machine: &mut Machine,
    paces: &mut [Pace; 32],
    held: &mut [Held; WORDS],
    last: u32,
) -> bool
    requires { machine.old.case ≡ case.now }
    ensures case { machine.new.case ≡ machine.old.case }
    ensures stays { result ≡ true → StepStays case.now last paces.old held.old machine.old.core paces.new held.new machine.new.core }
{
    let Some(instr) = instr_in_rom(case, machine) else {
        return false;
    };
    // This call gives the proof the size of RAM.
    let _ = machine.ram();
    let a = moving_at(machine, paces, instr.rs1);
    let b = moving_at(machine, paces, instr.rs2);
    let Some(pace) = pace_after(case, held, &instr, a, b, last) else {
        return false;
    };
    if !words_after(held, case, &instr, a, b, last) || !machine.step().goes_on() {
        return false;
    }
    // This read gives the proof the bound of the number that was written.
    let _written = machine.registers()[instr.rd as usize];
    if instr.rd != 0 {
        paces[instr.rd as usize] = pace;
    }
    true
}

/// Returns the number of the word of RAM that the instruction at the pc loads or stores.
pub(crate) fn word_touched(case: &Case, machine: &Machine) -> Option<u32>
    requires { machine.now.case ≡ case.now }
{
    let instr = instr_in_rom(case, machine)?;
    match kind_of(instr.op) {
        Kind::Load(_) | Kind::Store(_) => {
            let base = machine.registers()[instr.rs1 as usize];
            word_around(case, base.wrapping_add(instr.imm), 1)
        }
        _ => None,
    }
}
