//! Applying the slots of ROM to the number of the word, the registers and RAM. `moves` does the same with the
//! pc.

ghost use Rattle.std.specs.Prelude.{◌≡◌, ◌+◌, ◌*◌, ◌/◌, ◌%◌, ◌^◌, ◌<◌, ◌≤◌, length, true, IfSome, OnSome, IfNone};
ghost use Rattle.fs_model.specs.declared.events.Event.TheVariants.{Went};
ghost use Rattle.fs_model.specs.Machine.{apply, load, store, jump, went, went_with};
ghost use Rattle.fs_model.specs.Memory.{count_of, is_aligned, place_in};
ghost use Rattle.fs_model.specs.Word.{plus, minus};
ghost use Rattle.fs_model.specs.Effect.{branch_if};
ghost use Rattle.rv_machine.specs.Blocks.{HasMarks};
ghost use Rattle.rv_machine.specs.Codes.{core_at, pc_at, word_count};

use crate::blocks::{BLOCKS, put_marked};
use crate::memory::{is_aligned, low_of, number_at, widened};
use crate::moves::put_reg;
use crate::ports::{DETECT_PORT, HALT_PORT, OUT_PORT};
use crate::program::View;
use fs_model::{Event, Instr, Size, TrapKind};

/// Continues at the next slot.
#[inline(always)]
pub(crate) fn next(view: &View, k: &mut usize, regs: &[u32; 32], ram: &[u8]) -> Event
    requires { k.old < word_count view.now }
    ensures event { result ≡ Went }
    ensures core { core_at view.now k.new regs.now ram.now ≡ (went (core_at view.now k.old regs.now ram.now) (plus (pc_at view.now k.old) 4)).core }
    ensures place { k.new ≤ word_count view.now }
{
    view.facts();
    *k += 1;
    Event::Went
}

/// Writes the value to the register rd.
#[inline(always)]
pub(crate) fn set(
    view: &View,
    k: &mut usize,
    regs: &mut [u32; 32],
    ram: &[u8],
    rd: u8,
    value: u32,
) -> Event
    requires place { k.old < word_count view.now }
    requires some { 0 < rd }
    requires rd { rd < 32 }
    ensures event { result ≡ Went }
    ensures core { core_at view.now k.new regs.new ram.now
        ≡ (went_with (core_at view.now k.old regs.old ram.now) (plus (pc_at view.now k.old) 4) rd value).core }
    ensures place { k.new ≤ word_count view.now }
{
    view.facts();
    regs[rd as usize] = value;
    *k += 1;
    Event::Went
}

/// A branch, which continues at its target if it is taken.
#[inline(always)]
pub(crate) fn branch(
    view: &View,
    k: &mut usize,
    regs: &[u32; 32],
    ram: &[u8],
    slot: &Instr,
    taken: bool,
) -> Event
    requires place { k.old < word_count view.now }
    requires target { slot.now.imm < word_count view.now }
    requires rd { slot.now.rd ≡ 0 }
    ensures event { result ≡ (apply view.now (core_at view.now k.old regs.now ram.now) slot.now.rd
        (branch_if taken (plus (pc_at view.now k.old) (minus (pc_at view.now slot.now.imm) (pc_at view.now k.old))))).event }
    ensures core { core_at view.now k.new regs.now ram.now ≡ (apply view.now (core_at view.now k.old regs.now ram.now) slot.now.rd
        (branch_if taken (plus (pc_at view.now k.old) (minus (pc_at view.now slot.now.imm) (pc_at view.now k.old))))).core }
    ensures place { k.new ≤ word_count view.now }
{
    view.facts();
    if taken {
        *k = slot.imm as usize;
        Event::Went
    } else {
        next(view, k, regs, ram)
    }
}

/// JAL.
#[inline(always)]
pub(crate) fn call(
    view: &View,
    k: &mut usize,
    regs: &mut [u32; 32],
    ram: &[u8],
    slot: &Instr,
) -> Event
    requires place { k.old < word_count view.now }
    requires target { slot.now.imm < word_count view.now }
    requires rd { slot.now.rd < 32 }
    ensures event { result ≡ (jump (core_at view.now k.old regs.old ram.now) slot.now.rd (plus (pc_at view.now k.old) 4)
        (plus (pc_at view.now k.old) (minus (pc_at view.now slot.now.imm) (pc_at view.now k.old)))).event }
    ensures core { core_at view.now k.new regs.new ram.now ≡ (jump (core_at view.now k.old regs.old ram.now) slot.now.rd
        (plus (pc_at view.now k.old) 4) (plus (pc_at view.now k.old) (minus (pc_at view.now slot.now.imm) (pc_at view.now k.old)))).core }
    ensures place { k.new ≤ word_count view.now }
{
    view.facts();
    let link = view.pc_of(*k + 1);
    put_reg(regs, slot.rd, link);
    *k = slot.imm as usize;
    Event::Went
}

/// JALR to a word of ROM.
#[inline(always)]
pub(crate) fn jump(
    view: &View,
    k: &mut usize,
    regs: &mut [u32; 32],
    ram: &[u8],
    slot: &Instr,
    target: u32,
) -> Option<Event>
    requires place { k.old < word_count view.now }
    requires rd { slot.now.rd < 32 }
    ensures event { IfSome result (λ event. event ≡ (jump (core_at view.now k.old regs.old ram.now) slot.now.rd (plus (pc_at view.now k.old) 4) target).event) }
    ensures core { OnSome result (core_at view.now k.new regs.new ram.now
        ≡ (jump (core_at view.now k.old regs.old ram.now) slot.now.rd (plus (pc_at view.now k.old) 4) target).core) }
    ensures none { IfNone result (core_at view.now k.new regs.new ram.now ≡ core_at view.now k.old regs.old ram.now) }
    ensures place { k.new ≤ word_count view.now }
{
    view.facts();
    match view.place_of(target) {
        Some(place) => {
            let link = view.pc_of(*k + 1);
            put_reg(regs, slot.rd, link);
            *k = place;
            Some(Event::Went)
        }
        None => None,
    }
}

// A load outside RAM. A misaligned one traps.
#[inline(always)]
fn load_rom(
    view: &View,
    k: &mut usize,
    regs: &mut [u32; 32],
    ram: &[u8],
    rd: u8,
    size: Size,
    signed: bool,
    at: u32,
) -> Event
    requires place { k.old < word_count view.now }
    requires some { 0 < rd }
    requires rd { rd < 32 }
    requires away { is_aligned size at ≡ true → place_in view.now.ram_base ram.now (count_of size) at ≡ None }
    ensures event { result ≡ (load view.now (core_at view.now k.old regs.old ram.now) rd size signed at).event }
    ensures core { core_at view.now k.new regs.new ram.now ≡ (load view.now (core_at view.now k.old regs.old ram.now) rd size signed at).core }
    ensures place { k.new ≤ word_count view.now }
{
    if !is_aligned(size, at) {
        return Event::Trapped(TrapKind::Misaligned);
    }
    match view.rom_number(size, at) {
        Some(n) => set(view, k, regs, ram, rd, widened(size, signed, n)),
        None => Event::Trapped(TrapKind::Address),
    }
}

/// A load, whose rs1 holds `a`.
#[inline(always)]
pub(crate) fn load(
    view: &View,
    k: &mut usize,
    regs: &mut [u32; 32],
    ram: &[u8],
    slot: &Instr,
    a: u32,
    size: Size,
    signed: bool,
) -> Event
    requires ram { length ram.now ≡ length view.now.ram }
    requires place { k.old < word_count view.now }
    requires some { 0 < slot.now.rd }
    requires rd { slot.now.rd < 32 }
    ensures event { result ≡ (load view.now (core_at view.now k.old regs.old ram.now) slot.now.rd size signed (plus a slot.now.imm)).event }
    ensures core { core_at view.now k.new regs.new ram.now
        ≡ (load view.now (core_at view.now k.old regs.old ram.now) slot.now.rd size signed (plus a slot.now.imm)).core }
    ensures place { k.new ≤ word_count view.now }
{
    let at = a.wrapping_add(slot.imm);
    match view.ram_aligned(ram, size, at) {
        Some(place) => {
            let n = number_at(size, ram, place);
            set(view, k, regs, ram, slot.rd, widened(size, signed, n))
        }
        None => load_rom(view, k, regs, ram, slot.rd, size, signed, at),
    }
}

// A store outside RAM. A misaligned one traps, and one to a port is sent.
#[inline(always)]
fn store_away(
    view: &View,
    k: &mut usize,
    regs: &[u32; 32],
    ram: &[u8],
    size: Size,
    at: u32,
    value: u32,
) -> Event
    requires place { k.old < word_count view.now }
    requires away { is_aligned size at ≡ true → place_in view.now.ram_base ram.now (count_of size) at ≡ None }
    ensures event { result ≡ (store view.now (core_at view.now k.old regs.now ram.now) size at value).event }
    ensures core { core_at view.now k.new regs.now ram.now ≡ (store view.now (core_at view.now k.old regs.now ram.now) size at value).core }
    ensures place { k.new ≤ word_count view.now }
{
    view.facts();
    if !is_aligned(size, at) {
        return Event::Trapped(TrapKind::Misaligned);
    }
    match at {
        OUT_PORT => {
            *k += 1;
            Event::Out((value % 256) as u8)
        }
        DETECT_PORT => Event::Detected,
        HALT_PORT => Event::Halted(low_of(size, value)),
        _ => Event::Trapped(TrapKind::Address),
    }
}

/// Stores the low bytes of the value at the address.
#[inline(always)]
pub(crate) fn store(
    view: &View,
    k: &mut usize,
    regs: &[u32; 32],
    ram: &mut [u8],
    marks: &mut [bool; BLOCKS],
    size: Size,
    at: u32,
    value: u32,
) -> Event
    requires ram { HasMarks view.now.ram ram.old marks.old }
    requires place { k.old < word_count view.now }
    ensures event { result ≡ (store view.now (core_at view.now k.old regs.now ram.old) size at value).event }
    ensures core { core_at view.now k.new regs.now ram.new ≡ (store view.now (core_at view.now k.old regs.now ram.old) size at value).core }
    ensures place { k.new ≤ word_count view.now }
    ensures marks { HasMarks view.now.ram ram.new marks.new }
{
    view.facts();
    match view.ram_aligned(ram, size, at) {
        Some(place) => {
            put_marked(size, ram, marks, place, value);
            next(view, k, regs, ram)
        }
        None => store_away(view, k, regs, ram, size, at, value),
    }
}
