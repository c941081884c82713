//! The registers that must be live at a word of ROM.

ghost use Rattle.std.specs.Prelude.{ℕ, ◌≡◌, ◌+◌, ◌*◌, ◌^◌, ◌<◌, ◌≤◌, ◌==◌, ◌&&◌, true, false, length};
ghost use Rattle.std.specs.Int.{bit_at};
ghost use Rattle.fs_model.specs.declared.instructions.Size.TheVariants.{Word};
ghost use Rattle.fs_model.specs.Decode.{HasRegisters};
ghost use Rattle.fs_model.specs.Memory.{number_at};
ghost use Rattle.dead_cells.specs.Live.{idle_after, sets_rd};
ghost use Rattle.live_registers.specs.Masks.{CoversInstr, CoversWord, live_of, mask_at};

use crate::flows::{Flow, flow_of, sets_rd};
use fs_model::{Case, Instr};
use rv_decode::decode;

// The mask in which all registers are live.
const ALL: u32 = 0xffff_ffff;

/// Returns the mask at `pc`, by those of the words from `base` on. All registers are live elsewhere.
#[inline]
#[tactic(auto, unfolding(crate::specs::Masks::mask_at))]
pub(crate) fn mask_at(base: u32, masks: &[u32], pc: u32) -> u32
    ensures { result ≡ mask_at (record { base = base; masks = masks.now }) pc }
{
    if pc < base {
        return ALL;
    }
    let place = pc - base;
    if place % 4 != 0 {
        return ALL;
    }
    let j = (place / 4) as usize;
    if j < masks.len() { masks[j] } else { ALL }
}

// Returns word `j` of ROM.
fn word_at(rom: &[u8], j: usize) -> u32
    requires { 4 * j + 4 ≤ length rom.now }
    ensures { result ≡ number_at Word rom.now (4 * j) }
{
    let at = 4 * j;
    rom[at] as u32
        + rom[at + 1] as u32 * 256
        + rom[at + 2] as u32 * 65536
        + rom[at + 3] as u32 * 16777216
}

// Returns the registers that are live where the instruction at `pc` may continue.
fn live_after(base: u32, masks: &[u32], instr: &Instr, pc: u32) -> u32
    ensures { (k : ℕ) → k < 32 → bit_at result k ≡ 0 → idle_after (live_of (record { base = base; masks = masks.now })) instr.now.op instr.now.imm pc k ≡ true }
{
    match flow_of(instr.op) {
        Flow::Straight => mask_at(base, masks, pc.wrapping_add(4)),
        Flow::Jump => mask_at(base, masks, pc.wrapping_add(instr.imm)),
        Flow::Branch => {
            mask_at(base, masks, pc.wrapping_add(instr.imm))
                | mask_at(base, masks, pc.wrapping_add(4))
        }
        Flow::Anywhere => ALL,
    }
}

// Leaves out the register that an instruction sets before it goes on.
fn without_set(instr: &Instr, after: u32) -> u32
    requires { HasRegisters instr.now }
    ensures { (k : ℕ) → k < 32 → bit_at result k ≡ 0 → (sets_rd instr.now.op && k == instr.now.rd) ≡ false → bit_at after k ≡ 0 }
{
    if sets_rd(instr.op) {
        after & !(1 << instr.rd)
    } else {
        after
    }
}

// Returns the registers that must be live before the instruction at `pc`: those that it reads, and those that are
// live after it and that it does not set.
fn live_before(base: u32, masks: &[u32], instr: &Instr, pc: u32) -> u32
    requires { HasRegisters instr.now }
    ensures { CoversInstr (live_of (record { base = base; masks = masks.now })) instr.now pc result }
{
    let after = live_after(base, masks, instr, pc);
    let kept = without_set(instr, after);
    kept | 1 << instr.rs1 | 1 << instr.rs2
}

/// Returns the registers that must be live at word `j` of ROM, by the masks of all words. A word that is no
/// instruction ends the run, and needs none.
pub(crate) fn live_at_word(case: &Case, masks: &[u32], j: usize) -> u32
    requires words { 4 * length masks.now ≤ length case.now.rom }
    requires word { j < length masks.now }
    ensures { CoversWord case.now (live_of (record { base = case.now.rom_base; masks = masks.now })) j result }
{
    case.facts();
    let base = case.rom_base();
    let word = word_at(case.rom(), j);
    // Most words of ROM hold no code, and are passed at once.
    if word == 0 {
        return 0;
    }
    match decode(word) {
        Some(instr) => live_before(base, masks, &instr, base + 4 * j as u32),
        None => 0,
    }
}
