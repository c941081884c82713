//! How a machine's state differs from that of another machine, apart from registers that are not live.

ghost use Rattle.std.specs.Prelude.{◌≡◌, ℕ, ◌^◌, ◌<◌, ◌≤◌, [], ◌∷◌, true, length, slice_index, bit_xor, IfNone, IfSome};
ghost use Rattle.dead_cells.specs.Live.{IsLiveness};
ghost use Rattle.live_registers.specs.Masks.{live_of, mask_at};
ghost use Rattle.known_states.specs.KnownSites.{IsDifference};
ghost use Rattle.known_states.specs.Live.{live_only};

use crate::changes::Change;
use crate::differing::changes_since;
use crate::keys::is_in;
use fs_model::{FIRST_BYTE, Site};
use live_registers::LiveRegisters;
use rv_machine::Machine;

/// How a state differs from another one, apart from registers that are not live.
#[derive(Clone, Copy)]
pub enum Apart {
    /// It does not differ.
    Nowhere,
    /// The bit of this site is flipped.
    InBit(Site),
}

// Returns whether register `k` is the same, or not in the mask.
#[inline(always)]
fn is_same(some: &[u32; 32], others: &[u32; 32], mask: u32, k: usize) -> bool
    requires { k < 32 }
    ensures { result ≡ true → live_only mask some.now k ≡ live_only mask others.now k }
{
    some[k] == others[k] || !is_in(mask, k)
}

// Returns the first register from `from` on that is in the mask and not the same.
fn first_apart(some: &[u32; 32], others: &[u32; 32], mask: u32, from: usize) -> Option<usize>
    requires { from ≤ 32 }
    ensures none { IfNone result ((k : ℕ) → from ≤ k → k < 32 → live_only mask some.now k ≡ live_only mask others.now k) }
    ensures some { IfSome result (λ r. (from ≤ r) × (r < 32)
        × ((k : ℕ) → from ≤ k → k < r → live_only mask some.now k ≡ live_only mask others.now k)) }
{
    for k in from..32 {
        if !is_same(some, others, mask, k) {
            return Some(k);
        }
    }
    None
}

// Returns the only bit in which two words differ.
fn flipped_in(base: u32, word: u32) -> Option<u32>
    ensures { IfSome result (λ bit. (bit < 32) × (word ≡ bit_xor base (2 ^ bit))) }
{
    let bit = (base ^ word).trailing_zeros();
    if bit < 32 && base ^ (1 << bit) == word {
        Some(bit)
    } else {
        None
    }
}

// Returns the bit of a byte that a change flips, if it flips one bit only.
fn flipped_bit(base: &[u8], change: Change) -> Option<u8>
    ensures byte { IfSome result (λ bit. change.byte ≡ bit_xor (slice_index base.now change.place) (2 ^ bit)) }
    ensures place { IfSome result (λ _. change.place < length base.now) }
    ensures bit { IfSome result (λ bit. bit < 8) }
{
    let place = change.place as usize;
    if place >= base.len() {
        return None;
    }
    let bit = (base[place] ^ change.byte).trailing_zeros();
    if bit < 8 && base[place] ^ (1 << bit) == change.byte {
        Some(bit as u8)
    } else {
        None
    }
}

// Returns whether there is no change.
fn are_none(changes: &[Change]) -> bool
    ensures { result ≡ true → changes.now ≡ [] }
{
    changes.is_empty()
}

// Returns the only change, if there is just one.
fn only(changes: &[Change]) -> Option<Change>
    ensures { IfSome result (λ change. changes.now ≡ change ∷ []) }
{
    match changes {
        [change] => Some(*change),
        _ => None,
    }
}

// Returns the site of a register's bit, if it is flipped and nothing else differs but registers that are not live.
// `register` is the first live one that differs.
fn apart_in_register(
    base: &Machine,
    machine: &Machine,
    live: &LiveRegisters,
    register: usize,
    cycle: u32,
    room: &mut Vec<Change>,
) -> Option<Apart>
    requires case { base.now.case ≡ machine.now.case }
    requires live { IsLiveness machine.now.case (live_of live.now) }
    requires pc { machine.now.core.pc ≡ base.now.core.pc }
    requires register { register < 32 }
    requires below { (k : ℕ) → k < register
        → live_only (mask_at live.now base.now.core.pc) machine.now.core.regs k ≡ live_only (mask_at live.now base.now.core.pc) base.now.core.regs k }
    ensures { IfSome result (λ apart. IsDifference machine.now.case base.now.core machine.now.core cycle apart) }
{
    if register == 0 {
        return None;
    }
    let bit = flipped_in(base.registers()[register], machine.registers()[register])?;
    let mask = live.mask(base.pc());
    if first_apart(machine.registers(), base.registers(), mask, register + 1).is_some() {
        return None;
    }
    if !changes_since(base, machine, room) || !are_none(room.as_slice()) {
        return None;
    }
    base.facts();
    machine.facts();
    Some(Apart::InBit(Site {
        cycle,
        cell: register as u32,
        bit: bit as u8,
    }))
}

// Returns how the RAM differs, if in one bit at most. The registers that are live are the same.
fn apart_in_ram(
    base: &Machine,
    machine: &Machine,
    live: &LiveRegisters,
    cycle: u32,
    room: &mut Vec<Change>,
) -> Option<Apart>
    requires case { base.now.case ≡ machine.now.case }
    requires live { IsLiveness machine.now.case (live_of live.now) }
    requires pc { machine.now.core.pc ≡ base.now.core.pc }
    requires same { (k : ℕ) → k < 32
        → live_only (mask_at live.now base.now.core.pc) machine.now.core.regs k ≡ live_only (mask_at live.now base.now.core.pc) base.now.core.regs k }
    ensures { IfSome result (λ apart. IsDifference machine.now.case base.now.core machine.now.core cycle apart) }
{
    let _ = live;
    if !changes_since(base, machine, room) {
        return None;
    }
    base.facts();
    machine.facts();
    if are_none(room.as_slice()) {
        return Some(Apart::Nowhere);
    }
    let change = only(room.as_slice())?;
    let bit = flipped_bit(base.ram(), change)?;
    let cell = change.place.checked_add(FIRST_BYTE)?;
    Some(Apart::InBit(Site { cycle, cell, bit }))
}

/// Returns how the machine's state differs from that of `base`, if at most in one bit of one register or byte of RAM,
/// apart from registers that are not live. `cycle` is that of both, and `room` is for the bytes of RAM that differ: if
/// it has no room for one, no difference in RAM is found. The pc is not compared bit by bit.
pub fn difference(
    base: &Machine,
    machine: &Machine,
    live: &LiveRegisters,
    cycle: u32,
    room: &mut Vec<Change>,
) -> Option<Apart>
    requires case { base.now.case ≡ machine.now.case }
    requires live { IsLiveness machine.now.case (live_of live.now) }
    ensures { IfSome result (λ apart. IsDifference machine.now.case base.now.core machine.now.core cycle apart) }
{
    if machine.pc() != base.pc() {
        return None;
    }
    // RAM is compared last, since most states differ in more than one register.
    let mask = live.mask(base.pc());
    match first_apart(machine.registers(), base.registers(), mask, 0) {
        Some(register) => apart_in_register(base, machine, live, register, cycle, room),
        None => apart_in_ram(base, machine, live, cycle, room),
    }
}
