//! Keys, which represent states.

ghost use Rattle.std.specs.Prelude.{ℕ, ◌≡◌, ◌<◌, ◌≤◌, ◌==◌, true, length, slice_index};
ghost use Rattle.std.specs.Int.{bit_at};
ghost use Rattle.dead_cells.specs.Live.{IsLiveness};
ghost use Rattle.live_registers.specs.Masks.{live_of};
ghost use Rattle.known_states.specs.Known.{AreAlike, here, stands_for};
ghost use Rattle.known_states.specs.Live.{live_only};

use crate::changes::{Change, same_changes};
use crate::differing::changes_since;
use fs_model::NoMemory;
use live_registers::LiveRegisters;
use rv_machine::Machine;
use snapshot_store::Snaps;
use std::alloc::Global;
use std::marker::Model;

/// A state of a run at a cycle: the registers that are live at its pc, the bytes of RAM that differ from the golden run's stored state
/// below, and the number of golden bytes that were sent, or `None` if another byte was sent.
#[derive(Drop)]
pub struct Key {
    cycle: u32,
    sent: Option<usize>,
    pc: u32,
    registers: [u32; 32],
    changes: Vec<Change>,
    // A hash of the rest.
    hash: u32,
}

impl Model for Key {
    ghost use Rattle.known_states.specs.Known.{KeyData};

    ghost Value = { KeyData };

    ghost view = { λ k. record { cycle = k.cycle; sent = k.sent; pc = k.pc; registers = k.registers; changes = k.changes.items } };
}

// Returns whether register `k` is in the mask. The compiler makes vector operations of this test, and a jump of one
// that shifts the mask.
#[inline(always)]
pub(crate) fn is_in(mask: u32, k: usize) -> bool
    requires { k < 32 }
    ensures { result ≡ (bit_at mask k == 1) }
{
    mask & (1 << k) != 0
}

// Returns what register `k` holds, or 0 if it is not in the mask.
#[inline(always)]
fn if_live(registers: &[u32; 32], mask: u32, k: usize) -> u32
    requires { k < 32 }
    ensures { result ≡ live_only mask registers.now k }
{
    let register = registers[k];
    if is_in(mask, k) { register } else { 0 }
}

// Returns the registers of a mask, and 0 in place of the others.
#[inline(always)]
fn live_only(registers: &[u32; 32], mask: u32) -> [u32; 32]
    ensures size { length result ≡ 32 }
    ensures each { (k : ℕ) → k < 32 → slice_index result k ≡ live_only mask registers.now k }
{
    let mut kept = [0; 32];
    for k in 0..32 {
        kept[k] = if_live(registers, mask, k);
    }
    kept
}

impl Key {
    /// Makes a key of an arbitrary state, with room for `room` bytes that differ.
    ///
    /// # Errors
    ///
    /// `NoMemory` if memory is refused.
    pub fn new(alloc: Global, room: usize) -> Result<Key, NoMemory> {
        Ok(Key {
            cycle: 0,
            sent: None,
            pc: 0,
            registers: [0; 32],
            changes: Vec::with_capacity(alloc, room)?,
            hash: 0,
        })
    }

    /// Sets the key to that of the machine's state, without the registers that are not live there: it represents
    /// states that end alike. Returns `false` if more bytes differ than there is room for;
    /// then the key must not be used.
    pub fn set(
        &mut self,
        snaps: &Snaps,
        live: &LiveRegisters,
        machine: &Machine,
        cycle: u32,
        sent: Option<usize>,
    ) -> bool
        requires case { machine.now.case ≡ snaps.now.case }
        requires some { 1 ≤ snaps.now.count }
        requires live { IsLiveness snaps.now.case (live_of live.now) }
        ensures { result ≡ true → AreAlike snaps.now.case (stands_for snaps.now self.new) (here machine.now cycle sent) }
    {
        let base = snaps.below(cycle).machine();
        self.cycle = cycle;
        self.sent = sent;
        self.pc = machine.pc();
        machine.facts();
        let registers = live_only(machine.registers(), live.mask(machine.pc()));
        self.registers = registers;
        let has_room = changes_since(base, machine, &mut self.changes);
        self.hash = self.computed_hash();
        has_room
    }

    /// Copies another key. Returns `false` if there is not enough room.
    pub fn copy_from(&mut self, other: &Key) -> bool
        ensures { result ≡ true → self.new ≡ other.now }
    {
        self.cycle = other.cycle;
        self.sent = other.sent;
        self.pc = other.pc;
        self.registers = other.registers;
        self.hash = other.hash;
        self.changes.clear();
        self.changes.capacity() >= other.changes.len()
            && self
                .changes
                .extend_from_slice(other.changes.as_slice())
                .is_ok()
    }

    /// Returns whether both keys are the same. Then they represent the same states.
    pub fn same(&self, other: &Key) -> bool
        ensures { result ≡ true → self.now ≡ other.now }
    {
        self.hash == other.hash
            && self.cycle == other.cycle
            && self.sent == other.sent
            && self.pc == other.pc
            && self.registers == other.registers
            && same_changes(self.changes.as_slice(), other.changes.as_slice())
    }

    /// Returns a hash of the key.
    pub(crate) fn hash(&self) -> u32 {
        self.hash
    }

    // Computes the hash.
    fn computed_hash(&self) -> u32 {
        let mut hash = ((self.cycle as u64) << 32) | self.pc as u64;
        let mut factor: u64 = 0x9E37_79B9_7F4A_7C15;
        for k in 0..16 {
            // Two registers at once take half as long.
            let high = (self.registers[2 * k + 1] as u64) << 32;
            let pair = high | self.registers[2 * k] as u64;
            hash = hash.wrapping_add(pair.wrapping_mul(factor));
            factor = factor.wrapping_mul(0xD6E8_FEB8_6659_FD93);
        }
        for change in &self.changes {
            hash ^= ((change.place as u64) << 8) | change.byte as u64;
            hash = hash.wrapping_mul(0xD6E8_FEB8_6659_FD93);
            hash ^= hash >> 29;
        }
        hash = (hash ^ (hash >> 32)).wrapping_mul(0xD6E8_FEB8_6659_FD93);
        (hash >> 32) as u32
    }
}
