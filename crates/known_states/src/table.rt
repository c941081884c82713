//! The table of keys whose outcome is known, shared by threads.

ghost use Rattle.std.specs.Prelude.{◌≡◌, ◌≤◌, All, IfOk, IfSome, length};
ghost use Rattle.dead_cells.specs.Live.{IsLiveness};
ghost use Rattle.golden_trace.specs.Goldens.{IsGolden};
ghost use Rattle.live_registers.specs.Masks.{live_of};
ghost use Rattle.known_states.specs.Known.{IsKnown, stands_for};

use crate::entries::Part;
use crate::keys::Key;
use crate::trail::Trail;
use crossbeam_utils::CachePadded;
use fs_model::{Case, NoMemory, Outcome};
use golden_trace::Golden;
use live_registers::LiveRegisters;
use shared_sites::KnownCase;
use snapshot_store::Snaps;
use std::alloc::Global;
use std::marker::Model;
use std::sync::Mutex;

/// A table of keys, each with the outcome of the states that it represents, for several threads. A key has exactly
/// one place, which holds the key that was learned last for it. Each part of the places has a lock.
#[derive(Drop)]
pub struct Table<'c, K: KnownCase> {
    case: &'c Case,
    golden: &'c Golden,
    // The stored states from which the keys differ.
    spacing: u32,
    count: u32,
    live: LiveRegisters,
    // Each lock has cache lines of its own, because other threads take theirs at the same time.
    parts: Vec<CachePadded<Mutex<Part<K>>>>,
}

impl<'c, K: KnownCase> Model for Table<'c, K> {
    ghost use Rattle.std.specs.Prelude.{vec_len};
    ghost use Rattle.known_states.specs.Known.{TableData};
    ghost use Rattle.known_states.specs.Entries.{IsTable};

    ghost Value = { TableData };

    ghost view = { λ t. record { snaps = record { case = t.case.now; spacing = t.spacing; count = t.count }; golden = t.golden.now } };

    ghost invariant = { λ t. IsTable K.case t.case.now t.golden.now t.live (vec_len t.parts) };
}

impl<'c, K: KnownCase> Table<'c, K> {
    /// Makes a table without keys, of `parts` parts with `places` places each, which have room for `room` bytes that
    /// differ. Takes all its memory.
    ///
    /// # Errors
    ///
    /// `NoMemory` if memory is refused.
    pub fn new(
        alloc: Global,
        case: &'c Case,
        golden: &'c Golden,
        snaps: &Snaps,
        parts: usize,
        places: usize,
        room: usize,
    ) -> Result<Table<'c, K>, NoMemory>
        requires parts { 1 ≤ parts }
        requires places { 1 ≤ places }
        requires own { case.now ≡ K.case }
        requires golden { IsGolden case.now golden.now }
        requires case { snaps.now.case ≡ case.now }
        requires count { snaps.now.count ≡ length golden.now.touches }
        ensures { IfOk result (λ t. t ≡ record { snaps = snaps.now; golden = golden.now }) }
    {
        let spacing = snaps.spacing();
        let count = golden.count();
        let mut list = Vec::with_capacity(alloc, parts)?;
        for _ in 0..parts {
            list.push(CachePadded::new(Mutex::new(Part::new(
                alloc, spacing, count, places, room,
            )?)))?;
        }
        let Ok(live) = LiveRegisters::new(alloc, case) else {
            drop(list);
            return Err(NoMemory);
        };
        Ok(Table {
            case,
            golden,
            spacing,
            count,
            live,
            parts: list,
        })
    }

    /// Returns the live registers of the case, which its keys have.
    pub fn live(&self) -> &LiveRegisters
        ensures { IsLiveness self.now.snaps.case (live_of result.now) }
    {
        &self.live
    }

    // Returns the part of a key.
    fn part(&self, key: &Key) -> &Mutex<Part<K>>
        ensures own { self.now.snaps.case ≡ K.case }
        ensures golden { IsGolden self.now.snaps.case self.now.golden }
    {
        &self.parts[key.hash() as usize % self.parts.len()]
    }

    // Returns the number of the place of a key in its part.
    fn place(&self, key: &Key) -> usize {
        key.hash() as usize / self.parts.len()
    }

    /// Returns the outcome of the states that the key represents, if it is known and no other thread has the lock of
    /// the key's part.
    pub fn find(&self, key: &Key) -> Option<Outcome>
        ensures { IfSome result (λ outcome. IsKnown self.now.snaps.case self.now.golden (stands_for self.now.snaps key.now) outcome) }
    {
        let part = self.part(key).try_lock()?;
        if part.is_of(self.spacing, self.count) {
            part.find(self.place(key), key)
        } else {
            None
        }
    }

    /// Stores the outcome of the states that a key represents, unless another thread has the lock of the key's part.
    pub fn learn(&self, key: &Key, outcome: Outcome)
        requires { IsKnown self.now.snaps.case self.now.golden (stands_for self.now.snaps key.now) outcome }
    {
        if let Some(mut part) = self.part(key).try_lock() {
            if part.is_of(self.spacing, self.count) {
                part.learn(self.place(key), key, outcome);
            }
        }
    }

    /// Stores the outcome of the states that the noted keys of a run represent.
    pub fn learn_all(&self, trail: &Trail, outcome: Outcome)
        requires { All (λ key. IsKnown self.now.snaps.case self.now.golden (stands_for self.now.snaps key) outcome) trail.now.keys }
    {
        for key in trail.keys() {
            self.learn(key, outcome);
        }
    }
}
