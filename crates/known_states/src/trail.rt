//! The keys of states that a run has passed.

ghost use Rattle.std.specs.Prelude.{◌≡◌, ◌≤◌, [], IfOk, true};
ghost use Rattle.dead_cells.specs.Live.{IsLiveness};
ghost use Rattle.live_registers.specs.Masks.{live_of};
ghost use Rattle.known_states.specs.Known.{AreAlike, here, stands_for};
ghost use Rattle.known_states.specs.Trails.{IsNoted};

use crate::keys::Key;
use fs_model::NoMemory;
use live_registers::LiveRegisters;
use rv_machine::Machine;
use snapshot_store::Snaps;
use std::alloc::Global;
use std::marker::Model;

/// The key of a run's current state, and the keys of the states that were noted on the way.
#[derive(Drop)]
pub struct Trail {
    here: Key,
    keys: Vec<Key>,
    // The number of keys that were noted.
    count: usize,
    tally: Tally,
}

/// Counts of the looks at runs. They measure what the table saves, and no outcome depends on them.
#[derive(Clone, Copy, Default, Debug)]
pub struct Tally {
    /// Looks at a state that has a key.
    pub looks: u64,
    /// The looks among them at which the key was not known.
    pub misses: u64,
}

impl Model for Trail {
    ghost use Rattle.std.specs.Prelude.{take, ◌≤◌, length};
    ghost use Rattle.known_states.specs.Trails.{TrailData};

    ghost Value = { TrailData };

    ghost view = { λ t. record { here = t.here; keys = take t.count t.keys.items } };

    ghost invariant = { λ t. t.count ≤ length t.keys.items };
}

// Adds keys to a list.
fn add_keys(alloc: Global, list: &mut Vec<Key>, keys: usize, room: usize) -> Result<(), NoMemory> {
    for _ in 0..keys {
        list.push(Key::new(alloc, room)?)?;
    }
    Ok(())
}

impl Trail {
    /// Makes a trail without noted keys, with room for `keys` keys and, in each, for `room` bytes that differ.
    /// Takes all its memory.
    ///
    /// # Errors
    ///
    /// `NoMemory` if memory is refused.
    pub fn new(alloc: Global, keys: usize, room: usize) -> Result<Trail, NoMemory>
        ensures { IfOk result (λ t. t.keys ≡ []) }
    {
        let mut list = Vec::new(alloc);
        let added = add_keys(alloc, &mut list, keys, room);
        match added.and_then(|()| Key::new(alloc, room)) {
            Ok(here) => Ok(Trail {
                here,
                keys: list,
                count: 0,
                tally: Tally::default(),
            }),
            Err(refused) => {
                drop(list);
                Err(refused)
            }
        }
    }

    /// Forgets the noted keys.
    pub fn clear(&mut self)
        ensures { self.new ≡ record self.old { keys = [] } }
    {
        self.count = 0;
    }

    /// Sets the current state of the run to that of the machine. Returns `false` if the state has no key.
    pub fn set(
        &mut self,
        snaps: &Snaps,
        live: &LiveRegisters,
        machine: &Machine,
        cycle: u32,
        sent: Option<usize>,
    ) -> bool
        requires case { machine.now.case ≡ snaps.now.case }
        requires some { 1 ≤ snaps.now.count }
        requires live { IsLiveness snaps.now.case (live_of live.now) }
        ensures here { result ≡ true → AreAlike snaps.now.case (stands_for snaps.now self.new.here) (here machine.now cycle sent) }
        ensures keys { self.new.keys ≡ self.old.keys }
    {
        let has_key = self.here.set(snaps, live, machine, cycle, sent);
        if has_key {
            self.tally.looks = self.tally.looks.saturating_add(1);
        }
        has_key
    }

    /// Returns the key of the current state.
    pub fn here(&self) -> &Key
        ensures { result.now ≡ self.now.here }
    {
        &self.here
    }

    /// Notes the key of the current state, if there is room.
    pub fn note(&mut self)
        ensures { IsNoted self.old.keys self.old.here self.new.keys }
    {
        self.tally.misses = self.tally.misses.saturating_add(1);
        if self.count < self.keys.len() {
            let key = &mut self.keys[self.count];
            if key.copy_from(&self.here) {
                self.count += 1;
            }
        }
    }

    /// Returns the counts of looks since the trail was made.
    pub fn tally(&self) -> Tally {
        self.tally
    }

    /// Returns the noted keys, in their order.
    pub fn keys(&self) -> &[Key]
        ensures { result.now ≡ self.now.keys }
    {
        &self.keys[..self.count]
    }
}
