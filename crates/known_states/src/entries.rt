//! A part of the table, which lies under a lock of its own.
ghost use Rattle.std.specs.Prelude.{[], ◌≡◌, ◌≤◌, All, IfOk, IfSome, length, true};
ghost use Rattle.known_states.specs.Entries.{AreEmpty, IsKnownToAll};

use crate::keys::Key;
use fs_model::{NoMemory, Outcome};
use shared_sites::KnownCase;
use std::alloc::Global;
use std::marker::{Model, PhantomData};

// A key, with its outcome once one was learned.
#[derive(Drop)]
pub(crate) struct Entry {
    key: Key,
    outcome: Option<Outcome>,
}

/// Some places. Each holds the key that was learned last for it.
#[derive(Drop)]
pub(crate) struct Part<K: KnownCase> {
    // The stored states from which the keys differ.
    spacing: u32,
    count: u32,
    entries: Vec<Entry>,
    of: PhantomData<K>,
}

impl<K: KnownCase> Model for Part<K> {
    ghost use Rattle.snapshot_store.specs.Stored.{SnapsData};
    ghost use Rattle.known_states.specs.Entries.{AreEntries};

    ghost Value = { SnapsData };

    ghost view = { λ p. record { case = K.case; spacing = p.spacing; count = p.count } };

    ghost invariant = { λ p. AreEntries (record { case = K.case; spacing = p.spacing; count = p.count }) p.entries.items };
}

// Adds entries without outcomes to an empty list.
fn add_empty(
    alloc: Global,
    entries: &mut Vec<Entry>,
    places: usize,
    room: usize,
) -> Result<(), NoMemory>
    requires { entries.old.items ≡ [] }
    ensures { IfOk result (λ _. AreEmpty places entries.new.items) }
{
    for _ in 0..places {
        entries.push(Entry {
            key: Key::new(alloc, room)?,
            outcome: None,
        })?;
    }
    Ok(())
}

impl<K: KnownCase> Part<K> {
    /// Makes a part without keys, of `places` places, each with room for `room` bytes that differ from the stored
    /// states of this spacing and count. Takes all its memory.
    ///
    /// # Errors
    ///
    /// `NoMemory` if memory is refused.
    pub(crate) fn new(
        alloc: Global,
        spacing: u32,
        count: u32,
        places: usize,
        room: usize,
    ) -> Result<Part<K>, NoMemory>
        requires { 1 ≤ places }
    {
        let mut entries = Vec::new(alloc);
        match add_empty(alloc, &mut entries, places, room) {
            Ok(()) => Ok(Part {
                spacing,
                count,
                entries,
                of: PhantomData,
            }),
            Err(refused) => {
                drop(entries);
                Err(refused)
            }
        }
    }

    /// Returns whether the keys differ from the stored states of this spacing and count.
    pub(crate) fn is_of(&self, spacing: u32, count: u32) -> bool
        ensures { result ≡ true → self.now ≡ record { case = K.case; spacing = spacing; count = count } }
    {
        self.spacing == spacing && self.count == count
    }

    /// Returns the outcome of the states that the key represents, if the place with this number has it.
    pub(crate) fn find(&self, number: usize, key: &Key) -> Option<Outcome>
        ensures { IfSome result (λ outcome. IsKnownToAll self.now key.now outcome) }
    {
        let entry = &self.entries[number % self.entries.len()];
        if entry.key.same(key) {
            entry.outcome
        } else {
            None
        }
    }

    /// Stores the outcome of the states that a key represents in the place with this number.
    pub(crate) fn learn(&mut self, number: usize, key: &Key, outcome: Outcome)
        requires { IsKnownToAll self.old key.now outcome }
    {
        let place = number % self.entries.len();
        let entry = &mut self.entries[place];
        entry.outcome = if entry.key.copy_from(key) {
            Some(outcome)
        } else {
            None
        };
    }
}
