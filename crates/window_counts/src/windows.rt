//! Windows: sets of cycles of a run.

ghost use Rattle.std.specs.Prelude.{◌≡◌, ℕ, ◌+◌, ◌-◌, ◌^◌, ◌<◌, ◌≤◌, ◌&&◌, ◌++◌, ◌∷◌, [], ◌↔◌, IsTrue, length, map, IfOk, OnOk, nat_le, nat_lt, vec_len};
ghost use Rattle.std.specs.List.{range_with_len};
ghost use Rattle.window_counts.specs.Windows.{in_window, cycle_window, address_window, cycles_between, cycles_inside, window_len, weight_inside, IsDue};
ghost use Rattle.window_counts.specs.Before.{IsBefore, window_from};

use fs_model::{Job, NoMemory};
use std::alloc::Global;
use std::marker::Model;

/// A set of cycles of a run.
#[derive(Drop)]
pub struct Window {
    /// For each cycle the number of the window's cycles before it, and last the number of all.
    before: Vec<u32>,
}

impl Model for Window {
    ghost use Rattle.std.specs.Prelude.{List, Bool};
    ghost use Rattle.window_counts.specs.Before.{IsBefore, window_from};

    ghost Value = { List Bool };

    ghost view = { λ w. window_from w.before.items };

    ghost invariant = { λ w. IsBefore w.before.items };
}

// Returns the table of a window without cycles, with room for this number of cycles.
fn empty(alloc: Global, cycles: usize) -> Result<Vec<u32>, NoMemory>
    requires { cycles < 2 ^ 32 }
    ensures table { IfOk result (λ before. IsBefore before.items) }
    ensures window { IfOk result (λ before. window_from before.items ≡ []) }
    ensures count { IfOk result (λ before. vec_len before ≡ 1) }
{
    let mut before = Vec::with_capacity(alloc, cycles + 1)?;
    before.push(0)?;
    Ok(before)
}

// Adds the next cycle, which is in the window or not.
fn add(before: &mut Vec<u32>, inside: bool) -> Result<(), NoMemory>
    requires table { IsBefore before.old.items }
    requires room { vec_len before.old < 2 ^ 32 }
    ensures table { OnOk result (IsBefore before.new.items) }
    ensures window { OnOk result (window_from before.new.items ≡ window_from before.old.items ++ inside ∷ []) }
    ensures count { OnOk result (vec_len before.new ≡ vec_len before.old + 1) }
{
    let last = before[before.len() - 1];
    let next = if inside { last + 1 } else { last };
    before.push(next)?;
    Ok(())
}

// Returns the table of a window.
fn table_of(alloc: Global, flags: &[bool]) -> Result<Vec<u32>, NoMemory>
    requires { length flags.now < 2 ^ 32 }
    ensures table { IfOk result (λ before. IsBefore before.items) }
    ensures window { IfOk result (λ before. window_from before.items ≡ flags.now) }
{
    let mut before = empty(alloc, flags.len())?;
    for flag in flags {
        add(&mut before, *flag)?;
    }
    Ok(before)
}

// Returns the table of the window of the cycles from `first` to `last`.
fn table_of_cycles(alloc: Global, cycles: u32, first: u32, last: u32) -> Result<Vec<u32>, NoMemory>
    ensures table { IfOk result (λ before. IsBefore before.items) }
    ensures window { IfOk result (λ before. window_from before.items ≡ cycle_window cycles first last) }
{
    let mut before = empty(alloc, cycles as usize)?;
    for cycle in 0..cycles {
        add(&mut before, first <= cycle && cycle <= last)?;
    }
    Ok(before)
}

// Returns the table of the window of the instructions with addresses from `first` to `last`.
fn table_of_addresses(
    alloc: Global,
    pcs: &[u32],
    first: u32,
    last: u32,
) -> Result<Vec<u32>, NoMemory>
    requires { length pcs.now < 2 ^ 32 }
    ensures table { IfOk result (λ before. IsBefore before.items) }
    ensures window { IfOk result (λ before. window_from before.items ≡ address_window pcs.now first last) }
{
    let mut before = empty(alloc, pcs.len())?;
    for pc in pcs {
        add(&mut before, first <= *pc && *pc <= last)?;
    }
    Ok(before)
}

impl Window {
    /// Returns the window with the cycles whose flags are set, of a run of as many cycles as there are flags.
    ///
    /// # Errors
    ///
    /// `NoMemory` if memory for the window is refused: 4 bytes for each cycle.
    pub fn new(alloc: Global, flags: &[bool]) -> Result<Window, NoMemory>
        requires { length flags.now < 2 ^ 32 }
        ensures { IfOk result (λ window. window ≡ flags.now) }
    {
        let before = table_of(alloc, flags)?;
        Ok(Window { before })
    }

    /// Returns the window of the cycles from `first` to `last`, of a run of `cycles` cycles.
    ///
    /// # Errors
    ///
    /// `NoMemory` if memory for the window is refused.
    pub fn of_cycles(alloc: Global, cycles: u32, first: u32, last: u32) -> Result<Window, NoMemory>
        ensures window { IfOk result (λ window. window ≡ cycle_window cycles first last) }
        ensures cycles { IfOk result (λ window. length window ≡ cycles) }
    {
        let before = table_of_cycles(alloc, cycles, first, last)?;
        Ok(Window { before })
    }

    /// Returns the window of the instructions with addresses from `first` to `last`, of a run whose instructions
    /// have these addresses.
    ///
    /// # Errors
    ///
    /// `NoMemory` if memory for the window is refused.
    pub fn of_addresses(
        alloc: Global,
        pcs: &[u32],
        first: u32,
        last: u32,
    ) -> Result<Window, NoMemory>
        requires { length pcs.now < 2 ^ 32 }
        ensures window { IfOk result (λ window. window ≡ address_window pcs.now first last) }
        ensures cycles { IfOk result (λ window. length window ≡ length pcs.now) }
    {
        let before = table_of_addresses(alloc, pcs, first, last)?;
        Ok(Window { before })
    }

    /// Returns the number of cycles of the run.
    pub fn cycles(&self) -> u32
        ensures { result ≡ length self.now }
    {
        (self.before.len() - 1) as u32
    }

    /// Returns the number of cycles in the window.
    pub fn len(&self) -> u32
        ensures { result ≡ window_len self.now }
    {
        self.before[self.before.len() - 1]
    }

    // Returns the number of cycles in the window from `start` on and before `end`.
    fn between(&self, start: usize, end: usize) -> u32
        ensures { result ≡ cycles_between self.now start end }
    {
        let before = self.before.as_slice();
        let cycles = before.len() - 1;
        let end = if end < cycles { end } else { cycles };
        let start = if start < end { start } else { end };
        before[end] - before[start]
    }

    /// Returns the number of cycles in the window from `first` to `last`.
    pub fn inside(&self, first: u32, last: u32) -> u32
        ensures { result ≡ cycles_inside self.now first last }
    {
        self.between(first as usize, last as usize + 1)
    }

    /// Returns whether a cycle is in the window.
    pub fn has(&self, cycle: u32) -> bool
        ensures { result ≡ in_window self.now cycle }
    {
        self.inside(cycle, cycle) > 0
    }

    // Returns the number of cycles in the window of the jobs of a read.
    pub(crate) fn weight_at(&self, cycle: u32, weight: u32) -> u32
        ensures { result ≡ cycles_inside self.now (cycle + 1 - weight) cycle }
    {
        let end = cycle as usize + 1;
        self.between(end.saturating_sub(weight as usize), end)
    }

    /// Returns the number of a job's cycles in the window: its weight there.
    pub fn weight_inside(&self, job: &Job) -> u32
        ensures { result ≡ weight_inside self.now job.now }
    {
        self.weight_at(job.cycle, job.weight)
    }

    /// Returns whether at least one of a job's cycles is in the window.
    pub fn is_due(&self, job: &Job) -> bool
        ensures { IsTrue result ↔ IsDue self.now job.now }
    {
        self.weight_inside(job) > 0
    }
}
