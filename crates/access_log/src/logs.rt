//! The log of a run: how its instructions touch the cells.

ghost use Rattle.std.specs.Prelude.{◌≡◌, ℕ, Bool, ◌+◌, ◌-◌, ◌<◌, ◌≤◌, Some, length, All, IfOk, IfSome, slice_index};
ghost use Rattle.fs_model.specs.Cell.{end_of_cells, first_cell};
ghost use Rattle.fs_model.specs.TouchList.{touch_in, IsAscendingWithin, IsTouches};
ghost use Rattle.fs_model.specs.AccessLog.{next_touch};
ghost use Rattle.fs_model.specs.Job.{log_of};
ghost use Rattle.fs_model.specs.Case.{max_limit};
ghost use Rattle.access_log.specs.Places.{IsTouchIndex};

use crate::index::{Index, index_of};
use fs_model::{Map, NoMemory, Touches, end_of_cells};
use std::alloc::Global;
use std::marker::Model;

/// How the instructions of a run touch the cells.
#[derive(Drop)]
pub struct Log<'t> {
    touches: &'t [Touches],
    ram: u32,
    pc: bool,
    index: Option<Index>,
}

impl<'t> Model for Log<'t> {
    ghost use Rattle.std.specs.Prelude.{◌≤◌, ◌+◌, length, All, IfSome};
    ghost use Rattle.fs_model.specs.Cell.{end_of_cells, first_cell};
    ghost use Rattle.fs_model.specs.TouchList.{IsTouches};
    ghost use Rattle.access_log.specs.LogData.{LogData, IsLog};
    ghost use Rattle.access_log.specs.Places.{IsTouchIndex};

    ghost Value = { LogData };

    ghost view = { λ l. record { touches = l.touches.now; ram = l.ram; pc = l.pc } };

    ghost invariant = { λ l. (IsLog l.touches.now l.ram l.pc)
        × (IfSome l.index (λ index. IsTouchIndex l.touches.now (end_of_cells l.ram) index.starts.items index.cycles.items)) };
}

// Returns whether these touches read the cell, or `None` if they do not touch it.
fn look(touches: &Touches, cell: u32) -> Option<bool>
    ensures { result ≡ touch_in touches.now cell }
{
    let list = touches.list();
    let touched = list.as_slice();
    for touch in touched {
        if touch.cell == cell {
            return Some(touch.reads);
        }
    }
    None
}

// Returns the first place from `low` up to `high` whose cycle is not below `from`, by binary search, or `high`.
fn first_from(cycles: &[u32], low: usize, high: usize, from: u32) -> usize
    requires range { low ≤ high }
    requires room { high ≤ length cycles.now }
    requires ascending { (i j : ℕ) → low ≤ i → i ≤ j → j < high → slice_index cycles.now i ≤ slice_index cycles.now j }
    ensures range { (low ≤ result) × (result ≤ high) }
    ensures below { (i : ℕ) → low ≤ i → i < result → slice_index cycles.now i < from }
    ensures above { (i : ℕ) → result ≤ i → i < high → from ≤ slice_index cycles.now i }
{
    let mut first = low;
    let mut end = high;
    while first < end {
        let middle = first + (end - first) / 2;
        if cycles[middle] < from {
            first = middle + 1;
        } else {
            end = middle;
        }
    }
    first
}

// Returns the next touch, by the index of these touches.
fn next_of(
    touches: &[Touches],
    index: &Index,
    cells: u32,
    cell: u32,
    from: u32,
) -> Option<(u32, bool)>
    requires few { length touches.now ≤ max_limit }
    requires ascending { All (λ list. IsAscendingWithin 0 cells list) touches.now }
    requires index { IsTouchIndex touches.now cells index.now.starts.items index.now.cycles.items }
    ensures { (ram : ℕ) (pc : Bool) → result ≡ next_touch (log_of touches.now ram pc) cell from }
{
    if cell >= cells {
        return None;
    }
    let cycles = index.cycles.as_slice();
    let low = index.starts[cell as usize];
    let high = index.starts[cell as usize + 1];
    let place = first_from(cycles, low, high, from);
    if place == high {
        return None;
    }
    let cycle = cycles[place];
    match look(&touches[cycle as usize], cell) {
        Some(reads) => Some((cycle, reads)),
        None => None,
    }
}

// Returns the next touch, by a search of one cycle after the other.
fn scan_from(touches: &[Touches], cell: u32, from: u32) -> Option<(u32, bool)>
    requires few { length touches.now ≤ max_limit }
    ensures { (ram : ℕ) (pc : Bool) → result ≡ next_touch (log_of touches.now ram pc) cell from }
{
    for cycle in from..touches.len() as u32 {
        match look(&touches[cycle as usize], cell) {
            Some(reads) => return Some((cycle, reads)),
            None => {}
        }
    }
    None
}

/// Returns the first of the `most` cycles from `from` on whose instruction touches the cell, and whether it reads the
/// cell, by a search of one cycle after the other. The result `None` means nothing: the cell may be touched later.
pub fn touch_soon(touches: &[Touches], cell: u32, from: u32, most: u32) -> Option<(u32, bool)>
    requires { length touches.now ≤ max_limit }
    ensures { IfSome result (λ found. (ram : ℕ) (pc : Bool) → next_touch (log_of touches.now ram pc) cell from ≡ Some found) }
{
    let end = u32::min(touches.len() as u32, from.saturating_add(most));
    for cycle in from..end {
        match look(&touches[cycle as usize], cell) {
            Some(reads) => return Some((cycle, reads)),
            None => {}
        }
    }
    None
}

impl<'t> Log<'t> {
    ghost use Rattle.access_log.specs.LogData.{IsLog, log_in};

    /// Returns the log of instructions with these touches, for callers that need no next touch: it takes no
    /// memory, and `next_touch` searches one cycle after the other. `pc` says whether the pc is a cell.
    pub fn without_index(touches: &'t [Touches], map: &Map, pc: bool) -> Log<'t>
        requires few { length touches.now ≤ max_limit }
        requires within { All (λ list. IsTouches (first_cell pc) (end_of_cells map.now.ram_size) list) touches.now }
        ensures { result ≡ record { touches = touches.now; ram = map.now.ram_size; pc = pc } }
    {
        map.facts();
        Log {
            touches,
            ram: map.ram_size(),
            pc,
            index: None,
        }
    }

    /// Returns the same log with an index, in which `next_touch` finds a cell's touches by binary search.
    ///
    /// # Errors
    ///
    /// `NoMemory` if memory for the index is refused.
    pub fn from_touches(
        alloc: Global,
        touches: &'t [Touches],
        map: &Map,
        pc: bool,
    ) -> Result<Log<'t>, NoMemory>
        requires few { length touches.now ≤ max_limit }
        requires within { All (λ list. IsTouches (first_cell pc) (end_of_cells map.now.ram_size) list) touches.now }
        ensures { IfOk result (λ l. l ≡ record { touches = touches.now; ram = map.now.ram_size; pc = pc }) }
    {
        map.facts();
        let ram = map.ram_size();
        let index = index_of(alloc, touches, end_of_cells(ram) as usize)?;
        Ok(Log {
            touches,
            ram,
            pc,
            index: Some(index),
        })
    }

    /// Returns the first cycle from `from` on that touches the cell, and whether it reads the cell.
    pub fn next_touch(&self, cell: u32, from: u32) -> Option<(u32, bool)>
        ensures { result ≡ next_touch (log_in self.now) cell from }
    {
        match &self.index {
            Some(index) => next_of(self.touches, index, end_of_cells(self.ram), cell, from),
            None => scan_from(self.touches, cell, from),
        }
    }

    /// Returns the touches of each instruction.
    pub fn touches(&self) -> &'t [Touches]
        ensures value { result.now ≡ self.now.touches }
        ensures kept { IsLog self.now.touches self.now.ram self.now.pc }
    {
        self.touches
    }

    /// Returns the number of bytes of RAM.
    pub fn ram(&self) -> u32
        ensures { result ≡ self.now.ram }
    {
        self.ram
    }

    /// Returns whether the pc is a cell.
    pub fn pc(&self) -> bool
        ensures { result ≡ self.now.pc }
    {
        self.pc
    }
}
