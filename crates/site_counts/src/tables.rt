//! Lines given by a table.

ghost use Rattle.std.specs.Prelude.{◌≡◌, ℕ, ◌+◌, ◌<◌, true, slice_index_or};
ghost use Rattle.site_counts.specs.Lines.{bounded, line_in};

use crate::lines::Lines;
use std::marker::Model;

/// The line of each cycle, or of each cell. What is not in the table belongs to the last line.
#[derive(Drop)]
pub struct Table<'t> {
    pub lines: &'t [u32],
    pub last: u32,
    pub by_cell: bool,
}

impl<'t> Model for Table<'t> {
    ghost use Rattle.site_counts.specs.Lines.{LineTableData};

    ghost Value = { LineTableData };

    ghost view = { λ t. record { lines = t.lines.now; last = t.last; by_cell = t.by_cell } };
}

impl<'t> Table<'t> {
    /// Does nothing. Its contract states that each line exists, and that a line by cell is the same at each
    /// cycle.
    pub fn facts(&self)
        ensures low { (cycle cell : ℕ) → line_in self.now cycle cell < self.now.last + 1 }
        ensures by_cell { self.now.by_cell ≡ true → (cycle cell : ℕ) → line_in self.now cycle cell ≡ line_in self.now 0 cell }
    {}
}

// Returns the line at an index, or the last.
fn line_at(lines: &[u32], last: u32, at: usize) -> u32
    ensures { result ≡ bounded (slice_index_or lines.now at last) last }
{
    if at < lines.len() {
        let line = lines[at];
        if line < last { line } else { last }
    } else {
        last
    }
}

impl<'t> Lines for Table<'t> {
    ghost use Rattle.std.specs.Prelude.{◌≡◌, ◌<◌, ℕ, ◌+◌};
    ghost use Rattle.site_counts.specs.Lines.{LineTableData, line_in};

    ghost count = { λ t. t.last + 1 };

    ghost line = { line_in };

    #[tactic(auto, unfolding(crate::specs::Lines::line_in))]
    fn line_of(&self, cycle: u32, cell: u32) -> usize {
        let at = if self.by_cell { cell } else { cycle };
        line_at(self.lines, self.last, at as usize) as usize
    }
}
