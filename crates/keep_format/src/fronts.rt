//! The rest of a run of rows whose names ascend.
ghost use Rattle.std.specs.Prelude.{◌≡◌, Some, IfSome, true, false};
ghost use Rattle.keep_format.specs.KeepFile.{apart, disagree};
ghost use Rattle.keep_format.specs.Order.{is_before};
ghost use Rattle.keep_format.specs.Runs.{Ascends, front_of, first_row_of, name_in, run_of, starts_before, tail_of};

use crate::agreement::agree;
use crate::order::{Name, is_before};
use crate::reading::RowIter;
use crate::rows::{KeptRow, byte_of};
use std::default::Default;
use std::marker::Model;

/// The rows that are left of a run.
#[derive(Drop)]
pub(crate) struct Front<'f> {
    rows: RowIter<'f>,
    first: Option<KeptRow>,
}

impl<'f> Model for Front<'f> {
    ghost use Rattle.std.specs.Prelude.{List};
    ghost use Rattle.keep_format.specs.declared.rows.KeptRow.{KeptRow};
    ghost use Rattle.keep_format.specs.Runs.{front_of};

    ghost Value = { List KeptRow };

    ghost view = { λ f. front_of f.first f.rows };
}

/// Returns the name of a row.
pub(crate) fn name_of(row: KeptRow) -> Name
    ensures { result ≡ name_in row }
{
    let KeptRow {
        cycle,
        cell,
        bit,
        ..
    } = row;
    Name { cycle, cell, bit }
}

fn disagree(a: KeptRow, b: KeptRow) -> bool
    ensures { result ≡ disagree a b }
{
    a.cycle == b.cycle
        && a.cell == b.cell
        && a.bit == b.bit
        && !agree(byte_of(a.outcome), byte_of(b.outcome))
}

impl<'f> Default for Front<'f> {
    fn default() -> Front<'f> {
        Front {
            rows: RowIter::default(),
            first: None,
        }
    }
}

impl<'f> Front<'f> {
    /// Returns the run that begins with this row, followed by those of `rows` that belong to it.
    pub(crate) fn new(first: KeptRow, rows: RowIter<'f>) -> Front<'f>
        ensures run { result ≡ front_of (Some first) rows.entry }
        ensures ascends { Ascends result }
    {
        Front {
            rows,
            first: Some(first),
        }
    }

    /// Returns the same rows, to be read again.
    pub(crate) fn again(&self) -> Front<'f>
        ensures { result ≡ self.now }
    {
        Front {
            rows: self.rows.again(),
            first: self.first,
        }
    }

    fn first(&self) -> Option<KeptRow>
        ensures { result ≡ first_row_of self.now }
    {
        self.first
    }

    // Drops the first row.
    fn advance(&mut self)
        ensures { self.new ≡ tail_of self.old }
    {
        let Some(first) = self.first else {
            return;
        };
        self.first = match self.rows.next() {
            Some(row) => {
                if is_before(name_of(first), name_of(row)) {
                    Some(row)
                } else {
                    None
                }
            }
            None => None,
        };
    }

    // Drops the rows before a name.
    fn pass(&mut self, name: Name)
        requires ascends { Ascends self.old }
        ensures ascends { Ascends self.new }
        ensures later { (row : KeptRow) → is_before (name_in row) name ≡ false → apart self.new row ≡ apart self.old row }
        ensures first { IfSome (first_row_of self.new) (λ row. is_before (name_in row) name ≡ false) }
    {
        'passed: while self.starts_before(name) {
            self.advance();
        }
    }

    fn starts_before(&self, name: Name) -> bool
        ensures { result ≡ starts_before self.now name }
    {
        match self.first() {
            Some(row) => is_before(name_of(row), name),
            None => false,
        }
    }

    /// Returns the offset of the row that disagrees with this one. Drops the rows up to its name.
    pub(crate) fn apart(&mut self, row: KeptRow) -> Option<u64>
        requires ascends { Ascends self.old }
        ensures apart { result ≡ apart self.old row }
        ensures ascends { Ascends self.new }
        ensures later { (later : KeptRow) → is_before (name_in row) (name_in later) ≡ true → apart self.new later ≡ apart self.old later }
    {
        self.pass(name_of(row));
        let first = self.first()?;
        if disagree(first, row) {
            Some(first.at)
        } else {
            None
        }
    }
}
