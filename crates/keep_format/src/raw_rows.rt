//! The rows of a file, one after the other, as numbers without a meaning.
ghost use Rattle.std.specs.Prelude.{◌≡◌, ◌+◌, ◌*◌, ◌≤◌, ◌<◌, length, drop, is_some, true};
ghost use Rattle.std.specs.Iterator.{YieldsFirst, item_count};
ghost use Rattle.keep_format.specs.KeepFile.{raw_row, batches_of};
ghost use Rattle.keep_format.specs.RawRows.{IsSpot, is_whole_batch, rows_left, raw_rows_of};

use crate::layout::{BATCH_HEAD, OPEN, ROW_LEN};
use crate::numbers::{half_at, word_at};
use std::marker::Model;

/// The bytes of a row as numbers, and the offset of the first byte.
#[derive(Clone, Copy)]
pub struct RawRow {
    pub at: u64,
    pub cycle: u32,
    pub cell: u32,
    pub bit: u8,
    pub code: u8,
}

// An offset in a batch, and the number of rows that follow in it.
#[derive(Clone, Copy)]
pub(crate) struct Spot {
    pub(crate) at: usize,
    pub(crate) left: usize,
}

/// The rows that are left of a file that has its closed gate.
#[derive(Drop)]
pub(crate) struct RawRows<'f> {
    file: &'f [u8],
    at: usize,
    left: usize,
}

impl<'f> Model for RawRows<'f> {
    ghost use Rattle.std.specs.Prelude.{◌≡◌, ◌+◌, ◌*◌, ◌≤◌, length, List, true};
    ghost use Rattle.keep_format.specs.declared.raw_rows.RawRow.{RawRow};
    ghost use Rattle.keep_format.specs.RawRows.{is_whole_batch, rows_left};

    ghost Value = { List RawRow };

    ghost view = { λ r. rows_left r.left r.at r.file.now };

    ghost invariant = { λ r. (r.at + 10 * r.left ≤ length r.file.now) × (is_whole_batch r.left r.at r.file.now ≡ true) };
}

// Returns ten bytes as a row.
fn raw_row(at: u64, bytes: &[u8]) -> RawRow
    requires { 10 ≤ length bytes.now }
    ensures { result ≡ raw_row at bytes.now }
{
    RawRow {
        at,
        cycle: word_at(bytes, 0),
        cell: word_at(bytes, 4),
        bit: bytes[8],
        code: bytes[9],
    }
}

// Returns the offset of the next row, if there is one.
fn find_row(file: &[u8], spot: Spot) -> Option<Spot>
    requires within { spot.at + 10 * spot.left ≤ length file.now }
    requires whole { is_whole_batch spot.left spot.at file.now ≡ true }
    ensures { IsSpot file.now (rows_left spot.left spot.at file.now) result }
{
    let Spot { mut at, mut left } = spot;
    'gates: while left == 0 {
        if file[at] != OPEN {
            return None;
        }
        left = half_at(file, at + 1) as usize;
        at += BATCH_HEAD;
    }
    Some(Spot { at, left })
}

impl<'f> RawRows<'f> {
    /// Returns the rows after the first gate of a file.
    pub(crate) fn new(file: &'f [u8], gate: usize) -> RawRows<'f>
        requires within { gate ≤ length file.now }
        requires whole { is_some (batches_of file.now gate) ≡ true }
        ensures { result ≡ raw_rows_of (batches_of file.now gate) }
    {
        RawRows {
            file,
            at: gate,
            left: 0,
        }
    }

    /// Returns the same rows, to be read again.
    pub(crate) fn again(&self) -> RawRows<'f>
        ensures { result ≡ self.now }
    {
        RawRows {
            file: self.file,
            at: self.at,
            left: self.left,
        }
    }
}

impl<'f> Iterator for RawRows<'f> {
    type Item = RawRow;

    ghost next_gives = { YieldsFirst (λ rows. rows) };

    ghost remaining = { item_count (λ rows. rows) };

    fn next(&mut self) -> Option<RawRow> {
        let file = self.file;
        let Spot { at, left } = find_row(
            file,
            Spot {
                at: self.at,
                left: self.left,
            },
        )?;
        self.at = at + ROW_LEN;
        self.left = left - 1;
        Some(raw_row(at as u64, &file[at..at + ROW_LEN]))
    }
}
