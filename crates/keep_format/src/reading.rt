//! Reading the rows of a file, without a list of them.
ghost use Rattle.std.specs.Prelude.{◌≡◌, ◌<◌, length, slice_index, IfOk, IfSome};
ghost use Rattle.std.specs.Iterator.{YieldsFirst, item_count};
ghost use Rattle.keep_format.specs.KeepFile.{bad_in, batches_of, rows_in};
ghost use Rattle.keep_format.specs.Reading.{IsBatch, gate_of};

use crate::fault::FormatFault;
use crate::layout::{BATCH_HEAD, CLOSED, LAST_BYTE, OPEN, ROW_LEN};
use crate::numbers::half_at;
use crate::raw_rows::RawRows;
use crate::rows::{KeptRow, kept_row};
use std::marker::Model;

/// The rows after a first gate, whether or not they agree.
#[derive(Drop)]
pub struct FileRows<'f> {
    file: &'f [u8],
    start: usize,
    gate: u64,
}

impl<'f> Model for FileRows<'f> {
    ghost use Rattle.std.specs.Prelude.{◌≡◌, ◌≤◌, length, map, is_some, true};
    ghost use Rattle.keep_format.specs.KeepFile.{KeptRows, batches_of, kept_row};
    ghost use Rattle.keep_format.specs.RawRows.{raw_rows_of};

    ghost Value = { KeptRows };

    ghost view = { λ r. record { rows = map kept_row (raw_rows_of (batches_of r.file.now r.start)); gate = r.gate } };

    ghost invariant = { λ r. (r.start ≤ length r.file.now) × (is_some (batches_of r.file.now r.start) ≡ true) };
}

impl<'f> FileRows<'f> {
    /// Returns the rows, in the order of the file.
    pub fn iter(&self) -> RowIter<'f>
        ensures { result ≡ self.now.rows }
    {
        RowIter {
            raw: RawRows::new(self.file, self.start),
        }
    }

    /// Returns the offset of the closed gate after the rows.
    pub fn gate(&self) -> u64
        ensures { result ≡ self.now.gate }
    {
        self.gate
    }
}

/// The rows that are left, in the order of the file.
#[derive(Drop)]
pub struct RowIter<'f> {
    raw: RawRows<'f>,
}

impl<'f> Model for RowIter<'f> {
    ghost use Rattle.std.specs.Prelude.{List, map};
    ghost use Rattle.keep_format.specs.declared.rows.KeptRow.{KeptRow};
    ghost use Rattle.keep_format.specs.KeepFile.{kept_row};

    ghost Value = { List KeptRow };

    ghost view = { λ r. map kept_row r.raw };
}

impl<'f> Iterator for RowIter<'f> {
    type Item = KeptRow;

    ghost next_gives = { YieldsFirst (λ rows. rows) };

    ghost remaining = { item_count (λ rows. rows) };

    fn next(&mut self) -> Option<KeptRow> {
        let raw = self.raw.next()?;
        Some(kept_row(raw))
    }
}

impl<'f> Default for RowIter<'f> {
    fn default() -> RowIter<'f> {
        RowIter {
            raw: RawRows::new(&[CLOSED], 0),
        }
    }
}

impl<'f> RowIter<'f> {
    /// Returns the same rows, to be read again.
    pub(crate) fn again(&self) -> RowIter<'f>
        ensures { result ≡ self.now }
    {
        RowIter {
            raw: self.raw.again(),
        }
    }
}

// Returns the offset of the first row whose last byte is undefined.
fn find_bad(rows: RawRows<'_>) -> Option<u64>
    ensures { result ≡ bad_in rows.entry }
{
    for raw in rows {
        if raw.code > LAST_BYTE {
            return Some(raw.at);
        }
    }
    None
}

// Returns the number of rows of the open batch at an offset, unless the file ends before the batch does.
fn count_at(file: &[u8], at: usize) -> Option<usize>
    requires within { at < length file.now }
    requires open { slice_index file.now at ≡ 0xA5 }
    ensures { IsBatch file.now at result }
{
    let left = file.len() - at;
    if left < BATCH_HEAD {
        return None;
    }
    let count = half_at(file, at + 1) as usize;
    if left - BATCH_HEAD < ROW_LEN * count {
        return None;
    }
    Some(count)
}

// Returns the offset of the closed gate after the batches, unless the file ends before it.
fn find_gate(file: &[u8], gate: usize) -> Option<usize>
    ensures gate { result ≡ gate_of (batches_of file.now gate) }
    ensures within { IfSome result (λ at. at < length file.now) }
{
    let mut at = gate;
    'gates: while at < file.len() {
        if file[at] != OPEN {
            return Some(at);
        }
        let count = count_at(file, at)?;
        at += BATCH_HEAD + ROW_LEN * count;
    }
    None
}

/// Returns the rows after the first gate of a file, or the first fault there. Takes no memory, and does not
/// search for conflicts.
pub fn read_rows(file: &[u8], gate: u64) -> Result<FileRows<'_>, FormatFault>
    ensures read { result ≡ rows_in (batches_of file.now gate) }
    ensures within { IfOk result (λ rows. rows.gate < length file.now) }
{
    let start = gate as usize;
    let Some(gate) = find_gate(file, start) else {
        return Err(FormatFault::Cut);
    };
    if let Some(at) = find_bad(RawRows::new(file, start)) {
        return Err(FormatFault::BadRow { at });
    }
    Ok(FileRows {
        file,
        start,
        gate: gate as u64,
    })
}
