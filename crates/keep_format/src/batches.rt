//! Reading the batches.
ghost use Rattle.std.specs.Prelude.{◌≡◌, ◌<◌, Ok, length, IfOk, IfErr};
ghost use Rattle.keep_format.specs.KeepFile.{kept_from};
ghost use Rattle.keep_format.specs.Reading.{IsRefusal};

use crate::conflicts::find_conflict;
use crate::fault::FormatFault;
use crate::reading::{FileRows, RowIter, read_rows};
use crate::rows::KeptRow;
use fs_model::NoMemory;
use std::alloc::Global;
use std::marker::Model;

/// Why the rows could not be read.
#[derive(Clone, Copy, Debug, PartialEq, Eq)]
pub enum FormatRefusal {
    Fault(FormatFault),
    NoMemory,
}

/// Returns the rows after the first gate of a file, no two of which disagree, or the first fault there. A file
/// that ends before its last gate is Cut, whatever its rows are. Otherwise the first row with an undefined last
/// byte is the fault, and then the first conflict. The iterator reads the rows from the file.
///
/// # Errors
///
/// The first fault, or `NoMemory` if memory for the search is refused.
pub fn kept_rows(alloc: Global, file: &[u8], gate: u64) -> Result<FileRows<'_>, FormatRefusal>
    ensures within { IfOk result (λ kept. kept.gate < length file.now) }
    ensures kept { IfOk result (λ kept. kept_from file.now gate ≡ Ok kept) }
    ensures refused { IfErr result (IsRefusal (kept_from file.now gate)) }
{
    let rows = match read_rows(file, gate) {
        Ok(rows) => rows,
        Err(fault) => return Err(FormatRefusal::Fault(fault)),
    };
    match find_conflict(alloc, &rows) {
        Err(NoMemory) => Err(FormatRefusal::NoMemory),
        Ok(Some(fault)) => Err(FormatRefusal::Fault(fault)),
        Ok(None) => Ok(rows),
    }
}

/// The rows of a file, as a list.
#[derive(Drop)]
pub struct Kept {
    rows: Vec<KeptRow>,
    gate: u64,
}

impl Model for Kept {
    ghost use Rattle.keep_format.specs.KeepFile.{KeptRows};

    ghost Value = { KeptRows };

    ghost view = { λ kept. record { rows = kept.rows.items; gate = kept.gate } };
}

impl Kept {
    /// Returns the rows, in the order of the file.
    pub fn rows(&self) -> &[KeptRow]
        ensures { result.now ≡ self.now.rows }
    {
        self.rows.as_slice()
    }

    /// Returns the offset of the closed gate after the rows.
    pub fn gate(&self) -> u64
        ensures { result ≡ self.now.gate }
    {
        self.gate
    }
}

// Collects rows into a list.
fn list_rows(alloc: Global, rows: RowIter<'_>) -> Result<Vec<KeptRow>, NoMemory>
    ensures { IfOk result (λ list. list.items ≡ rows.entry) }
{
    let mut list = Vec::new(alloc);
    for row in rows {
        match list.push(row) {
            Ok(()) => {}
            Err(_) => return Err(NoMemory),
        }
    }
    Ok(list)
}

/// Returns the rows after the first gate of a file as a list, or the first fault there.
///
/// # Errors
///
/// The first fault, or `NoMemory` if memory for the search or the list is refused.
pub fn read_batches(alloc: Global, file: &[u8], gate: u64) -> Result<Kept, FormatRefusal>
    ensures within { IfOk result (λ kept. kept.gate < length file.now) }
    ensures kept { IfOk result (λ kept. kept_from file.now gate ≡ Ok kept) }
    ensures refused { IfErr result (IsRefusal (kept_from file.now gate)) }
{
    let found = match kept_rows(alloc, file, gate) {
        Ok(found) => found,
        Err(refusal) => return Err(refusal),
    };
    match list_rows(alloc, found.iter()) {
        Ok(rows) => Ok(Kept {
            rows,
            gate: found.gate(),
        }),
        Err(NoMemory) => Err(FormatRefusal::NoMemory),
    }
}
