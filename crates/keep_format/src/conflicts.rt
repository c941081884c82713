//! Rows of one name that disagree.
ghost use Rattle.std.specs.Prelude.{◌≡◌, IfErr, IfOk};
ghost use Rattle.keep_format.specs.KeepFile.{conflict_in};
ghost use Rattle.keep_format.specs.Runs.{AreFewRuns};

use crate::agreement::{Mark, apart_in, marked};
use crate::fault::FormatFault;
use crate::reading::{FileRows, RowIter};
use crate::rows::{KeptRow, byte_of};
use crate::runs::{Unordered, find_in_runs};
use fs_model::NoMemory;
use std::alloc::Global;
use std::collections::BTreeMap;

// Searches rows in any order, with a map that keeps two rows for each name.
fn find_in_map(alloc: Global, rows: RowIter<'_>) -> Result<Option<FormatFault>, NoMemory>
    ensures { IfOk result (λ found. found ≡ conflict_in rows.entry) }
{
    let mut seen = BTreeMap::new(alloc);
    for row in rows {
        let KeptRow {
            at,
            cycle,
            cell,
            bit,
            outcome,
        } = row;
        let name = (cycle, cell, bit);
        let mark = Mark {
            at,
            byte: byte_of(outcome),
        };
        let before = seen.get(&name).copied();
        if let Some(first) = apart_in(before, mark.byte) {
            return Ok(Some(FormatFault::Conflict { first, second: at }));
        }
        match seen.insert(name, marked(before, mark)) {
            Ok(_) => {}
            Err(_) => return Err(NoMemory),
        }
    }
    Ok(None)
}

/// Returns the first row that disagrees with an earlier one of its name, if there is one. Takes memory only if
/// the rows form more than 64 runs of ascending names. A file that was continued has one run, a file whose old
/// jobs ran again two, and a merged file one more for each shard.
pub(crate) fn find_conflict(
    alloc: Global,
    rows: &FileRows<'_>,
) -> Result<Option<FormatFault>, NoMemory>
    ensures found { IfOk result (λ found. found ≡ conflict_in rows.now.rows) }
    ensures memory { IfErr result (λ _. AreFewRuns rows.now.rows → ⊥) }
{
    match find_in_runs(rows) {
        Ok(found) => Ok(found),
        Err(Unordered) => find_in_map(alloc, rows.iter()),
    }
}
