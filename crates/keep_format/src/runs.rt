//! Rows in runs whose names ascend. A file has such runs if its rows were appended from the first cycle on, or
//! if several such files were appended to each other.
ghost use Rattle.std.specs.Prelude.{◌≡◌, ◌++◌, ◌∷◌, All, None, Some, IfErr, IfOk, true};
ghost use Rattle.keep_format.specs.KeepFile.{apart, conflict_behind, conflict_in};
ghost use Rattle.keep_format.specs.Order.{is_before};
ghost use Rattle.keep_format.specs.Runs.{AreFewRuns, Ascends, front_of, joined, name_in, run_rest, with_first};

use crate::fault::FormatFault;
use crate::fronts::{Front, name_of};
use crate::order::is_behind;
use crate::reading::{FileRows, RowIter};
use crate::rows::KeptRow;
use arrayvec::ArrayVec;

/// The most runs that are searched without memory.
const MOST_RUNS: usize = 64;

/// There are more runs than are searched.
#[derive(Clone, Copy, Debug, PartialEq, Eq)]
pub(crate) struct Unordered;

// Returns the runs, again from their first rows on.
fn begun_again<'f>(runs: &ArrayVec<Front<'f>, MOST_RUNS>) -> ArrayVec<Front<'f>, MOST_RUNS>
    ensures { result.items ≡ runs.now.items }
{
    let mut fronts = ArrayVec::new();
    for run in runs.as_slice() {
        fronts.push(run.again());
    }
    fronts
}

// Returns the offset of the first row of these runs that disagrees with this one. Drops the rows up to its name.
fn apart_in_runs(fronts: &mut [Front<'_>], row: KeptRow) -> Option<u64>
    requires ascend { All Ascends fronts.old }
    ensures apart { result ≡ apart (joined fronts.old) row }
    ensures ascend { All Ascends fronts.new }
    ensures later { (later : KeptRow) → is_before (name_in row) (name_in later) ≡ true → apart (joined fronts.new) later ≡ apart (joined fronts.old) later }
{
    for front in fronts.iter_mut() {
        if let Some(first) = front.apart(row) {
            return Some(first);
        }
    }
    None
}

// Returns the first row after the run that begins with this one, if there is one, or the first row of that run
// that disagrees with a row of the earlier runs.
fn find_next(
    fronts: &mut [Front<'_>],
    row: KeptRow,
    rest: &mut RowIter<'_>,
) -> Result<Option<KeptRow>, FormatFault>
    requires ascend { All Ascends fronts.old }
    ensures fault { IfErr result (λ fault. conflict_behind (joined fronts.old) (row ∷ rest.old) ≡ Some fault) }
    ensures next { IfOk result (λ next. conflict_behind (joined fronts.old ++ front_of (Some row) rest.old) (with_first next rest.new)
        ≡ conflict_behind (joined fronts.old) (row ∷ rest.old)) }
    ensures behind { IfOk result (λ next. run_rest None (row ∷ rest.old) ≡ with_first next rest.new) }
{
    let mut last = None;
    let mut next = Some(row);
    'rows: while let Some(row) = next {
        let name = name_of(row);
        if !is_behind(last, name) {
            break 'rows;
        }
        if let Some(first) = apart_in_runs(fronts, row) {
            return Err(FormatFault::Conflict {
                first,
                second: row.at,
            });
        }
        last = Some(name);
        next = rest.next();
    }
    Ok(next)
}

/// Returns the first row that disagrees with an earlier one of its name, if there is one, among rows in at most
/// `MOST_RUNS` runs. Takes no memory; each row takes a step in each earlier run.
pub(crate) fn find_in_runs(rows: &FileRows<'_>) -> Result<Option<FormatFault>, Unordered>
    ensures found { IfOk result (λ found. found ≡ conflict_in rows.now.rows) }
    ensures unordered { IfErr result (λ _. AreFewRuns rows.now.rows → ⊥) }
{
    let mut runs = ArrayVec::<Front<'_>, MOST_RUNS>::new();
    let mut rest = rows.iter();
    let mut next = rest.next();
    'runs: while let Some(row) = next {
        if runs.is_full() {
            return Err(Unordered);
        }
        let run = Front::new(row, rest.again());
        let mut fronts = begun_again(&runs);
        next = match find_next(fronts.as_mut_slice(), row, &mut rest) {
            Ok(found) => found,
            Err(fault) => return Ok(Some(fault)),
        };
        runs.push(run);
    }
    Ok(None)
}
