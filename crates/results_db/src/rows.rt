//! The rows of an export: the jobs with their outcomes.
ghost use Rattle.std.specs.Prelude.{◌≡◌, IfErr, IfOk, length};
ghost use Rattle.def_use.specs.Board.{HasOutcomeBelow};
ghost use Rattle.phases.specs.Failures.{status_for};
ghost use Rattle.results_db.specs.Rows.{rows_by};
ghost use Rattle.results_db.specs.Stories.{IsUnstored};

use def_use::{Board, JobList};
use phases::Failure;
use row_store::ExportRow;
use std::alloc::Global;

/// Returns a row for each job, with its outcome on the board.
///
/// # Errors
///
/// `Stopped` if a job has no outcome, or `NoMemory`.
pub(crate) fn rows_of(
    alloc: Global,
    list: &JobList,
    board: &Board,
) -> Result<Vec<ExportRow>, Failure>
    requires { length board.now ≡ length list.now.list }
    ensures rows { IfOk result (λ rows. rows.items ≡ rows_by list.now.list board.now) }
    ensures each { IfOk result (λ rows. length rows.items ≡ length list.now.list) }
    ensures whole { IfOk result (λ rows. HasOutcomeBelow board.now (length board.now)) }
    ensures refused { IfErr result (λ why. IsUnstored board.now (status_for why)) }
{
    let count = list.len();
    let mut rows = Vec::with_capacity(alloc, count as usize)?;
    let mut walk = list.walk();
    for number in 0..count {
        let job = walk.get(number);
        let Some(outcome) = board.get(number) else {
            return Err(Failure::stopped(board));
        };
        let row = ExportRow {
            cycle: job.cycle,
            cell: job.cell,
            bit: job.bit,
            weight: job.weight,
            outcome,
        };
        rows.push_reserved(row);
    }
    Ok(rows)
}
