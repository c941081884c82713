//! The totals of a board on which each job has an outcome.
ghost use Rattle.std.specs.Prelude.{◌≡◌, ◌+◌, IfErr, IfOk, OnOk, if◌then◌else◌, length};
ghost use Rattle.fs_model.specs.declared.outcomes.Outcome.{Outcome};
ghost use Rattle.fs_model.specs.Filling.{board_total};
ghost use Rattle.fs_model.specs.Outcome.{same_outcome, total_at};
ghost use Rattle.def_use.specs.Board.{HasOutcomeBelow};
ghost use Rattle.phases.specs.Failures.{status_for};
ghost use Rattle.phases.specs.Totals.{IsUnfinished};

use crate::failure::Failure;
use def_use::{Board, JobList};
use fault_space::totals_of;
use fs_model::Totals;

/// Returns the number of sites with each outcome, from the outcomes of all jobs.
///
/// # Errors
///
/// `Stopped` if a job has no outcome.
pub fn whole_totals(list: &JobList, board: &Board) -> Result<Totals, Failure>
    requires { length board.now ≡ length list.now.list }
    ensures sums { IfOk result (λ totals. (o : Outcome) → total_at totals o ≡ board_total list.now.list board.now o
        + (if same_outcome Outcome.NoEffect o then list.now.dead else 0)) }
    ensures whole { OnOk result (HasOutcomeBelow board.now (length board.now)) }
    ensures unfinished { IfErr result (λ why. IsUnfinished board.now (status_for why)) }
{
    match totals_of(list, board) {
        Ok(totals) => Ok(totals),
        Err(_) => Err(Failure::stopped(board)),
    }
}
