//! The size of a fault space, and its totals.

ghost use Rattle.std.specs.Prelude.{◌≡◌, ℕ, ◌+◌, ◌*◌, ◌^◌, ◌<◌, ◌≤◌, if◌then◌else◌, length, IfOk, IfErr, OnOk, slice_get, Some, None};
ghost use Rattle.fs_model.specs.declared.outcomes.Outcome.{Outcome};
ghost use Rattle.fs_model.specs.Case.{CaseData};
ghost use Rattle.fs_model.specs.AccessLog.{log};
ghost use Rattle.fs_model.specs.Filling.{board_total};
ghost use Rattle.fs_model.specs.Job.{jobs_of, HasOutcomes};
ghost use Rattle.fs_model.specs.Outcome.{outcome, count, same_outcome, total_at};
ghost use Rattle.fs_model.specs.Laws.{bits_of_all};
ghost use Rattle.def_use.specs.Board.{HasOutcomeBelow};

use def_use::{Board, JobList};
use fs_model::{Map, Outcome, Totals, bits, bits_of_all};

/// Returns the number of sites of a run of `n` instructions. `pc` says whether the pc is a cell.
pub fn space_size(n: u32, map: &Map, pc: bool) -> u64
    ensures { result ≡ n * bits_of_all map.now.ram_size pc }
{
    map.facts();
    n as u64 * bits_of_all(map.ram_size(), pc)
}

/// The first job that has no outcome.
#[derive(Clone, Copy, PartialEq, Eq, Debug)]
pub struct Unfinished {
    pub first: u32,
}

/// Returns the counts of all sites, from the outcomes of the jobs.
pub fn totals_of(list: &JobList, board: &Board) -> Result<Totals, Unfinished>
    requires same { length board.now ≡ length list.now.list }
    ensures counts { IfOk result (λ totals. (c : CaseData) → list.now ≡ jobs_of (log c) → HasOutcomes (outcome c) list.now.list board.now
        → (o : Outcome) → total_at totals o ≡ count c o) }
    // They are the weights on the board, and the dead sites are added to those without effect.
    ensures sums { IfOk result (λ totals. (o : Outcome) → total_at totals o ≡ board_total list.now.list board.now o
        + (if same_outcome Outcome.NoEffect o then list.now.dead else 0)) }
    ensures whole { OnOk result (HasOutcomeBelow board.now (length board.now)) }
    ensures unfinished { IfErr result (λ e. slice_get board.now e.first ≡ Some None) }
    ensures least { IfErr result (λ e. HasOutcomeBelow board.now e.first) }
{
    let dead = list.dead_weight();
    let reads = list.reads();
    let mut totals = Totals::zero();
    let mut first = 0;
    for read in reads {
        let end = first + bits(read.cell) as u32;
        for number in first..end {
            match board.get(number) {
                None => return Err(Unfinished { first: number }),
                Some(outcome) => totals.add(outcome, read.weight as u64),
            }
        }
        first = end;
    }
    totals.add(Outcome::NoEffect, dead);
    Ok(totals)
}
