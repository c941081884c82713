//! The counts of the sites in a window, from the outcomes of the jobs that are due there.

ghost use Rattle.std.specs.Prelude.{◌≡◌, ℕ, ◌+◌, ◌*◌, ◌<◌, ◌≤◌, if◌then◌else◌, length, IfOk, IfErr, OnOk, slice_get, Some, None};
ghost use Rattle.fs_model.specs.declared.outcomes.Outcome.{Outcome};
ghost use Rattle.fs_model.specs.Run.{cycles};
ghost use Rattle.fs_model.specs.AccessLog.{log};
ghost use Rattle.fs_model.specs.Filling.{board_total};
ghost use Rattle.fs_model.specs.Job.{jobs_of};
ghost use Rattle.fs_model.specs.Outcome.{outcome, same_outcome, sum_of, total_at};
ghost use Rattle.fs_model.specs.Laws.{bits_of_all, max_bits};
ghost use Rattle.window_counts.specs.Windows.{window_sites, window_count, window_dead, clipped_jobs, IsDueAt, HasDueBelow, HasDueOutcomes};

use crate::windows::Window;
use def_use::{Board, JobList};
use fault_space::Unfinished;
use fs_model::{Case, Outcome, Totals, bits, bits_of_all};

// Returns the number of bits of all cells of a case.
fn bits_of_case(case: &Case) -> u64
    ensures value { result ≡ bits_of_all (length case.now.ram) case.now.pc_cell }
    ensures bound { result ≤ max_bits }
{
    case.facts();
    bits_of_all(case.ram().len() as u32, case.pc_cell())
}

/// Returns the number of sites in a window of the golden run of a case.
pub fn sites_in(case: &Case, window: &Window) -> u64
    requires { length window.now ≡ cycles case.now }
    ensures { result ≡ length (window_sites case.now window.now) }
{
    window.len() as u64 * bits_of_case(case)
}

/// Returns the counts of the sites in a window of the golden run of a case, from the outcomes of the jobs that are
/// due in it.
///
/// # Errors
///
/// The first due job that has no outcome.
pub fn counts_in(
    case: &Case,
    list: &JobList,
    board: &Board,
    window: &Window,
) -> Result<Totals, Unfinished>
    requires list { list.now ≡ jobs_of (log case.now) }
    requires cycles { length window.now ≡ cycles case.now }
    requires same { length board.now ≡ length list.now.list }
    ensures counts { IfOk result (λ totals. HasDueOutcomes window.now (outcome case.now) list.now.list board.now
        → (o : Outcome) → total_at totals o ≡ window_count case.now window.now o) }
    // They are the clipped weights on the board, and the dead sites of the window are added to those without effect.
    ensures sums { IfOk result (λ totals. (o : Outcome) → total_at totals o ≡ board_total (clipped_jobs window.now list.now.list) board.now o
        + (if same_outcome Outcome.NoEffect o then window_dead (log case.now) window.now else 0)) }
    ensures size { IfOk result (λ totals. sum_of totals ≡ length (window_sites case.now window.now)) }
    ensures whole { OnOk result (HasDueBelow window.now list.now.list board.now (length list.now.list)) }
    ensures unfinished { IfErr result (λ e. slice_get board.now e.first ≡ Some None) }
    ensures due { IfErr result (λ e. IsDueAt window.now list.now.list e.first) }
    ensures least { IfErr result (λ e. HasDueBelow window.now list.now.list board.now e.first) }
{
    // This call gives the proof that the sum of all weights fits 64 bits.
    let _ = list.dead_weight();
    let reads = list.reads();
    let mut totals = Totals::zero();
    let mut first = 0;
    for read in reads {
        let end = first + bits(read.cell) as u32;
        let weight = window.weight_at(read.cycle, read.weight);
        if weight == 0 {
            first = end;
            continue;
        }
        for number in first..end {
            match board.get(number) {
                None => return Err(Unfinished { first: number }),
                Some(outcome) => totals.add(outcome, weight as u64),
            }
        }
        first = end;
    }
    let dead = sites_in(case, window) - totals.sum();
    totals.add(Outcome::NoEffect, dead);
    Ok(totals)
}
