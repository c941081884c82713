//! Running jobs one after the other.
ghost use Rattle.std.specs.Prelude.{All, ◌≡◌, ◌<◌, ◌≤◌, [], ◌∷◌, length, vec_capacity};
ghost use Rattle.fs_model.specs.Outcome.{outcome};
ghost use Rattle.snapshot_store.specs.Along.{Rose};
ghost use Rattle.campaign.specs.Ready.{IsReady};
ghost use Rattle.def_use.specs.Rows.{rows_of};
ghost use Rattle.worker_pool.specs.Steps.{steps_of_numbers};

use experiment::run_job;
use fs_model::Row;
use rv_machine::Machine;
use snapshot_store::Snaps;
use worker_pool::CaseJobs;

// Runs the job with this number.
fn run_one(of: &CaseJobs<'_>, snaps: &Snaps, machine: &mut Machine, number: u32) -> Row
    requires ready { IsReady of.now.case.now of.now.golden.now of.now.list.now snaps.now machine.old }
    requires number { number < length of.now.list.now.list }
    ensures row { rows_of (outcome of.now.case.now) of.now.list.now.list (number ∷ []) ≡ result ∷ [] }
    ensures taken { Rose machine.old.taken (steps_of_numbers of.now.case.now snaps.now.spacing of.now.list.now.list (number ∷ [])) machine.new.taken }
    ensures case { machine.new.case ≡ machine.old.case }
{
    let job = of.list.get(number);
    run_job(of.case, of.golden, snaps, machine, &job).row()
}

/// Runs the jobs with these numbers, in order.
pub(crate) fn run_numbers(
    of: &CaseJobs<'_>,
    snaps: &Snaps,
    machine: &mut Machine,
    numbers: &[u32],
    rows: &mut Vec<Row>,
)
    requires ready { IsReady of.now.case.now of.now.golden.now of.now.list.now snaps.now machine.old }
    requires numbers { All (λ number. number < length of.now.list.now.list) numbers.now }
    requires room { length numbers.now ≤ vec_capacity rows.old }
    ensures rows { rows.new.items ≡ rows_of (outcome of.now.case.now) of.now.list.now.list numbers.now }
    ensures taken { Rose machine.old.taken (steps_of_numbers of.now.case.now snaps.now.spacing of.now.list.now.list numbers.now) machine.new.taken }
    ensures case { machine.new.case ≡ machine.old.case }
    ensures room { vec_capacity rows.new ≡ vec_capacity rows.old }
{
    // This call gives the proof the bound of the count.
    let _ = machine.taken();
    rows.clear();
    for number in numbers {
        let row = run_one(of, snaps, machine, *number);
        rows.push_reserved(row);
    }
}
