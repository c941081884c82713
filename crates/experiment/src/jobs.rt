//! The run of a job.

ghost use Rattle.std.specs.Prelude.{◌≡◌, ◌+◌, ◌-◌, ◌<◌, ◌≤◌, length, min};
ghost use Rattle.fs_model.specs.Cell.{IsCell, bits};
ghost use Rattle.fs_model.specs.Job.{site_of};
ghost use Rattle.fs_model.specs.Outcome.{outcome};
ghost use Rattle.golden_trace.specs.Goldens.{IsGolden};
ghost use Rattle.snapshot_store.specs.Along.{Rose};
ghost use Rattle.snapshot_store.specs.Stored.{kept_below};
ghost use Rattle.experiment.specs.Jobs.{steps_of_job};

use crate::early::run_until;
use crate::reference::Reference;
use fs_model::{Case, Job, Row, Verdict};
use golden_trace::Golden;
use rv_machine::Machine;
use snapshot_store::{Snaps, advance};

/// Returns the verdict of a job: the outcome of its site in the case. The run begins at the nearest stored state
/// of the golden run. It ends early, without effect, if at a later stored cycle it is in the state of the golden
/// run and has sent the same bytes. The machine may be in any state of the case, and its count of steps rises by
/// those of the job.
pub fn run_job<'c>(
    case: &'c Case,
    golden: &Golden,
    snaps: &Snaps,
    machine: &mut Machine,
    job: &Job,
) -> Verdict<'c>
    requires golden { IsGolden case.now golden.now }
    requires snaps { snaps.now.case ≡ case.now }
    requires count { snaps.now.count ≡ length golden.now.touches }
    requires machine { machine.old.case ≡ case.now }
    requires cycle { job.now.cycle < length golden.now.touches }
    requires cell { IsCell case.now job.now.cell }
    requires bit { job.now.bit < bits job.now.cell }
    ensures verdict { result ≡ record {
      case = case.now;
      row = record { cycle = job.now.cycle; cell = job.now.cell; bit = job.now.bit; outcome = outcome case.now (site_of job.now) };
    } }
    ensures taken { Rose machine.old.taken (steps_of_job case.now snaps.now.spacing snaps.now.count job.now) machine.new.taken }
    // No job takes more steps than the limit leaves after the stored state at which it begins.
    ensures most { steps_of_job case.now snaps.now.spacing snaps.now.count job.now ≤ case.now.limit - kept_below snaps.now.spacing job.now.cycle }
    // That state is less than one spacing below the job's cycle.
    ensures bound { steps_of_job case.now snaps.now.spacing snaps.now.count job.now
        ≤ min snaps.now.spacing (job.now.cycle + 1) - 1 + (case.now.limit - job.now.cycle) }
    ensures case { machine.new.case ≡ machine.old.case }
{
    // This call gives the proof that the spacing is at least 1.
    let _ = snaps.spacing();
    let snap = snaps.nearest(job.cycle);
    machine.copy_from(snap.machine());
    let sent = advance(machine, snap.sent(), snap.cycle(), job.cycle);
    machine.flip(job.cell, job.bit);
    let reference = Reference {
        case,
        golden,
        snaps,
    };
    let outcome = run_until(&reference, machine, sent, job.cycle);
    Verdict::of(
        case,
        Row {
            cycle: job.cycle,
            cell: job.cell,
            bit: job.bit,
            outcome,
        },
    )
}
