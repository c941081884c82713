//! What a worker keeps of its earlier runs, and the run of a job that also ends in a known state.

ghost use Rattle.std.specs.Prelude.{◌≡◌, ◌+◌, ◌-◌, ◌≤◌, Contains, IfOk};
ghost use Rattle.fs_model.specs.Job.{jobs_in, site_of};
ghost use Rattle.fs_model.specs.Outcome.{outcome};
ghost use Rattle.experiment.specs.Jobs.{RoseWithin, steps_of_job};

use crate::front::go_to;
use crate::learned::Learned;
use crate::meeting::run_until_known;
use crate::reference::Reference;
use crate::shortcuts::Shortcuts;
use fs_model::{Job, NoMemory, Row, Site, Verdict};
use known_states::Tally;
use rv_machine::Machine;
use shared_sites::KnownCase;
use snapshot_store::Snap;
use std::alloc::Global;
use std::marker::Model;

/// What one worker keeps for its runs of a case: memory for what a run passes, and a state of the golden run, which
/// moves forward from job to job.
#[derive(Drop)]
pub struct KnownRuns<'c> {
    front: Snap<'c>,
    shortcuts: Shortcuts<'c>,
}

impl<'c> Model for KnownRuns<'c> {
    ghost use Rattle.fs_model.specs.Case.{CaseData};
    ghost use Rattle.snapshot_store.specs.Stored.{IsSnap};

    ghost Value = { CaseData };

    ghost view = { λ k. k.shortcuts.case };

    ghost invariant = { λ k. IsSnap k.shortcuts.case k.front.cycle k.front };
}

impl<'c> KnownRuns<'c> {
    /// Makes the record of a worker that has run no job yet. Takes all memory that the runs need.
    ///
    /// # Errors
    ///
    /// `NoMemory` if memory is refused.
    pub fn new(alloc: Global, reference: &Reference<'_, 'c>) -> Result<KnownRuns<'c>, NoMemory>
        ensures { IfOk result (λ k. k ≡ reference.now.case.now) }
    {
        let start = reference.snaps.nearest(0);
        let front = Snap::of(alloc, start.machine(), start.cycle(), start.sent())?;
        let Ok(shortcuts) = Shortcuts::new(alloc, reference.case, start) else {
            drop(front);
            return Err(NoMemory);
        };
        Ok(KnownRuns { front, shortcuts })
    }

    /// Returns the counts of looks at the runs.
    pub fn tally(&self) -> Tally {
        self.shortcuts.tally()
    }
}

// Returns the first of the sites that a job represents.
fn first_site(job: &Job) -> Site
    requires some { 1 ≤ job.now.weight }
    requires few { job.now.weight ≤ job.now.cycle + 1 }
    ensures { result ≡ record { cycle = job.now.cycle - (job.now.weight - 1); cell = job.now.cell; bit = job.now.bit } }
{
    Site {
        cycle: job.cycle - (job.weight - 1),
        cell: job.cell,
        bit: job.bit,
    }
}

/// Returns the verdict of a job of the case, as `run_job` does. The run begins at the front, and also ends when its
/// outcome is known from an earlier run: in a state that such a run had, or if the outcome of the job, or of the site
/// whose run it is after one step, was found with another job. It takes no more steps than the run of `run_job`, and
/// at least the step that reads the flipped bit. Afterwards the states that it passed are known, and so is that site,
/// unless another thread had its part of the table.
pub fn run_job_known<'c, K: KnownCase>(
    reference: &Reference<'_, 'c>,
    learned: &Learned<'_, K>,
    known: &mut KnownRuns,
    machine: &mut Machine,
    job: &Job,
) -> Verdict<'c>
    requires learned_snaps { learned.now.snaps ≡ reference.now.snaps.now }
    requires learned_golden { learned.now.golden ≡ reference.now.golden.now }
    requires known { known.old ≡ reference.now.case.now }
    requires machine { machine.old.case ≡ reference.now.case.now }
    requires job { Contains (jobs_in reference.now.case.now) job.now }
    ensures verdict { result ≡ record {
      case = reference.now.case.now;
      row = record { cycle = job.now.cycle; cell = job.now.cell; bit = job.now.bit; outcome = outcome reference.now.case.now (site_of job.now) };
    } }
    ensures taken { RoseWithin 1 machine.old.taken (steps_of_job reference.now.case.now reference.now.snaps.now.spacing
        reference.now.snaps.now.count job.now) machine.new.taken }
    ensures case { machine.new.case ≡ machine.old.case }
    ensures known { known.new ≡ known.old }
{
    let first = first_site(job);
    let sent = go_to(&mut known.front, reference.snaps, machine, job.cycle);
    let site = Site {
        cycle: job.cycle,
        cell: job.cell,
        bit: job.bit,
    };
    known
        .shortcuts
        .begin(reference, learned, &known.front, site, first);
    machine.flip(job.cell, job.bit);
    let outcome = run_until_known(reference, learned, &mut known.shortcuts, machine, sent);
    known.shortcuts.learn(learned, outcome);
    Verdict::of(
        reference.case,
        Row {
            cycle: job.cycle,
            cell: job.cell,
            bit: job.bit,
            outcome,
        },
    )
}
