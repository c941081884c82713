//! Running jobs again, from stored states of the golden run.
ghost use Rattle.std.specs.Prelude.{◌≡◌, IfOk};
ghost use Rattle.fs_model.specs.Job.{site_of};
ghost use Rattle.fs_model.specs.Outcome.{outcome};
ghost use Rattle.golden_trace.specs.Goldens.{IsGolden};
ghost use Rattle.audit.specs.Reruns.{IsJobOf};

use experiment::run_job;
use fs_model::{Case, Job, NoMemory, Outcome};
use golden_trace::Golden;
use rv_machine::Machine;
use snapshot_store::{Snaps, spacing_of};
use std::alloc::Global;
use std::marker::Model;

/// A machine and stored states that run the jobs of a case again.
#[derive(Drop)]
pub(crate) struct Reruns<'a> {
    case: &'a Case,
    golden: &'a Golden,
    snaps: Snaps<'a>,
    machine: Machine<'a>,
}

impl<'a> Model for Reruns<'a> {
    ghost use Rattle.fs_model.specs.Case.{CaseData};
    ghost use Rattle.audit.specs.Reruns.{IsReadyToRerun};

    ghost Value = { CaseData };

    ghost view = { λ r. r.case.now };

    ghost invariant = { λ r. IsReadyToRerun r.case.now r.golden.now r.snaps r.machine };
}

impl<'a> Reruns<'a> {
    /// Prepares to run the jobs of a case again, given its golden run.
    ///
    /// # Errors
    ///
    /// `NoMemory` if memory for the stored states or the machine is refused.
    pub(crate) fn of(
        alloc: Global,
        case: &'a Case,
        golden: &'a Golden,
    ) -> Result<Reruns<'a>, NoMemory>
        requires { IsGolden case.now golden.now }
        ensures { IfOk result (λ reruns. reruns ≡ case.now) }
    {
        let count = golden.count();
        let snaps = Snaps::take(alloc, case, count, spacing_of(count))?;
        match Machine::new(alloc, case) {
            Ok(machine) => Ok(Reruns {
                case,
                golden,
                snaps,
                machine,
            }),
            Err(refused) => {
                drop(snaps);
                Err(refused)
            }
        }
    }

    /// Runs the job, and returns the outcome of its site.
    pub(crate) fn outcome_of(&mut self, job: &Job) -> Outcome
        requires { IsJobOf self.old job.now }
        ensures outcome { result ≡ outcome self.old (site_of job.now) }
        ensures same { self.new ≡ self.old }
    {
        run_job(self.case, self.golden, &self.snaps, &mut self.machine, job)
            .row()
            .outcome
    }
}
