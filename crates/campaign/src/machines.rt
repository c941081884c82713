//! The machines of a campaign, and who runs them: the workers, or only the caller. Both give the same rows.
ghost use Rattle.std.specs.Prelude.{All, ◌≡◌, ◌<◌, ◌≤◌, length, vec_capacity};
ghost use Rattle.fs_model.specs.Job.{jobs_in};
ghost use Rattle.worker_pool.specs.CrewData.{CrewData};
ghost use Rattle.campaign.specs.PageRuns.{HasRun};

use crate::jobs::run_numbers;
use fs_model::Row;
use rv_machine::Machine;
use std::alloc::Global;
use std::marker::Model;
use worker_pool::{CaseJobs, CaseLedger, Crew};

/// The workers with their machines, and a machine for the caller.
#[derive(Drop)]
pub(crate) struct Machines<'a, K: CaseLedger> {
    pub of: CaseJobs<'a>,
    pub crew: Crew<'a, K>,
    pub own: Machine<'a>,
}

impl<'a, K: CaseLedger> Model for Machines<'a, K> {
    ghost use Rattle.std.specs.Prelude.{◌≡◌};
    ghost use Rattle.worker_pool.specs.CrewData.{CrewData};
    ghost use Rattle.campaign.specs.Ready.{AreOfCase, all_taken};

    ghost Value = { CrewData };

    ghost view = { λ m. record m.crew { taken = all_taken m.own.taken m.crew.taken } };

    ghost invariant = { λ m. AreOfCase m.of.case.now m.of.golden.now m.of.list.now m.own × (m.crew.case ≡ m.of.case.now) };
}

impl<'a, K: CaseLedger> Machines<'a, K> {
    /// Runs the jobs with these numbers on the caller's machine, and writes the row of each, in order.
    pub(crate) fn run_alone(&mut self, numbers: &[u32], rows: &mut Vec<Row>)
        requires known { All (λ n. n < length (jobs_in self.old.case)) numbers.now }
        requires room { length numbers.now ≤ vec_capacity rows.old }
        ensures { HasRun self.old numbers.now rows.old self.new rows.new }
    {
        run_numbers(&self.of, self.crew.snaps(), &mut self.own, numbers, rows);
    }
}

/// What the loop over the pages of a campaign knows about the machines that run a page: the case, the largest
/// page, whether the workers have shortcuts, and the number of steps that they took.
pub(crate) trait PageMachines: Drop {
    ghost seen: { Self → CrewData };

    /// Returns the number of steps that the machines took, saturating.
    fn taken(&self) -> u64
        ensures { result ≡ (seen self.now).taken };

    /// Gives the workers shortcuts, and returns whether there was memory for them.
    fn give_shortcuts(&mut self, alloc: Global) -> bool
        ensures { seen self.new ≡ record (seen self.old) { shortcuts = result } };
}

impl<'a, K: CaseLedger> PageMachines for Machines<'a, K> {
    ghost seen = { λ m. m };

    fn taken(&self) -> u64 {
        self.own.taken().saturating_add(self.crew.taken())
    }

    fn give_shortcuts(&mut self, alloc: Global) -> bool {
        self.crew.give_shortcuts(alloc)
    }
}
