//! The workers of a case, which run a page of jobs in threads.
ghost use Rattle.std.specs.Prelude.{◌≡◌, ◌<◌, ◌≤◌, false, All, IfOk, length, vec_capacity};
ghost use Rattle.fs_model.specs.Job.{jobs_in};
ghost use Rattle.fs_model.specs.Outcome.{outcome};
ghost use Rattle.fs_model.specs.Run.{cycles};
ghost use Rattle.fs_model.specs.Pages.{max_page};
ghost use Rattle.def_use.specs.Rows.{rows_of};
ghost use Rattle.job_queue.specs.Pages.{AreDistinct};
ghost use Rattle.experiment.specs.Jobs.{RoseAs};
ghost use Rattle.worker_pool.specs.Steps.{steps_of_numbers};

use crate::case_jobs::CaseJobs;
use crate::own_desk::{CaseLedger, OwnDesk};
use crate::shared::Shared;
use crate::worker::Worker;
use crossbeam_utils::CachePadded;
use fs_model::{NoMemory, Row};
use fs_outside::Gate;
use job_queue::{Filler, Jobs};
use result_desk::Desk;
use snapshot_store::Snaps;
use std::alloc::Global;
use std::marker::Model;
use std::sync::ledger::Blank;
use std::sync::{Mutex, Wait};
use std::thread::Threads;

/// The queue, the desk and the workers of a case, between two pages: no hand is given out.
#[derive(Drop)]
pub struct Crew<'a, K: CaseLedger> {
    shared: Shared<'a, K>,
    filler: Filler,
    workers: Vec<Worker<'a, K>>,
}

impl<'a, K: CaseLedger> Model for Crew<'a, K> {
    ghost use Rattle.worker_pool.specs.CrewData.{CrewData};

    ghost Value = { CrewData };

    ghost use Rattle.worker_pool.specs.CrewKept.{crew_of, IsCrew};

    ghost view = { crew_of };

    ghost invariant = { IsCrew };
}

impl<'a, K: CaseLedger> Crew<'a, K> {
    /// Returns a crew of `workers` workers without shortcuts, for pages of at most `page` jobs. Takes all memory that
    /// the pages need.
    ///
    /// # Errors
    ///
    /// `NoMemory` if memory for the queue, the desk or the machines is refused.
    pub fn new(
        alloc: Global,
        of: CaseJobs<'a>,
        snaps: Snaps<'a>,
        page: u32,
        workers: u32,
        blank: Blank,
    ) -> Result<Crew<'a, K>, NoMemory>
        requires snaps { (snaps.case ≡ of.case.now) × (snaps.count ≡ length of.golden.now.touches) }
        requires page { (0 < page) × (page ≤ max_page) }
        requires workers { (0 < workers) × (workers ≤ 64) }
        requires ledger { of.case.now ≡ K.case }
        requires name { blank.name ≡ K.name }
        requires parts { (blank.parts ≡ K.parts) × (blank.parts ≡ workers) }
        ensures { IfOk result (λ crew. crew
            ≡ record { case = of.entry.case.now; spacing = snaps.entry.spacing; page = page; shortcuts = false; taken = 0 }) }
    {
        let (jobs, filler, hands) = match Jobs::new(alloc, page, workers) {
            Ok(made) => made,
            Err(refused) => {
                drop(snaps);
                return Err(refused);
            }
        };
        let (desk, tallies) = match Desk::new(alloc, of.case, page, workers, blank) {
            Ok(made) => made,
            Err(refused) => {
                drop(snaps);
                drop(jobs);
                drop(filler);
                drop(hands);
                return Err(refused);
            }
        };
        let shared = Shared {
            jobs,
            desk: CachePadded::new(Mutex::new(OwnDesk::new(desk))),
            case: of.case,
            golden: of.golden,
            list: of.list,
            snaps,
            near: None,
            learned: None,
        };
        match shared.workers(alloc, hands, tallies) {
            Ok(workers) => Ok(Crew {
                shared,
                filler,
                workers,
            }),
            Err(refused) => {
                drop(shared);
                drop(filler);
                Err(refused)
            }
        }
    }

    /// Gives the workers shortcuts, and returns whether there was memory for them: from then on, a run also ends in a
    /// state that an earlier run of any worker had at that cycle, or once a site is known to have its outcome.
    pub fn give_shortcuts(&mut self, alloc: Global) -> bool
        ensures { self.new ≡ record self.old { shortcuts = result } }
    {
        self.shared.learn(alloc);
        self.shared.equip_all(alloc, self.workers.as_mut_slice());
        self.shared.has_shortcuts()
    }

    /// Runs the jobs with these numbers, each once, and writes the row of each, in the order of the numbers.
    pub fn run_page<R: Threads + Wait + Sync, G: Gate>(
        &mut self,
        rt: &R,
        gate: &G,
        numbers: &[u32],
        rows: &mut Vec<Row>,
    )
    where
        K: Send + Sync,
        requires apart { AreDistinct numbers.now }
        requires known { All (λ n. n < length (jobs_in self.old.case)) numbers.now }
        requires page { length numbers.now ≤ self.old.page }
        requires room { length numbers.now ≤ vec_capacity rows.old }
        ensures rows { rows.new.items ≡ rows_of (outcome self.old.case) (jobs_in self.old.case) numbers.now }
        // No job is run twice: these are the steps of one run of each. With shortcuts each job takes at least one step,
        // and all together at most these steps, without those of the machines that look for loops and follow later
        // sites.
        ensures taken { RoseAs self.old.shortcuts (length numbers.now) self.old.taken
            (steps_of_numbers self.old.case self.old.spacing (jobs_in self.old.case) numbers.now) self.new.taken }
        ensures room { vec_capacity rows.new ≡ vec_capacity rows.old }
        ensures same { (self.new.case ≡ self.old.case) × (self.new.spacing ≡ self.old.spacing) × (self.new.page ≡ self.old.page)
            × (self.new.shortcuts ≡ self.old.shortcuts) }
    {
        let begun = self.shared.run_first(
            rt,
            gate,
            &mut self.filler,
            self.workers.as_mut_slice(),
            numbers,
        );
        let workers = &self.workers.as_slice()[..begun];
        self.shared.collect(rt, workers, numbers, rows);
    }

    /// Returns the stored states of the golden run, where injected runs begin.
    pub fn snaps(&self) -> &Snaps<'a>
        ensures { result.now ≡ record { case = self.now.case; spacing = self.now.spacing; count = cycles self.now.case } }
    {
        &self.shared.snaps
    }

    /// Returns the number of steps that all machines took, saturating.
    pub fn taken(&self) -> u64
        ensures { result ≡ self.now.taken }
    {
        let mut taken = 0u64;
        for worker in self.workers.as_slice() {
            taken = taken.saturating_add(worker.taken());
        }
        taken
    }
}
