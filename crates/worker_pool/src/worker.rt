//! A worker, which claims jobs of a page, runs each once and files its row.
ghost use Rattle.std.specs.Prelude.{◌≡◌, ◌<◌, ◌++◌, true, All, length};
ghost use Rattle.experiment.specs.Jobs.{RoseAs};

use crate::own_desk::CaseLedger;
use crate::shared::Shared;
use crossbeam_utils::CachePadded;
use experiment::KnownRuns;
use fs_model::Row;
use fs_outside::Gate;
use job_queue::Hand;
use result_desk::Tally;
use rv_machine::Machine;
use std::sync::Wait;

/// With this number of waiting rows a worker waits for the desk.
pub(crate) const MOST_WAITING: usize = 64;

/// A hand of the queue, a tally of the rows given to the desk, the rows that still wait, a machine to run jobs
/// on, and what known runs need.
#[derive(Drop)]
pub struct Worker<'a, K: CaseLedger> {
    pub(crate) hand: Hand,
    pub(crate) tally: Tally<'a, K>,
    pub(crate) waiting: Vec<Row>,
    // Each machine has cache lines of its own, because other workers run theirs at the same time.
    pub(crate) machine: CachePadded<Machine<'a>>,
    // `None` if the workers have no shortcuts, or if there was no memory for those of this one.
    pub(crate) known: Option<KnownRuns<'a>>,
    pub(crate) number: u32,
    pub(crate) at_once: u32,
    // Unused. Processors fetch cache lines in pairs, so data that two workers write for each job must be two
    // lines apart. With the padding of the machine, these bytes separate it from the next worker's hand.
    pub(crate) apart: [u64; 8],
}

impl<'a, K: CaseLedger> Worker<'a, K> {
    ghost use Rattle.job_queue.specs.Hands.{claims_of, hand_view, has_ended, IsOut};
    ghost use Rattle.worker_pool.specs.Workers.{jobs_of_all, rows_run, steps_in, taken_of, claimed_since, has_shortcuts, IsShared, IsWorkerOf};

    /// Claims jobs until no job of the page is left to claim, runs each claimed job once and files its row.
    /// Returns the number of jobs of this page that this worker has claimed.
    pub fn work<R: Wait, G: Gate>(&mut self, rt: &R, shared: &Shared<'_, K>, gate: &G) -> u32
        requires shared { IsShared shared.now }
        requires worker { IsWorkerOf shared.now self.old }
        requires out { IsOut self.old.hand }
        requires page { All (λ n. n < length (jobs_of_all shared.now)) (hand_view self.old.hand).page }
        ensures worker { IsWorkerOf shared.now self.new }
        ensures out { IsOut self.new.hand }
        ensures ended { has_ended self.new.hand ≡ true }
        ensures count { result ≡ length (claims_of self.new.hand) }
        ensures claims { claims_of self.new.hand ≡ claims_of self.old.hand ++ claimed_since self.old self.new }

        // The rows of the jobs that it claimed in this call, in order,
        ensures offered { self.new.tally.offered ≡ rows_run shared.now (claimed_since self.old self.new) }
        // and only the steps of these jobs; or, with shortcuts, at most these steps, and at least one for each job.
        ensures taken { RoseAs (has_shortcuts shared.now) (length (claimed_since self.old self.new))
            (taken_of self.old) (steps_in shared.now (claimed_since self.old self.new)) (taken_of self.new) }

        ensures same { (self.new.number ≡ self.old.number) × (self.new.tally.parts ≡ self.old.tally.parts) }
    {
        // This call gives the proof the bound of the count.
        let _ = self.machine.taken();
        self.tally.clear();
        self.waiting.clear();
        let mut walk = shared.list.walk();
        let at_once = self.at_once.max(1);
        let mut ran = self.hand.claims().len();
        for _ in rt.forever() {
            let Some(number) = shared.next_claim(rt, &mut self.hand, ran, at_once) else {
                shared.file_rest(rt, &mut self.waiting, &mut self.tally);
                return self.hand.claimed();
            };
            ran += 1;
            gate.at(self.number, number);
            let job = walk.get(number);
            let verdict = shared.run_claim(&mut self.machine, &mut self.known, number, &job);
            self.waiting.push_reserved(verdict.row());
            shared.file_some(rt, &mut self.waiting, &mut self.tally);
        }
        unreachable!()
    }

    /// Returns its hand of the queue.
    pub fn hand(&self) -> &Hand
        ensures { result.now ≡ self.now.hand }
    {
        &self.hand
    }

    /// Returns the tally of the rows that it gave to the desk.
    pub fn tally(&self) -> &Tally<'a, K>
        ensures { result.now ≡ self.now.tally }
    {
        &self.tally
    }

    /// Returns the number of steps that its machine took, saturating.
    pub fn taken(&self) -> u64
        ensures { result ≡ taken_of self.now }
    {
        self.machine.taken()
    }
}
