//! A page is given to the workers, which run it in threads, and taken back.
ghost use Rattle.std.specs.Prelude.{◌≡◌, ◌+◌, ◌-◌, ◌<◌, ◌≤◌, [], ◌++◌, true, All, length, flat_map, take};
ghost use Rattle.job_queue.specs.Pages.{view_of, lender, HasSame};
ghost use Rattle.job_queue.specs.Hands.{filler_view, IsFillerOf, IsSettledFiller, claims_of};
ghost use Rattle.worker_pool.specs.Workers.{jobs_of_all, has_shortcuts, steps_in, taken_of, IsShared};
ghost use Rattle.experiment.specs.Jobs.{RoseAs};
ghost use Rattle.worker_pool.specs.Crews.{IsIdle, MayRun, IsSent, IsDone, IsBack, StepsRise, AllRise, SameTaken, SameClaims, taken_by_all};

use crate::own_desk::CaseLedger;
use crate::shared::Shared;
use crate::worker::Worker;
use fs_outside::Gate;
use job_queue::Filler;
use std::sync::Wait;
use std::thread::Threads;

// A worker claims one part in this number of its share of a page at once, so that no worker waits long for
// another one at the end of the page.
const SHARES: usize = 64;

// A worker claims at most this number of jobs at once. A run ends early where it meets the run of a neighbouring job, if
// that one has ended: so few jobs are to be in hand at a time, and these are to lie close together.
const MOST_AT_ONCE: usize = 4;

// Returns the number of jobs of a page that a worker claims at once.
fn claims_at_once(jobs: usize, workers: usize) -> u32 {
    (jobs / workers.max(1) / SHARES).min(MOST_AT_ONCE) as u32
}

impl<'a, K: CaseLedger> Shared<'a, K> {
    // Gives a worker a hand for the filler's page, of which it will claim `at_once` numbers at a time.
    fn send(&self, filler: &mut Filler, worker: &mut Worker<'_, K>, at_once: u32)
        requires shared { IsShared self.now }
        requires filler { IsFillerOf self.now.jobs filler.old × (0 < (filler_view filler.old).due) }
        requires known { All (λ n. n < length (jobs_of_all self.now)) (filler_view filler.old).page }
        requires idle { IsIdle self.now worker.old }
        ensures filler { IsFillerOf self.now.jobs filler.new × (filler_view filler.new ≡ lender (filler_view filler.old)) }
        ensures sent { IsSent self.now worker.new }
        ensures taken { taken_of worker.new ≡ taken_of worker.old }
    {
        worker.at_once = at_once;
        self.jobs.hand_out(filler, &mut worker.hand);
    }

    fn send_all(&self, filler: &mut Filler, workers: &mut [Worker<'_, K>], numbers: &[u32])
        requires shared { IsShared self.now }
        requires known { All (λ n. n < length (jobs_of_all self.now)) numbers.now }
        requires filler { IsFillerOf self.now.jobs filler.old }
        requires page { (filler_view filler.old).page ≡ numbers.now }
        requires due { length workers.old ≤ (filler_view filler.old).due }
        requires workers { All (λ w. IsIdle self.now w) workers.old }
        ensures filler { IsFillerOf self.now.jobs filler.new }
        ensures view { filler_view filler.new ≡ view_of ((filler_view filler.old).parts - length workers.old)
            (filler_view filler.old).page (filler_view filler.old).claims
            (filler_view filler.old).marks ((filler_view filler.old).due - length workers.old) }
        ensures workers { All (λ w. IsSent self.now w) workers.new }
        ensures taken { SameTaken workers.old workers.new }
    {
        let at_once = claims_at_once(numbers.len(), workers.len());
        for worker in workers.iter_mut() {
            self.send(filler, worker, at_once);
        }
    }

    fn take_all_back(&self, filler: &mut Filler, workers: &mut [Worker<'_, K>])
        requires filler { IsFillerOf self.now.jobs filler.old }
        requires workers { All (λ w. IsDone self.now w) workers.old }
        ensures filler { IsFillerOf self.now.jobs filler.new }
        ensures page { (filler_view filler.new).page ≡ (filler_view filler.old).page }
        ensures parts { (filler_view filler.new).parts ≡ (filler_view filler.old).parts + length workers.old }
        ensures marks { (filler_view filler.new).marks ≡ (filler_view filler.old).marks + length workers.old }
        ensures claims { (filler_view filler.new).claims ≡ (filler_view filler.old).claims ++ flat_map (λ w. claims_of w.hand) workers.new }
        ensures workers { All (λ w. IsBack self.now w) workers.new }
        ensures taken { SameTaken workers.old workers.new }
        ensures same { SameClaims workers.old workers.new }
    {
        for worker in workers.iter_mut() {
            self.jobs.take_back(filler, &mut worker.hand);
        }
    }

    // Lets these workers, all or some of the queue's, claim the jobs with these numbers, run them and file their
    // rows.
    fn run_all<R: Threads + Wait + Sync, G: Gate>(
        &self,
        rt: &R,
        gate: &G,
        filler: &mut Filler,
        workers: &mut [Worker<'_, K>],
        numbers: &[u32],
    )
    where
        K: Send + Sync,
        requires page { MayRun self.now filler.old workers.old numbers.now }
        ensures filler { IsFillerOf self.now.jobs filler.new × IsSettledFiller filler.new }
        ensures workers { All (λ w. IsBack self.now w) workers.new }
        ensures page { HasSame numbers.now (flat_map (λ w. claims_of w.hand) workers.new) }
        ensures taken { AllRise self.now workers.old workers.new }
    {
        self.begin(rt, numbers);
        self.jobs.fill(rt, filler, numbers);
        self.send_all(filler, workers, numbers);
        // Runs each worker in a thread of its own, if threads can be made, or a single one in this thread.
        fan_out::for_each_mut(
            rt,
            workers,
            &|_, worker|
                requires { IsSent self.now worker.old }
                ensures { IsDone self.entry.now worker.new × StepsRise self.entry.now worker.old worker.new }
            {
                worker.work(rt, self, gate);
            },
        );
        self.take_all_back(filler, workers);
        self.jobs.gather(rt, filler);
    }

    /// Lets the first of these workers, no more than there are jobs, claim the jobs with these numbers, run them and
    /// file their rows. Returns the number of these workers.
    pub(crate) fn run_first<R: Threads + Wait + Sync, G: Gate>(
        &self,
        rt: &R,
        gate: &G,
        filler: &mut Filler,
        workers: &mut [Worker<'_, K>],
        numbers: &[u32],
    ) -> usize
    where
        K: Send + Sync,
        requires page { MayRun self.now filler.old workers.old numbers.now }
        ensures filler { IsFillerOf self.now.jobs filler.new × IsSettledFiller filler.new }
        ensures workers { All (λ w. IsIdle self.now w) workers.new }
        ensures count { result ≤ length workers.old }
        ensures back { All (λ w. IsBack self.now w) (take result workers.new) }
        ensures page { HasSame numbers.now (flat_map (λ w. claims_of w.hand) (take result workers.new)) }
        ensures taken { RoseAs (has_shortcuts self.now) (length numbers.now) (taken_by_all workers.old) (steps_in self.now numbers.now)
            (taken_by_all workers.new) }
    {
        if numbers.is_empty() {
            return 0;
        }
        let begun = workers.len().min(numbers.len());
        self.run_all(rt, gate, filler, &mut workers[..begun], numbers);
        begun
    }
}
