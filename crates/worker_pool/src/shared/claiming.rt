//! A worker claims the jobs of a page, a few at a time, and runs them.
ghost use Rattle.std.specs.Prelude.{◌≡◌, ◌+◌, ◌<◌, ◌≤◌, [], ◌∷◌, ◌++◌, true, Some, All, IfNone, IfSome, length, slice_get, take};
ghost use Rattle.job_queue.specs.Hands.{claims_of, hand_view, has_ended, IsHandOf};
ghost use Rattle.experiment.specs.Jobs.{RoseAs, RoseWithin};
ghost use Rattle.snapshot_store.specs.Along.{Rose};
ghost use Rattle.worker_pool.specs.Workers.{shared_case, jobs_of_all, near_of, rows_run, steps_in, has_shortcuts, IsAhead, IsKnownIn, IsShared};

use crate::own_desk::{CaseLedger, OwnCase};
use crate::shared::Shared;
use experiment::{KnownRuns, Learned, run_job, run_job_known};
use fs_model::{Job, Verdict};
use job_queue::Hand;
use rv_machine::Machine;
use std::sync::Wait;

impl<'a, K: CaseLedger> Shared<'a, K> {
    // Runs the job with this number without shortcuts.
    fn run_plain(&self, machine: &mut Machine<'_>, number: u32, job: &Job) -> Verdict<'a>
        requires shared { IsShared self.now }
        requires job { slice_get (jobs_of_all self.now) number ≡ Some job.now }
        requires machine { machine.old.case ≡ shared_case self.now }
        ensures row { rows_run self.now (number ∷ []) ≡ result.row ∷ [] }
        ensures case { result.case ≡ shared_case self.now }
        ensures taken { Rose machine.old.taken (steps_in self.now (number ∷ [])) machine.new.taken }
        ensures machine { machine.new.case ≡ machine.old.case }
    {
        run_job(self.case, self.golden, &self.snaps, machine, job)
    }

    // Runs the job with this number. The run also ends in a state that an earlier run had at that cycle, or once a
    // site is known to have its outcome.
    fn run_known(
        &self,
        machine: &mut Machine<'_>,
        known: &mut KnownRuns<'_>,
        learned: &Learned<'_, OwnCase<K>>,
        number: u32,
        job: &Job,
    ) -> Verdict<'a>
        requires shared { IsShared self.now }
        requires job { slice_get (jobs_of_all self.now) number ≡ Some job.now }
        requires machine { machine.old.case ≡ shared_case self.now }
        requires known { known.old ≡ shared_case self.now }
        requires learned_snaps { learned.now.snaps ≡ near_of self.now }
        requires learned_golden { learned.now.golden ≡ self.now.golden.now }
        ensures row { rows_run self.now (number ∷ []) ≡ result.row ∷ [] }
        ensures case { result.case ≡ shared_case self.now }
        ensures taken { RoseWithin 1 machine.old.taken (steps_in self.now (number ∷ [])) machine.new.taken }
        ensures machine { machine.new.case ≡ machine.old.case }
        ensures known { known.new ≡ known.old }
    {
        let _ = number;
        let reference = self.reference();
        // This call gives the proof that the spacing is at least 1.
        let _ = reference.snaps.spacing();
        run_job_known(&reference, learned, known, machine, job)
    }

    /// Runs the job with this number. If the workers have shortcuts, and there was memory for those of this one, the
    /// run also ends in a state that an earlier run had at that cycle.
    pub(crate) fn run_claim(
        &self,
        machine: &mut Machine<'_>,
        known: &mut Option<KnownRuns<'_>>,
        number: u32,
        job: &Job,
    ) -> Verdict<'a>
        requires shared { IsShared self.now }
        requires job { slice_get (jobs_of_all self.now) number ≡ Some job.now }
        requires machine { machine.old.case ≡ shared_case self.now }
        requires known { IsKnownIn self.now known.old }
        ensures row { rows_run self.now (number ∷ []) ≡ result.row ∷ [] }
        ensures case { result.case ≡ shared_case self.now }
        ensures taken { RoseAs (has_shortcuts self.now) 1 machine.old.taken (steps_in self.now (number ∷ [])) machine.new.taken }
        ensures machine { machine.new.case ≡ machine.old.case }
        ensures known { IsKnownIn self.now known.new }
    {
        // This call gives the proof the bound of the count.
        let _ = machine.taken();
        match &self.learned {
            Some(learned) => match known {
                Some(known) => self.run_known(machine, known, learned, number, job),
                None => self.run_plain(machine, number, job),
            },
            None => self.run_plain(machine, number, job),
        }
    }

    // Claims `at_once` jobs if all claimed ones were run. Consecutive claims take less time than single ones,
    // because the queue's cache lines are here by then.
    fn claim_ahead<R: Wait>(&self, rt: &R, hand: &mut Hand, ran: usize, at_once: u32)
        requires hand { IsHandOf self.now.jobs hand.old }
        requires page { All (λ n. n < length (jobs_of_all self.now)) (hand_view hand.old).page }
        requires ahead { IsAhead self.now hand.old ran }
        requires some { 0 < at_once }
        ensures hand { IsHandOf self.now.jobs hand.new × ((hand_view hand.new).page ≡ (hand_view hand.old).page)
            × ((hand_view hand.new).parts ≡ (hand_view hand.old).parts) }
        ensures ran { take ran (claims_of hand.new) ≡ take ran (claims_of hand.old) }
        ensures ahead { IsAhead self.now hand.new ran }
        ensures ended { length (claims_of hand.new) ≡ ran → has_ended hand.new ≡ true }
    {
        if ran < hand.claims().len() {
            return;
        }
        for _ in 0..at_once {
            let Some(_number) = self.jobs.claim(rt, hand) else {
                return;
            };
        }
    }

    /// Returns the number of the next claim after those that were run, if there is one or one can be made.
    pub(crate) fn next_claim<R: Wait>(
        &self,
        rt: &R,
        hand: &mut Hand,
        ran: usize,
        at_once: u32,
    ) -> Option<u32>
        requires hand { IsHandOf self.now.jobs hand.old }
        requires page { All (λ n. n < length (jobs_of_all self.now)) (hand_view hand.old).page }
        requires ahead { IsAhead self.now hand.old ran }
        requires some { 0 < at_once }
        ensures hand { IsHandOf self.now.jobs hand.new × ((hand_view hand.new).page ≡ (hand_view hand.old).page)
            × ((hand_view hand.new).parts ≡ (hand_view hand.old).parts) }
        ensures claims { IfSome result (λ n. take (ran + 1) (claims_of hand.new) ≡ take ran (claims_of hand.old) ++ n ∷ []) }
        ensures known { IfSome result (λ n. n < length (jobs_of_all self.now)) }
        ensures within { IfSome result (λ n. length (claims_of hand.new) ≤ length (hand_view hand.new).page) }
        ensures ahead { IfSome result (λ n. IsAhead self.now hand.new (ran + 1)) }
        ensures none { IfNone result (claims_of hand.new ≡ take ran (claims_of hand.old)) }
        ensures ended { IfNone result (has_ended hand.new ≡ true) }
    {
        self.claim_ahead(rt, hand, ran, at_once);
        let claims = hand.claims();
        if ran == claims.len() {
            return None;
        }
        Some(claims[ran])
    }
}
