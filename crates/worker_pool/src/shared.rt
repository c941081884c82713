//! What all workers share, and running a page with it.
ghost use Rattle.std.specs.Prelude.{[], ◌≡◌, ◌+◌, ◌<◌, ◌≤◌, All, IfOk, sum_by, vec_len};

mod claiming;
mod filing;
mod gathering;
mod handing;
mod shortcuts;

use crate::near_states::nearest;
use crate::own_desk::{CaseLedger, OwnCase, OwnDesk};
use crate::worker::{MOST_WAITING, Worker};
use crossbeam_utils::CachePadded;
use def_use::JobList;
use experiment::{Learned, Reference};
use fs_model::{Case, NoMemory};
use golden_trace::Golden;
use job_queue::{Hand, Jobs};
use result_desk::Tally;
use snapshot_store::Snaps;
use std::alloc::Global;
use std::sync::Mutex;

// Room for this many unused rows, some two thousand bytes, separates the rows of two workers, because processors
// fetch ahead of sequential writes.
const APART: usize = 192;

/// What all workers share: the queue of job numbers, the desk where rows are filed, and the case with its golden
/// run, its jobs and its stored states.
#[derive(Drop)]
pub struct Shared<'a, K: CaseLedger> {
    pub(crate) jobs: Jobs,
    // The lock has cache lines of its own, because each job reads the other fields.
    pub(crate) desk: CachePadded<Mutex<OwnDesk<'a, K>>>,
    pub(crate) case: &'a Case,
    pub(crate) golden: &'a Golden,
    pub(crate) list: &'a JobList,
    pub(crate) snaps: Snaps<'a>,
    // States that are closer to each other, for known runs. The steps of a job are not counted from them.
    pub(crate) near: Option<Snaps<'a>>,
    // What known runs have found. `None` if the workers have no shortcuts.
    pub(crate) learned: Option<Learned<'a, OwnCase<K>>>,
    ghost own: { case.now ≡ K.case },
}

impl<'a, K: CaseLedger> Shared<'a, K> {
    ghost use Rattle.job_queue.specs.Pages.{spent};
    ghost use Rattle.job_queue.specs.Hands.{page_size_of, IsHandOf, hand_view};
    ghost use Rattle.result_desk.specs.Tally.{new_tally};
    ghost use Rattle.worker_pool.specs.Workers.{shared_case, near_of, taken_of, IsShared};
    ghost use Rattle.worker_pool.specs.Crews.{IsIdle, AreNumbered};

    // Returns what known runs are compared with.
    pub(crate) fn reference(&self) -> Reference<'_, 'a>
        requires { IsShared self.now }
        ensures case { result.case.now ≡ shared_case self.now }
        ensures golden { result.golden.now ≡ self.now.golden.now }
        ensures snaps { result.snaps.now ≡ near_of self.now }
    {
        Reference {
            case: self.case,
            golden: self.golden,
            snaps: nearest(&self.near, &self.snaps),
        }
    }

    // Takes one of the tallies, which are all alike.
    fn next_tally(&self, tallies: &mut Vec<Tally<'a, K>>) -> Tally<'a, K>
        requires some { 0 < vec_len tallies.old }
        requires tallies { All (λ t. t ≡ new_tally (shared_case self.now) (page_size_of self.now.jobs)) tallies.old.items }
        ensures tally { result ≡ new_tally (shared_case self.now) (page_size_of self.now.jobs) }
        ensures count { vec_len tallies.new + 1 ≡ vec_len tallies.old }
        ensures tallies { All (λ t. t ≡ new_tally (shared_case self.now) (page_size_of self.now.jobs)) tallies.new.items }
    {
        let Some(tally) = tallies.pop() else {
            unreachable!();
        };
        tally
    }

    // Returns a worker with this hand, this tally and a machine of its own. It has no shortcuts.
    fn worker(
        &self,
        alloc: Global,
        hand: Hand,
        number: u32,
        tally: Tally<'a, K>,
    ) -> Result<Worker<'a, K>, NoMemory>
        requires shared { IsShared self.now }
        requires hand { IsHandOf self.now.jobs hand × (hand_view hand ≡ spent) }
        requires tally { tally ≡ new_tally (shared_case self.now) (page_size_of self.now.jobs) }
        ensures idle { IfOk result (λ w. IsIdle self.now w × (taken_of w ≡ 0)) }
        ensures number { IfOk result (λ w. w.number ≡ number) }
    {
        let Ok(waiting) = Vec::with_capacity(alloc, MOST_WAITING + APART) else {
            drop(hand);
            drop(tally);
            return Err(NoMemory);
        };
        let Ok(machine) = self.snaps.nearest(0).machine().another(alloc) else {
            drop(hand);
            drop(tally);
            return Err(NoMemory);
        };
        Ok(Worker {
            hand,
            tally,
            waiting,
            machine: CachePadded::new(machine),
            known: None,
            number,
            at_once: 1,
            apart: [0; 8],
        })
    }

    // Adds a worker for each hand and tally to an empty list.
    fn add_workers(
        &self,
        alloc: Global,
        hands: Vec<Hand>,
        tallies: &mut Vec<Tally<'a, K>>,
        workers: &mut Vec<Worker<'a, K>>,
    ) -> Result<(), NoMemory>
        requires shared { IsShared self.now }
        requires count { (vec_len hands ≡ vec_len tallies.old) × (vec_len hands ≤ 64) }
        requires hands { All (λ h. IsHandOf self.now.jobs h × (hand_view h ≡ spent)) hands.items }
        requires tallies { All (λ t. t ≡ new_tally (shared_case self.now) (page_size_of self.now.jobs)) tallies.old.items }
        requires empty { workers.old.items ≡ [] }
        ensures count { IfOk result (λ _. vec_len workers.new ≡ vec_len hands) }
        ensures workers { IfOk result (λ _. All (λ w. IsIdle self.now w) workers.new.items) }
        ensures taken { IfOk result (λ _. sum_by (λ w. taken_of w) workers.new.items ≡ 0) }
        ensures numbers { IfOk result (λ _. AreNumbered workers.new.items) }
    {
        let mut number = 0u32;
        for hand in hands {
            let tally = self.next_tally(tallies);
            workers.push(self.worker(alloc, hand, number, tally)?)?;
            number += 1;
        }
        Ok(())
    }

    /// Returns a worker for each hand and tally.
    pub(crate) fn workers(
        &self,
        alloc: Global,
        hands: Vec<Hand>,
        tallies: Vec<Tally<'a, K>>,
    ) -> Result<Vec<Worker<'a, K>>, NoMemory>
        requires shared { IsShared self.now }
        requires count { (vec_len hands ≡ vec_len tallies) × (vec_len hands ≤ 64) }
        requires hands { All (λ h. IsHandOf self.now.jobs h × (hand_view h ≡ spent)) hands.items }
        requires tallies { All (λ t. t ≡ new_tally (shared_case self.now) (page_size_of self.now.jobs)) tallies.items }
        ensures count { IfOk result (λ v. vec_len v ≡ vec_len hands) }
        ensures workers { IfOk result (λ v. All (λ w. IsIdle self.now w) v.items) }
        ensures taken { IfOk result (λ v. sum_by (λ w. taken_of w) v.items ≡ 0) }
        ensures numbers { IfOk result (λ v. AreNumbered v.items) }
    {
        let mut tallies = tallies;
        let Ok(mut workers) = Vec::with_capacity(alloc, hands.len()) else {
            drop(hands);
            drop(tallies);
            return Err(NoMemory);
        };
        let added = self.add_workers(alloc, hands, &mut tallies, &mut workers);
        drop(tallies);
        match added {
            Ok(()) => Ok(workers),
            Err(refused) => {
                drop(workers);
                Err(refused)
            }
        }
    }
}
