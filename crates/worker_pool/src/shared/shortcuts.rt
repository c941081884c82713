//! The workers get shortcuts: tables of what all of them learn from their runs, and a record for each.
ghost use Rattle.std.specs.Prelude.{◌≡◌, IfSome, All, length, vec_len};
ghost use Rattle.golden_trace.specs.Goldens.{IsGolden};
ghost use Rattle.worker_pool.specs.Workers.{has_shortcuts, IsShared};
ghost use Rattle.worker_pool.specs.Crews.{IsIdle, taken_by_all};

use crate::near_states::{near_states, nearest};
use crate::own_desk::{CaseLedger, OwnCase};
use crate::shared::Shared;
use crate::worker::Worker;
use experiment::{KnownRuns, Learned};
use fs_model::Case;
use golden_trace::Golden;
use snapshot_store::Snaps;
use std::alloc::Global;

// Makes the tables that all workers share, for a case with this number of jobs, if there is memory for them.
fn nothing_learned<'a, K: CaseLedger>(
    alloc: Global,
    case: &'a Case,
    golden: &'a Golden,
    snaps: &Snaps,
    jobs: u32,
) -> Option<Learned<'a, OwnCase<K>>>
    requires own { case.now ≡ K.case }
    requires golden { IsGolden case.now golden.now }
    requires snaps { snaps.now.case ≡ case.now }
    requires count { snaps.now.count ≡ length golden.now.touches }
    ensures { IfSome result (λ l. l ≡ record { snaps = snaps.now; golden = golden.now }) }
{
    Learned::new(alloc, case, golden, snaps, jobs as usize).ok()
}

impl<'a, K: CaseLedger> Shared<'a, K> {
    /// Takes memory for the tables that all workers share. If it is refused, the workers have no shortcuts.
    pub(crate) fn learn(&mut self, alloc: Global)
        requires { IsShared self.old }
        ensures shared { IsShared self.new }
        ensures same { (self.new.jobs ≡ self.old.jobs) × (self.new.case ≡ self.old.case) × (self.new.snaps ≡ self.old.snaps) }
    {
        self.near = near_states(alloc, self.case, self.golden, &self.snaps);
        let snaps = nearest(&self.near, &self.snaps);
        self.learned = nothing_learned(alloc, self.case, self.golden, snaps, self.list.len());
    }

    /// Gives each worker a record for its known runs. A worker without memory for it runs its jobs as if nothing was
    /// known.
    pub(crate) fn equip_all(&self, alloc: Global, workers: &mut [Worker<'a, K>])
        requires shared { IsShared self.now }
        requires workers { All (λ w. IsIdle self.now w) workers.old }
        ensures workers { All (λ w. IsIdle self.now w) workers.new }
        ensures taken { taken_by_all workers.new ≡ taken_by_all workers.old }
    {
        for place in 0..workers.len() {
            workers[place].known = KnownRuns::new(alloc, &self.reference()).ok();
        }
    }

    /// Returns whether the workers have shortcuts.
    pub(crate) fn has_shortcuts(&self) -> bool
        ensures { result ≡ has_shortcuts self.now }
    {
        self.learned.is_some()
    }
}
