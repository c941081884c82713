//! Watching the workers of a campaign, and holding them up in tests.

use std::sync::atomic::{AtomicBool, AtomicU64, Ordering};
use std::thread;

/// An observer of a campaign. It is called when the jobs begin, and by each worker after it claimed a job and
/// before it runs the job.
///
/// A gate sees how many jobs there are and who works on what, and a call may take long. It cannot influence the
/// result of a campaign, because it gets no state to change and returns nothing.
pub trait Gate: Sync {
    /// The jobs begin. Of `jobs` in all, `kept` have an outcome, and `due` others will be run in this call.
    fn begin(&self, _jobs: u32, _kept: u32, _due: u32) {}

    /// The worker has claimed the job with this number.
    fn at(&self, worker: u32, job: u32);
}

/// A gate that does nothing.
#[derive(Clone, Copy, Debug, Default, PartialEq, Eq)]
pub struct FreeGate;

impl Gate for FreeGate {
    fn at(&self, _worker: u32, _job: u32) {}
}

// The most iterations in which the first claim looks for another worker's.
const MAX_TURNS: u32 = 10_000_000;

/// A gate that holds the first claim until another worker has claimed, for at most 10,000,000 iterations, and
/// records whether another one did.
#[derive(Drop)]
pub struct HoldGate {
    // The number of the worker that is held plus 1, and 0 before the first claim.
    holder: AtomicU64,
    others: AtomicBool,
    seen: AtomicBool,
}

impl HoldGate {
    /// Returns a gate that no worker has called.
    pub fn new() -> HoldGate {
        HoldGate {
            holder: AtomicU64::new(0),
            others: AtomicBool::new(false),
            seen: AtomicBool::new(false),
        }
    }

    /// Returns whether another worker claimed while the first claim was held.
    pub fn saw(&self) -> bool {
        self.seen.load(Ordering::SeqCst)
    }

    // Waits until another worker claims, or the iterations are used up.
    fn hold(&self) {
        for _ in 0..MAX_TURNS {
            if self.others.load(Ordering::SeqCst) {
                self.seen.store(true, Ordering::SeqCst);
                return;
            }
            thread::yield_now();
        }
    }
}

impl Gate for HoldGate {
    fn at(&self, worker: u32, _job: u32) {
        let me = u64::from(worker) + 1;
        match self
            .holder
            .compare_exchange(0, me, Ordering::SeqCst, Ordering::SeqCst)
        {
            Ok(_) => self.hold(),
            Err(holder) => {
                if holder != me {
                    self.others.store(true, Ordering::SeqCst);
                }
            }
        }
    }
}
