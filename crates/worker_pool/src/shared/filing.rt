//! A worker files rows at the desk, several at a time.
ghost use Rattle.std.specs.Prelude.{◌≡◌, ◌<◌, ◌≤◌, [], ◌++◌, vec_len, vec_capacity};
ghost use Rattle.worker_pool.specs.Workers.{shared_case};
ghost use Rattle.worker_pool.specs.Waiting.{AreWaiting};

use crate::own_desk::{CaseLedger, OwnDesk};
use crate::shared::Shared;
use crate::worker::MOST_WAITING;
use fs_model::Row;
use result_desk::Tally;
use std::hint::spin_loop;
use std::sync::{MutexGuard, Wait};

// From this number of rows on a worker files them if the desk is free.
const ENOUGH: usize = 32;

// The number of times that a worker tries the desk before it sleeps.
const LOOKS: u32 = 1000;

impl<'a, K: CaseLedger> Shared<'a, K> {
    // Returns the desk once this worker has it. It tries for a while, because sleeping costs more than a job.
    fn own_turn<R: Wait>(&self, rt: &R) -> MutexGuard<'_, OwnDesk<'a, K>> {
        for _look in 0..LOOKS {
            if let Some(desk) = self.desk.try_lock() {
                return desk;
            }
            spin_loop();
        }
        self.desk.lock(rt)
    }

    /// Files all waiting rows, in order.
    pub(crate) fn file_rest<R: Wait>(
        &self,
        rt: &R,
        waiting: &mut Vec<Row>,
        tally: &mut Tally<'_, K>,
    )
        requires case { tally.old.case ≡ shared_case self.now }
        requires waiting { AreWaiting tally.old waiting.old.items }
        ensures offered { tally.new.offered ≡ tally.old.offered ++ waiting.old.items }
        ensures waiting { waiting.new.items ≡ [] }
        ensures room { vec_capacity waiting.new ≡ vec_capacity waiting.old }
        ensures tally { (tally.new.case ≡ tally.old.case) × (tally.new.page ≡ tally.old.page) × (tally.new.parts ≡ tally.old.parts) }
    {
        self.own_turn(rt).file_all(waiting.as_slice(), tally);
        waiting.clear();
    }

    /// Files the waiting rows if there are enough and the desk is free, or if no more can wait.
    pub(crate) fn file_some<R: Wait>(
        &self,
        rt: &R,
        waiting: &mut Vec<Row>,
        tally: &mut Tally<'_, K>,
    )
        requires case { tally.old.case ≡ shared_case self.now }
        requires waiting { AreWaiting tally.old waiting.old.items }
        requires few { vec_len waiting.old ≤ MOST_WAITING }
        ensures rows { tally.new.offered ++ waiting.new.items ≡ tally.old.offered ++ waiting.old.items }
        ensures waiting { AreWaiting tally.new waiting.new.items }
        ensures few { vec_len waiting.new < MOST_WAITING }
        ensures room { vec_capacity waiting.new ≡ vec_capacity waiting.old }
        ensures tally { (tally.new.case ≡ tally.old.case) × (tally.new.page ≡ tally.old.page) × (tally.new.parts ≡ tally.old.parts) }
    {
        if waiting.len() == MOST_WAITING {
            self.file_rest(rt, waiting, tally);
        } else if waiting.len() >= ENOUGH {
            if let Some(mut desk) = self.desk.try_lock() {
                desk.file_all(waiting.as_slice(), tally);
                waiting.clear();
            }
        }
    }
}
