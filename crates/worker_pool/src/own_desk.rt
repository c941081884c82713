//! The desk of a crew, for the crew's case.
//!
//! Rows are filed under a lock. No two cases are compared there, because the types say that they are equal.
ghost use Rattle.std.specs.Prelude.{◌≡◌, ◌<◌, ◌≤◌, [], ◌++◌, false, All, length};
ghost use Rattle.fs_model.specs.Case.{CaseData};
ghost use Rattle.result_desk.specs.Filing.{new_rows};
ghost use Rattle.result_desk.specs.Tally.{tally_told};
ghost use Rattle.worker_pool.specs.Waiting.{AreWaiting};

use def_use::JobList;
use fs_model::{Row, Verdict};
use result_desk::{Desk, Filing, Tally};
use shared_sites::KnownCase;
use std::marker::{Brand, PhantomData};
use std::sync::ledger::Ledger;

/// The ledger of a desk for one case.
pub trait CaseLedger: Ledger {
    ghost case: { CaseData };
}

impl CaseLedger for Brand {
    ghost case = { record { entry = 0; limit = 1; rom_base = 0; rom = []; ram_base = 0; ram = []; pc_cell = false; ram_code = false } };
}

/// The ledger's case, for the tables that workers share.
pub(crate) struct OwnCase<K: CaseLedger> {
    of: PhantomData<K>,
}

impl<K: CaseLedger> KnownCase for OwnCase<K> {
    ghost case = { K.case };
}

/// A desk for the ledger's case.
#[derive(Drop)]
pub(crate) struct OwnDesk<'a, K: CaseLedger> {
    desk: Desk<'a, K>,
    ghost own: { desk.case ≡ K.case },
}

impl<'a, K: CaseLedger> OwnDesk<'a, K> {
    pub(crate) fn new(desk: Desk<'a, K>) -> OwnDesk<'a, K>
        requires { desk.case ≡ K.case }
    {
        OwnDesk { desk }
    }

    /// Returns the desk. The contract tells its case and nothing else, because other threads may have changed the
    /// desk before the lock was taken.
    pub(crate) fn desk(&self) -> &Desk<'a, K>
        ensures { result.now.case ≡ K.case }
    {
        &self.desk
    }

    /// Begins a page if the desk has room for it.
    pub(crate) fn begin(&mut self, list: &JobList, numbers: &[u32])
        requires { All (λ n. n < length list.now.list) numbers.now }
    {
        if numbers.len() <= self.desk.page() as usize {
            self.desk.begin(list, numbers);
        }
    }

    /// Files the row of a verdict of the ledger's case.
    pub(crate) fn file(&mut self, verdict: &Verdict<'_>, tally: &mut Tally<'_, K>) -> Filing
        requires own { verdict.now.case ≡ K.case }
        requires case { verdict.now.case ≡ tally.old.case }
        requires room { length tally.old.offered < tally.old.page }
        ensures { tally.new ≡ tally_told tally.old verdict.now.row result }
    {
        self.desk.file_own(verdict, tally)
    }

    /// Files rows that are right in the tally's case, in order.
    pub(crate) fn file_all(&mut self, rows: &[Row], tally: &mut Tally<'_, K>)
        requires own { tally.old.case ≡ K.case }
        requires waiting { AreWaiting tally.old rows.now }
        ensures offered { tally.new.offered ≡ tally.old.offered ++ rows.now }
        ensures same { (tally.new.case ≡ tally.old.case) × (tally.new.page ≡ tally.old.page) × (tally.new.parts ≡ tally.old.parts) }
    {
        for row in rows {
            let verdict = Verdict::of(tally.case(), *row);
            let _ = self.file(&verdict, tally);
        }
    }
}
