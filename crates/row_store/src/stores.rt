//! Stores of rows.
ghost use Rattle.std.specs.Prelude.{◌≡◌, ℕ, List, OnErr, OnOk};
ghost use Rattle.fs_outside.specs.Faults.{IsCaused};
ghost use Rattle.row_store.specs.declared.rows.ExportRow.{ExportRow};
ghost use Rattle.row_store.specs.Refusal.{is_failed};

use crate::ExportRow;
use std::alloc::Global;

/// Why a store did not take rows.
#[derive(Clone, Copy, Debug, PartialEq, Eq)]
pub enum StoreRefusal {
    /// The store failed, and its count of faults rose or was saturated.
    Failed,
    NoMemory,
}

/// A table of rows, all of which are replaced at once.
///
/// A store counts its failures, and the count never falls. A call returns `Failed` only if the count rose in
/// that call, or is at its largest value; with any other result the count stays.
///
/// A store that tells reports which rows it holds. The clauses about rows apply only to such a store; the other
/// applies to every store.
pub trait RowStore {
    /// Whether the store tells its rows: `Unit {0}` for rows in memory, `⊥` for a database.
    ghost tells: { Type 0 };

    /// The rows that it holds, in order. They mean nothing if the store does not tell.
    ghost rows: { Self → List ExportRow };

    /// The number of its failures, saturating.
    ghost faults: { Self → ℕ };

    /// Replaces the rows by these. A call that is refused leaves the earlier rows.
    fn replace_all(&mut self, alloc: Global, list: &[ExportRow]) -> Result<(), StoreRefusal>
        ensures ok { tells → OnOk result (rows self.new ≡ list.now) }
        ensures err { tells → OnErr result (rows self.new ≡ rows self.old) }
        ensures cause { IsCaused (is_failed result) (faults self.old) (faults self.new) };
}
