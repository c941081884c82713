//! Rows in memory, and how a caller writes through the trait.
ghost use Rattle.std.specs.Prelude.{◌≡◌, OnOk};
ghost use Rattle.fs_outside.specs.Faults.{IsCaused};
ghost use Rattle.row_store.specs.Refusal.{is_failed};

use fs_model::Outcome;
use row_store::{ExportRow, MemRows, RowStore, StoreRefusal};
use std::alloc::Global;
use std::test::Fail;
use test_asserts::same;

pub(super) const EARLY: ExportRow = ExportRow {
    cycle: 0,
    cell: 5,
    bit: 31,
    weight: 1,
    outcome: Outcome::NoEffect,
};

pub(super) const LATE: ExportRow = ExportRow {
    cycle: u32::MAX,
    cell: 65_567,
    bit: 0,
    weight: u32::MAX,
    outcome: Outcome::Misaligned,
};

// Replaces the rows of any store, as a caller does.
pub(super) fn put<S: RowStore>(
    store: &mut S,
    alloc: Global,
    list: &[ExportRow],
) -> Result<(), StoreRefusal>
    ensures ok { S.tells → OnOk result (S.rows store.new ≡ list.now) }
    ensures cause { IsCaused (is_failed result) (S.faults store.old) (S.faults store.new) }
{
    store.replace_all(alloc, list)
}

// The second call fails.
#[test]
fn keeps_rows_in_order(rt: HostRuntime) -> Result<(), Fail> {
    let alloc = rt.alloc();
    let mut store = MemRows::new(vec![in alloc; EARLY]?, vec![in alloc; 2]?);
    same("at first", store.rows(), [EARLY].as_slice()).expect(&rt, "not the same");
    let calls = [
        ([LATE, EARLY].as_slice(), Ok(()), 2, 0),
        ([EARLY].as_slice(), Err(StoreRefusal::Failed), 2, 1),
        ([].as_slice(), Ok(()), 0, 1),
    ];
    for (list, answer, left, listed) in calls {
        let found = put(&mut store, alloc, list);
        let told = (found, store.rows().len(), store.listed());
        same(list.len(), told, (answer, left, listed)).expect(&rt, "not the same");
    }
    let found = put(&mut store, alloc, &[LATE, EARLY]);
    same("once more", found, Ok(())).expect(&rt, "not the same");
    same("in order", store.rows(), [LATE, EARLY].as_slice()).expect(&rt, "not the same");
    Ok(())
}
