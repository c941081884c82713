//! Databases: one in memory, and one that cannot be opened.

use super::tests_of_row_store::{EARLY, LATE, put};
use row_store::StoreRefusal;
use sqlite_rows::SqliteStore;
use test_asserts::same;

// Two rows of one site are refused, and afterwards the table can be replaced again.
#[test]
fn replaces_rows(rt: HostRuntime) {
    let alloc = rt.alloc();
    let mut store = SqliteStore::new(&rt, ":memory:");
    let calls = [
        ("made", [EARLY, LATE], Ok(())),
        ("replaced", [LATE, EARLY], Ok(())),
        ("twice", [LATE, LATE], Err(StoreRefusal::Failed)),
        ("after a refusal", [EARLY, LATE], Ok(())),
    ];
    for (key, list, answer) in calls {
        same(key, put(&mut store, alloc, &list), answer).expect(&rt, "not the same");
    }
}

#[test]
fn refuses_a_missing_folder(rt: HostRuntime) {
    let mut store = SqliteStore::new(&rt, "no/such/folder/jobs.db");
    let found = put(&mut store, rt.alloc(), &[EARLY]);
    same("a folder", found, Err(StoreRefusal::Failed)).expect(&rt, "not the same");
}
