//! A store of rows in memory with calls that are to fail.
ghost use Rattle.std.specs.Prelude.{◌≡◌, ◌==◌};
ghost use Rattle.std.specs.List.{list_any};

use crate::{ExportRow, RowStore, StoreRefusal};
use fs_outside::rise;
use std::alloc::Global;

/// A list of rows. The calls that its other list names fail.
#[derive(Drop)]
pub struct MemRows {
    rows: Vec<ExportRow>,
    fails: Vec<u64>,
    calls: u64,
    listed: u64,
}

// Returns whether the list has this number.
fn is_named(fails: &[u64], call: u64) -> bool
    ensures { result ≡ list_any (λ number. number == call) fails.now }
{
    fails.iter().any(|number| *number == call)
}

impl MemRows {
    ghost use Rattle.fs_outside.specs.CallLists.{fresh_list};
    ghost use Rattle.row_store.specs.MemRows.{mem_rows, rows_list};

    /// Returns a store with these rows. The calls in the list, counted from 1, fail.
    pub fn new(rows: Vec<ExportRow>, fails: Vec<u64>) -> MemRows
        ensures rows { mem_rows result ≡ rows.items }
        ensures list { rows_list result ≡ fresh_list fails }
    {
        MemRows {
            rows,
            fails,
            calls: 0,
            listed: 0,
        }
    }

    /// Returns the rows that it holds.
    pub fn rows(&self) -> &[ExportRow]
        ensures { result.now ≡ mem_rows self.now }
    {
        &self.rows
    }

    /// Returns the number of failures by its list.
    pub fn listed(&self) -> u64
        ensures { result ≡ (rows_list self.now).listed }
    {
        self.listed
    }
}

impl RowStore for MemRows {
    ghost use Rattle.std.specs.Prelude.{◌≡◌, ◌↔◌, IsTrue, OnErr, OnOk};
    ghost use Rattle.fs_outside.specs.CallLists.{names_next, after_call};
    ghost use Rattle.fs_outside.specs.Faults.{IsCaused};
    ghost use Rattle.row_store.specs.MemRows.{mem_rows, rows_list};
    ghost use Rattle.row_store.specs.Refusal.{is_failed};

    ghost tells = { Unit {0} };

    ghost rows = { λ store. store.rows.items };

    ghost faults = { λ store. store.listed };

    fn replace_all(&mut self, alloc: Global, list: &[ExportRow]) -> Result<(), StoreRefusal>
        ensures ok { OnOk result (mem_rows self.new ≡ list.now) }
        ensures err { OnErr result (mem_rows self.new ≡ mem_rows self.old) }
        ensures cause { IsCaused (is_failed result)
            (rows_list self.old).listed (rows_list self.new).listed }
        ensures named { IsTrue (is_failed result) ↔ IsTrue (names_next (rows_list self.old)) }
        ensures counted { rows_list self.new ≡ after_call (rows_list self.old) }
    {
        self.calls = rise(self.calls);
        if is_named(&self.fails, self.calls) {
            self.listed = rise(self.listed);
            return Err(StoreRefusal::Failed);
        }
        match list.to_vec(alloc) {
            Ok(rows) => {
                self.rows = rows;
                Ok(())
            }
            Err(_) => Err(StoreRefusal::NoMemory),
        }
    }
}
