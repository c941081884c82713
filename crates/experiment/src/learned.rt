//! What all workers have learned from the runs of a case.

ghost use Rattle.std.specs.Prelude.{◌≡◌, ◌≤◌, IfOk, length};
ghost use Rattle.dead_cells.specs.Live.{IsLiveness};
ghost use Rattle.golden_trace.specs.Goldens.{IsGolden};
ghost use Rattle.live_registers.specs.Masks.{live_of};

use fs_model::{Case, NoMemory};
use golden_trace::Golden;
use known_states::Table;
use live_registers::LiveRegisters;
use shared_sites::{KnownCase, SharedSites};
use snapshot_store::Snaps;
use std::alloc::Global;
use std::marker::Model;

// The number of parts of each table: four workers seldom want the same one.
const PARTS: usize = 64;

// The most places for states.
const MOST_STATES: usize = 8192;

// The most places for sites.
const MOST_SITES: usize = 65536;

// The most bytes of RAM in which the state of a key may differ.
pub(crate) const CHANGES: usize = 32;

/// The states and the sites whose outcome the runs of a case have found. Several threads share it.
#[derive(Drop)]
pub struct Learned<'c, K: KnownCase> {
    table: Table<'c, K>,
    sites: SharedSites<K>,
}

impl<'c, K: KnownCase> Model for Learned<'c, K> {
    ghost use Rattle.std.specs.Prelude.{◌≡◌};
    ghost use Rattle.known_states.specs.Known.{TableData};

    ghost Value = { TableData };

    ghost view = { λ l. l.table };

    ghost invariant = { λ l. l.sites ≡ l.table.snaps.case };
}

// Returns how many places each part has, if there are so many jobs.
fn places(jobs: usize, most: usize) -> usize
    ensures { 1 ≤ result }
{
    jobs.min(most) / PARTS + 1
}

impl<'c, K: KnownCase> Learned<'c, K> {
    /// Makes the tables of a case with `jobs` jobs, of which none was run. Takes all memory that they need.
    ///
    /// # Errors
    ///
    /// `NoMemory` if memory is refused.
    pub fn new(
        alloc: Global,
        case: &'c Case,
        golden: &'c Golden,
        snaps: &Snaps,
        jobs: usize,
    ) -> Result<Learned<'c, K>, NoMemory>
        requires own { case.now ≡ K.case }
        requires golden { IsGolden case.now golden.now }
        requires snaps { snaps.now.case ≡ case.now }
        requires count { snaps.now.count ≡ length golden.now.touches }
        ensures { IfOk result (λ l. l ≡ record { snaps = snaps.now; golden = golden.now }) }
    {
        let states = places(jobs, MOST_STATES);
        let table = Table::new(alloc, case, golden, snaps, PARTS, states, CHANGES)?;
        let Ok(sites) = SharedSites::new(alloc, PARTS, places(jobs, MOST_SITES)) else {
            drop(table);
            return Err(NoMemory);
        };
        Ok(Learned { table, sites })
    }
    /// Returns the states whose outcome is known.
    #[inline]
    pub(crate) fn table(&self) -> &Table<'c, K>
        ensures { result.now ≡ self.now }
    {
        &self.table
    }

    /// Returns the sites whose outcome is known.
    #[inline]
    pub(crate) fn sites(&self) -> &SharedSites<K>
        ensures { result.now ≡ self.now.snaps.case }
    {
        &self.sites
    }

    /// Returns the live registers of the case.
    #[inline]
    pub(crate) fn live(&self) -> &LiveRegisters
        ensures { IsLiveness self.now.snaps.case (live_of result.now) }
    {
        self.table.live()
    }
}
