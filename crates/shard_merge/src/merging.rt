//! The merger of boards into campaign files.
use crate::disagreements::{Disagreement, find_disagreement};
use crate::gained::count_gained;
use crate::paging::append_pages;
use def_use::{Board, JobList};
use fs_model::{NoMemory, Outcome, Row};
use fs_outside::Disk;
use result_keeper::{DiskFault, Keeper};
use std::alloc::Global;
use std::marker::Model;

/// Why a board was not merged.
#[derive(Clone, Copy, Debug, PartialEq, Eq)]
pub enum MergeRefusal {
    /// The least job that has different outcomes: the keeper's, and the other board's.
    Disagree {
        job: u32,
        kept: Outcome,
        other: Outcome,
    },
    /// The disk failed, and its count of faults rose.
    DiskFault,
}

/// Merges boards into campaign files, with memory for a page.
#[derive(Drop)]
pub struct Merger {
    page: u32,
    rows: Vec<Row>,
}

impl Model for Merger {
    ghost use Rattle.std.specs.Prelude.{ℕ, ◌<◌, ◌≤◌, vec_capacity};

    ghost Value = { ℕ };

    ghost view = { λ m. m.page };

    ghost invariant = { λ m. (0 < m.page) × (m.page ≤ vec_capacity m.rows) };
}

impl Merger {
    ghost use Rattle.std.specs.Prelude.{◌≡◌, ◌^◌, ◌<◌, length, true, IfOk};
    ghost use Rattle.result_keeper.specs.Keep.{HasFile};
    ghost use Rattle.shard_merge.specs.Merged.{IfDisagree, IsMerged};

    /// Returns a merger for keepers with pages of this size.
    pub fn new(alloc: Global, page: u32) -> Result<Merger, NoMemory>
        requires some { 0 < page }
        requires few { page < 2 ^ 16 }
        ensures { IfOk result (λ merger. merger ≡ page) }
    {
        let rows = Vec::with_capacity(alloc, page as usize)?;
        Ok(Merger { page, rows })
    }

    /// Appends the rows of the jobs that the other board has and the keeper's board lacks, in job order and in
    /// batches of at most a page, and returns their number. If a job has two outcomes, changes nothing. After a
    /// fault of the disk the keeper must not be used again.
    ///
    /// # Errors
    ///
    /// `Disagree` with the least job that has two outcomes, and `DiskFault` if the disk failed.
    pub fn merge<D: Disk>(
        &mut self,
        keeper: &mut Keeper<'_>,
        disk: &mut D,
        list: &JobList,
        other: &Board,
    ) -> Result<u32, MergeRefusal>
        requires healthy { keeper.old.healthy ≡ true }
        requires page { keeper.old.page ≡ self.old }
        requires jobs { keeper.old.list ≡ list.now.list }
        requires other { length other.now ≡ length list.now.list }
        requires file { D.tells → HasFile keeper.old (D.past disk.old) }

        ensures merged { IsMerged D.tells keeper.old keeper.new other.now (D.past disk.old) (D.past disk.new) (D.faults disk.old) (D.faults disk.new) result }
        // A disagreement is found before the first call of the disk.
        ensures untouched { IfDisagree result (λ _ _ _. disk.new ≡ disk.old) }
        ensures same { self.new ≡ self.old }
    {
        let page = self.page;
        if let Some(found) = find_disagreement(keeper.board(), other) {
            let Disagreement { job, kept, other } = found;
            return Err(MergeRefusal::Disagree { job, kept, other });
        }
        let gained = count_gained(keeper.board(), other);
        match append_pages(&mut self.rows, page, keeper, disk, list, other, gained) {
            Ok(()) => Ok(gained),
            Err(DiskFault) => Err(MergeRefusal::DiskFault),
        }
    }
}
