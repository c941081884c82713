//! Appending the gained jobs page by page.
ghost use Rattle.std.specs.Prelude.{◌≡◌, ◌<◌, ◌≤◌, true, false, [], ◌∷◌, length, drop, IfOk, MatchResult, OnErr, OnOk, vec_capacity};
ghost use Rattle.fs_outside.specs.Faults.{HasCause};
ghost use Rattle.fs_outside.specs.Past.{content, EachImage, LeavesOnly};
ghost use Rattle.keep_format.specs.KeepFile.{FileRow, rows_held};
ghost use Rattle.result_keeper.specs.Acceptance.{HasRightOldRows, IsSound};
ghost use Rattle.result_keeper.specs.Batches.{IsBroken, KeepsSome, after_batches, appended_all};
ghost use Rattle.result_keeper.specs.Keep.{Gives, HasFile, HoldsMore, IsBeforeOrAfter, RowStays, appended};
ghost use Rattle.shard_merge.specs.Gained.{batches_gained, gained, gained_behind, page_gained};
ghost use Rattle.shard_merge.specs.Merged.{IsCutShort, IsRightFor, RecordsSome};

use crate::gained::next_rows;
use def_use::{Board, JobList};
use fs_model::Row;
use fs_outside::Disk;
use result_keeper::{DiskFault, Keeper};

// Appends the rows of the next `count` jobs gained from `from` on. Returns the number from which the search for
// later ones continues.
fn append_page<D: Disk>(
    rows: &mut Vec<Row>,
    keeper: &mut Keeper<'_>,
    disk: &mut D,
    list: &JobList,
    other: &Board,
    from: u32,
    count: u32,
) -> Result<u32, DiskFault>
    requires healthy { keeper.old.healthy ≡ true }
    requires jobs { keeper.old.list ≡ list.now.list }
    requires other { length other.now ≡ length list.now.list }
    requires file { D.tells → HasFile keeper.old (D.past disk.old) }
    requires some { 0 < count }
    requires few { count ≤ keeper.old.page }
    requires room { count ≤ vec_capacity rows.old }
    requires there { count ≤ length (gained_behind from keeper.old.board other.now) }

    ensures keeper { MatchResult result
        (λ _. keeper.new ≡ after_batches keeper.old (page_gained keeper.old other.now from count ∷ []))
        (λ _. keeper.new ≡ record keeper.old { healthy = false }) }
    ensures behind { IfOk result (λ next. gained_behind next keeper.new.board other.now ≡ drop count (gained_behind from keeper.old.board other.now)) }
    ensures cause { HasCause (D.faults disk.old) (D.faults disk.new) result }
    ensures room { vec_capacity rows.new ≡ vec_capacity rows.old }

    ensures file { D.tells → OnOk result (HasFile keeper.new (D.past disk.new)) }
    ensures bytes { D.tells → OnOk result
        (content (D.past disk.new) ≡ appended (content (D.past disk.old)) keeper.old.gate (page_gained keeper.old other.now from count)) }
    ensures added { D.tells → OnOk result (HoldsMore (IsRightFor keeper.old other.now × EachImage (D.past disk.old) HasRightOldRows)
        (rows_held (content (D.past disk.old))) (page_gained keeper.old other.now from count) (content (D.past disk.new))) }
    ensures any_moment { D.tells → LeavesOnly (D.past disk.old) (D.past disk.new)
        (IsBeforeOrAfter (IsRightFor keeper.old other.now × EachImage (D.past disk.old) HasRightOldRows) (rows_held (content (D.past disk.old)))
        (page_gained keeper.old other.now from count)) }
    ensures sound { D.tells → IsRightFor keeper.old other.now → EachImage (D.past disk.old) IsSound → LeavesOnly (D.past disk.old) (D.past disk.new) IsSound }
    ensures old_rows { D.tells → IsRightFor keeper.old other.now → EachImage (D.past disk.old) HasRightOldRows
        → LeavesOnly (D.past disk.old) (D.past disk.new) HasRightOldRows }
    ensures rows_stay { D.tells → IsRightFor keeper.old other.now → (row : FileRow) → RowStays (D.past disk.old) (D.past disk.new) row }
{
    let next = next_rows(keeper.board(), other, list, from, count, rows);
    keeper.append(disk, rows)?;
    Ok(next)
}

/// Appends the rows of all gained jobs, whose number is given, in batches of at most a page.
pub(crate) fn append_pages<D: Disk>(
    rows: &mut Vec<Row>,
    page: u32,
    keeper: &mut Keeper<'_>,
    disk: &mut D,
    list: &JobList,
    other: &Board,
    all: u32,
) -> Result<(), DiskFault>
    requires healthy { keeper.old.healthy ≡ true }
    requires jobs { keeper.old.list ≡ list.now.list }
    requires board { length keeper.old.board ≡ length list.now.list }
    requires other { length other.now ≡ length list.now.list }
    requires file { D.tells → HasFile keeper.old (D.past disk.old) }
    requires page { keeper.old.page ≡ page }
    requires some { 0 < page }
    requires room { page ≤ vec_capacity rows.old }
    requires all { all ≡ length (gained keeper.old.board other.now) }

    ensures keeper { MatchResult result
        (λ _. keeper.new ≡ after_batches keeper.old (batches_gained keeper.old other.now))
        (λ _. IsBroken (D.tells × IsRightFor keeper.old other.now) (D.past disk.old) (D.past disk.new) keeper.old
        (batches_gained keeper.old other.now) keeper.new) }
    ensures cut_short { OnErr result (IsCutShort D.tells (D.past disk.old) (D.past disk.new) keeper.old (batches_gained keeper.old other.now) keeper.new) }
    ensures cause { HasCause (D.faults disk.old) (D.faults disk.new) result }
    ensures room { vec_capacity rows.new ≡ vec_capacity rows.old }

    ensures file { D.tells → OnOk result (HasFile keeper.new (D.past disk.new)) }
    ensures bytes { D.tells → OnOk result
        (content (D.past disk.new) ≡ appended_all (content (D.past disk.old)) keeper.old.gate (batches_gained keeper.old other.now)) }
    ensures any_moment { D.tells → LeavesOnly (D.past disk.old) (D.past disk.new)
        (RecordsSome (D.past disk.old) (batches_gained keeper.old other.now)) }
    ensures any_moment_kept { D.tells → IsRightFor keeper.old other.now → LeavesOnly (D.past disk.old) (D.past disk.new)
        (KeepsSome (D.past disk.old) (batches_gained keeper.old other.now)) }
    ensures gives { D.tells → IsRightFor keeper.old other.now → EachImage (D.past disk.old) HasRightOldRows
        → Gives keeper.old.case keeper.old.board (content (D.past disk.old))
        → OnOk result (EachImage (D.past disk.new) (Gives keeper.new.case keeper.new.board)) }
    ensures sound { D.tells → IsRightFor keeper.old other.now → EachImage (D.past disk.old) IsSound → LeavesOnly (D.past disk.old) (D.past disk.new) IsSound }
    ensures old_rows { D.tells → IsRightFor keeper.old other.now → EachImage (D.past disk.old) HasRightOldRows
        → LeavesOnly (D.past disk.old) (D.past disk.new) HasRightOldRows }
    ensures rows_stay { D.tells → IsRightFor keeper.old other.now → (row : FileRow) → RowStays (D.past disk.old) (D.past disk.new) row }
{
    let mut from = 0;
    let mut left = all;
    while left > 0 {
        let count = left.min(page);
        from = append_page(rows, keeper, disk, list, other, from, count)?;
        left -= count;
    }
    Ok(())
}
