//! Putting rows on a board.
ghost use Rattle.std.specs.Prelude.{◌≡◌, ◌+◌, [], ◌∷◌, length, map, None};
ghost use Rattle.def_use.specs.Board.{kept_of};
ghost use Rattle.fs_model.specs.Verdict.{site_of_row};
ghost use Rattle.result_keeper.specs.Acceptance.{names_job, outcome_rows, site_named, stranger};
ghost use Rattle.keep_format.specs.KeepFile.{file_row_of};
ghost use Rattle.result_keeper.specs.Boards.{IsBlankJob, AreFileable, IsOnce, filed};

use def_use::{Board, JobList, Walk};
use fs_model::Row;
use keep_format::{KeptRow, RowIter};

// Puts a row on the board if its site is that of a job, and returns whether it is.
fn file_row(board: &mut Board, walk: &mut Walk<'_>, row: Row) -> bool
    requires long { length board.old ≡ length walk.old.list }
    requires once { IsOnce walk.old.list }
    ensures named { result ≡ names_job walk.old.list (site_of_row row) }
    ensures board { board.new ≡ filed walk.old.list board.old (row ∷ []) }
    ensures kept { IsBlankJob walk.old.list board.old row → kept_of board.new ≡ kept_of board.old + 1 }
    ensures same { walk.new ≡ walk.old }
{
    match walk.find(row.cycle, row.cell, row.bit) {
        Some(number) => {
            let _ = board.put(number, row.outcome);
            true
        }
        None => false,
    }
}

/// Puts rows on the board, each for a job that is still blank.
pub(crate) fn file_rows(board: &mut Board, list: &JobList, rows: &[Row])
    requires long { length board.old ≡ length list.now.list }
    requires once { IsOnce list.now.list }
    requires blank { AreFileable list.now.list board.old rows.now }
    ensures board { board.new ≡ filed list.now.list board.old rows.now }
    ensures long { length board.new ≡ length list.now.list }
    ensures kept { kept_of board.new ≡ kept_of board.old + length rows.now }
{
    let mut walk = list.walk();
    for row in rows {
        file_row(board, &mut walk, *row);
    }
}

// Puts a row of a file on the board if its site is that of a job and it has an outcome. Returns whether its site
// is that of a job.
fn file_kept_row(board: &mut Board, walk: &mut Walk<'_>, kept: KeptRow) -> bool
    requires long { length board.old ≡ length walk.old.list }
    requires once { IsOnce walk.old.list }
    ensures named { result ≡ names_job walk.old.list (site_named (file_row_of kept)) }
    ensures board { board.new ≡ filed walk.old.list board.old (outcome_rows (file_row_of kept ∷ [])) }
    ensures same { walk.new ≡ walk.old }
{
    match walk.find(kept.cycle, kept.cell, kept.bit) {
        Some(number) => {
            if let Some(outcome) = kept.outcome {
                let _ = board.put(number, outcome);
            }
            true
        }
        None => false,
    }
}

/// Puts the rows of a file on the board, up to the first that names no job, and returns the offset of that one.
/// Old rows are not put on the board.
pub(crate) fn file_kept(board: &mut Board, list: &JobList, rows: RowIter<'_>) -> Option<u64>
    requires long { length board.old ≡ length list.now.list }
    requires once { IsOnce list.now.list }
    ensures stranger { result ≡ stranger list.now.list rows.entry }
    ensures board { result ≡ None → board.new ≡ filed list.now.list board.old (outcome_rows (map file_row_of rows.entry)) }
    ensures long { length board.new ≡ length list.now.list }
{
    let mut walk = list.walk();
    for kept in rows {
        if !file_kept_row(board, &mut walk, kept) {
            return Some(kept.at);
        }
    }
    None
}
