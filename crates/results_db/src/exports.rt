//! The export of a case: golden run, campaign file, rows to the store, and their number to the output.
ghost use Rattle.std.specs.Prelude.{◌≡◌, false, length};
ghost use Rattle.fs_outside.specs.Faults.{IsCaused};
ghost use Rattle.fs_outside.specs.Past.{content};
ghost use Rattle.fs_model.specs.Job.{jobs_in};
ghost use Rattle.phases.specs.Failures.{status_of};
ghost use Rattle.phases.specs.Output.{IsText, OutputStory};
ghost use Rattle.phases.specs.Status.{is_keep_fault};
ghost use Rattle.results_db.specs.Rows.{exported_text};
ghost use Rattle.results_db.specs.Stories.{AreRowsIn, AreRowsOf, ExportsFrom, IsExportCause, IsStored, StoreStory};

use crate::rows::rows_of;
use fs_model::Case;
use fs_outside::{Disk, Failed, Part, Sink, write_parts};
use phases::{Answer, Failure, Opened};
use row_store::{RowStore, StoreRefusal};
use std::alloc::Global;

// Writes the number of stored rows to the output.
fn write_exported<O: Sink>(count: usize, out: &mut O) -> Answer
    ensures ends { IsStored (status_of result) }
    ensures output { OutputStory O.tells O.taken O.faults (IsText (exported_text count)) out.old out.new (status_of result) }
{
    let written = write_parts(
        out,
        &[
            Part::Text("exported "),
            Part::Number(count as u64),
            Part::Text("\n"),
        ],
    );
    match written {
        Ok(()) => Ok(()),
        Err(Failed) => Err(Failure::WriteFault),
    }
}

// Stores the rows of a board's jobs.
fn export_board<W: RowStore, O: Sink>(
    alloc: Global,
    opened: &Opened<'_>,
    store: &mut W,
    out: &mut O,
) -> Answer
    ensures cause { ExportsFrom opened.now.board (status_of result) }
    ensures store { StoreStory (Unit {0}) W.tells W.rows W.faults (AreRowsOf opened.now.baseline.case opened.now.board) store.old store.new (status_of result) }
    ensures output { OutputStory O.tells O.taken O.faults (IsText (exported_text (length (jobs_in opened.now.baseline.case)))) out.old out.new
        (status_of result) }
    ensures keeps { is_keep_fault (status_of result) ≡ false }
{
    let baseline = &opened.baseline;
    baseline.facts();
    let rows = rows_of(alloc, baseline.list(), &opened.board)?;
    match store.replace_all(alloc, rows.as_slice()) {
        Ok(()) => write_exported(rows.len(), out),
        Err(StoreRefusal::Failed) => Err(Failure::StoreFault),
        Err(StoreRefusal::NoMemory) => Err(Failure::NoMemory),
    }
}

/// Runs a case without a flip, and stores a row for each of its jobs, with its outcome in the campaign file. Does
/// not write to the file.
pub(crate) fn export_case<D: Disk, W: RowStore, O: Sink>(
    alloc: Global,
    case: &Case,
    disk: &mut D,
    store: &mut W,
    out: &mut O,
) -> Answer
    ensures cause { IsExportCause D.tells (content (D.past disk.old)) case.now (status_of result) }
    ensures store { StoreStory D.tells W.tells W.rows W.faults (AreRowsIn (content (D.past disk.old)) case.now) store.old store.new (status_of result) }
    ensures output { OutputStory O.tells O.taken O.faults (IsText (exported_text (length (jobs_in case.now)))) out.old out.new (status_of result) }
    ensures keeps { IsCaused (is_keep_fault (status_of result)) (D.faults disk.old) (D.faults disk.new) }
    ensures read { D.tells → D.past disk.new ≡ D.past disk.old }
{
    let opened = Opened::look_at(alloc, case, disk)?;
    let answer = export_board(alloc, &opened, store, out);
    drop(opened);
    answer
}
