//! The command `report`: the counts that a campaign file keeps.
ghost use Rattle.std.specs.Prelude.{◌≡◌, ◌+◌, false, if◌then◌else◌};
ghost use Rattle.fs_outside.specs.Faults.{IsCaused};
ghost use Rattle.fs_outside.specs.Past.{content};
ghost use Rattle.fs_model.specs.declared.outcomes.Outcome.{Outcome};
ghost use Rattle.fs_model.specs.Filling.{board_total};
ghost use Rattle.fs_model.specs.Outcome.{same_outcome, total_at};
ghost use Rattle.phases.specs.Failures.{status_of};
ghost use Rattle.phases.specs.Output.{IsText, OutputStory};
ghost use Rattle.phases.specs.Reports.{kept_report};
ghost use Rattle.phases.specs.Status.{IsWriting, is_keep_fault};
ghost use Rattle.kept_commands.specs.Keep.{IsKeepCause, ReportSays};
ghost use Rattle.kept_commands.specs.Run.{no_job};

use command_line::Format;
use fs_model::{Case, Totals};
use fs_outside::{Disk, Sink};
use phases::{Answer, Opened, report_totals, whole_totals};
use report::write_jobs_csv;
use std::alloc::Global;

// Writes the report of a board: its totals, or each job.
fn report_board<O: Sink>(
    alloc: Global,
    format: Format,
    opened: &Opened<'_>,
    totals: &Totals,
    out: &mut O,
) -> Answer
    requires { (o : Outcome) → total_at totals.now o ≡ board_total opened.now.baseline.list.list opened.now.board o
        + (if same_outcome Outcome.NoEffect o then opened.now.baseline.list.dead else 0) }
    ensures ends { IsWriting (status_of result) }
    ensures output { OutputStory O.tells O.taken O.faults
        (IsText (kept_report format opened.now.baseline.case opened.now.board)) out.old out.new (status_of result) }
{
    let baseline = &opened.baseline;
    baseline.facts();
    let sites = baseline.sites();
    match format {
        Format::Csv => Ok(write_jobs_csv(alloc, out, baseline.list(), &opened.board)?),
        Format::Text => report_totals(alloc, Format::Text, baseline.golden(), sites, totals, out),
        Format::Json => report_totals(alloc, Format::Json, baseline.golden(), sites, totals, out),
    }
}

/// Runs a case without a fault, and reports what its campaign file keeps. Only reads the file.
pub fn report<D: Disk, O: Sink>(
    alloc: Global,
    format: Format,
    case: &Case,
    disk: &mut D,
    out: &mut O,
) -> Answer
    ensures cause { IsKeepCause D.tells false no_job (content (D.past disk.old)) case.now (status_of result) }
    ensures output { OutputStory (D.tells × O.tells) O.taken O.faults
        (ReportSays format false (content (D.past disk.old)) case.now) out.old out.new (status_of result) }
    ensures keeps { IsCaused (is_keep_fault (status_of result)) (D.faults disk.old) (D.faults disk.new) }
    ensures read { D.tells → D.past disk.new ≡ D.past disk.old }
{
    let opened = Opened::look_at(alloc, case, disk)?;
    match whole_totals(opened.baseline.list(), &opened.board) {
        Ok(totals) => {
            let answer = report_board(alloc, format, &opened, &totals, out);
            drop(opened);
            answer
        }
        Err(failure) => {
            drop(opened);
            Err(failure)
        }
    }
}
