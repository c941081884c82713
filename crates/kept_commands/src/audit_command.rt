//! The command `audit`: the outcomes of a campaign file that are not those of their jobs' runs.
ghost use Rattle.std.specs.Prelude.{◌≡◌, false};
ghost use Rattle.fs_outside.specs.Faults.{IsCaused};
ghost use Rattle.fs_outside.specs.Past.{content};
ghost use Rattle.audit.specs.Text.{audit_text};
ghost use Rattle.phases.specs.Failures.{status_of};
ghost use Rattle.phases.specs.Output.{IsText, OutputStory};
ghost use Rattle.phases.specs.Status.{IsWriting, is_keep_fault};
ghost use Rattle.kept_commands.specs.Keep.{AuditSays, IsKeepCause};
ghost use Rattle.kept_commands.specs.Run.{each_job};

use audit::{AuditRefusal, audit as audit_outcomes};
use fs_model::Case;
use fs_outside::{Disk, Sink};
use phases::{Answer, Failure, Opened};
use std::alloc::Global;

// Writes the audit of a board, with or without blanks.
fn audit_board<O: Sink>(alloc: Global, opened: &Opened<'_>, out: &mut O) -> Answer
    ensures ends { IsWriting (status_of result) }
    ensures output { OutputStory O.tells O.taken O.faults (IsText (audit_text opened.now.baseline.case opened.now.board)) out.old out.new (status_of result) }
{
    let baseline = &opened.baseline;
    baseline.facts();
    match audit_outcomes(
        alloc,
        baseline.case(),
        baseline.golden(),
        baseline.list(),
        &opened.board,
        out,
    ) {
        Ok(_) => Ok(()),
        Err(AuditRefusal::Failed) => Err(Failure::WriteFault),
        Err(AuditRefusal::NoMemory) => Err(Failure::NoMemory),
    }
}

/// Runs a case without a fault, runs each job again for which its campaign file has an outcome, and writes those
/// whose outcome is wrong. The campaign need not be complete. Only reads the file.
pub fn audit<D: Disk, O: Sink>(alloc: Global, case: &Case, disk: &mut D, out: &mut O) -> Answer
    ensures cause { IsKeepCause D.tells false each_job (content (D.past disk.old)) case.now (status_of result) }
    ensures output { OutputStory (D.tells × O.tells) O.taken O.faults (AuditSays (content (D.past disk.old)) case.now) out.old out.new (status_of result) }
    ensures keeps { IsCaused (is_keep_fault (status_of result)) (D.faults disk.old) (D.faults disk.new) }
    ensures read { D.tells → D.past disk.new ≡ D.past disk.old }
{
    let opened = Opened::look_at(alloc, case, disk)?;
    let answer = audit_board(alloc, &opened, out);
    drop(opened);
    answer
}
