//! The answers of a case: the golden run, the campaign file, and the lines of the chosen jobs to the output.
ghost use Rattle.std.specs.Prelude.{◌≡◌};
ghost use Rattle.fs_outside.specs.Faults.{IsCaused};
ghost use Rattle.fs_outside.specs.Past.{content};
ghost use Rattle.answer_pages.specs.Text.{answers_text};
ghost use Rattle.phases.specs.Failures.{status_of};
ghost use Rattle.phases.specs.Output.{IsText};
ghost use Rattle.phases.specs.Status.{IsWriting, is_keep_fault};
ghost use Rattle.answers_run.specs.AnswersCauses.{IsAnswersEnd};
ghost use Rattle.answers_run.specs.AnswersStory.{AnswersStory, IsAnswersOf};

use answer_pages::{Answers, AnswersRefusal, write_answers};
use command_line::AnswersLine;
use fs_model::Case;
use fs_outside::{Disk, Gate, Sink};
use phases::{Answer, Failure, Opened};
use std::alloc::Global;
use std::thread::Threads;

// Writes the answers of the jobs that a board has with a chosen outcome.
fn answer_board<R: Threads + Sync, O: Sink, G: Gate>(
    rt: &R,
    alloc: Global,
    line: &AnswersLine<'_>,
    opened: &Opened<'_>,
    out: &mut O,
    gate: &G,
) -> Answer
    ensures ends { IsWriting (status_of result) }
    ensures output { AnswersStory O.tells O.taken O.faults
        (IsText (answers_text opened.now.baseline.case opened.now.board line.now.chosen.items)) out.old out.new (status_of result) }
{
    let baseline = &opened.baseline;
    baseline.facts();
    let answers = Answers {
        case: baseline.case(),
        golden: baseline.golden(),
        list: baseline.list(),
        board: &opened.board,
        chosen: line.chosen.as_slice(),
    };
    match write_answers(rt, alloc, &answers, line.workers, gate, out) {
        Ok(()) => Ok(()),
        Err(AnswersRefusal::Failed) => Err(Failure::WriteFault),
        Err(AnswersRefusal::NoMemory) => Err(Failure::NoMemory),
    }
}

/// Runs a case without a flip, and writes the answer of each job that its campaign file records with a chosen outcome.
/// The campaign need not be complete. Only reads the file.
pub(crate) fn answer_case<R: Threads + Sync, D: Disk, O: Sink, G: Gate>(
    rt: &R,
    alloc: Global,
    line: &AnswersLine<'_>,
    case: &Case,
    disk: &mut D,
    out: &mut O,
    gate: &G,
) -> Answer
    ensures cause { IsAnswersEnd D.tells (content (D.past disk.old)) case.now (status_of result) }
    ensures output { AnswersStory (D.tells × O.tells) O.taken O.faults
        (IsAnswersOf (content (D.past disk.old)) case.now line.now.chosen.items) out.old out.new (status_of result) }
    ensures keeps { IsCaused (is_keep_fault (status_of result)) (D.faults disk.old) (D.faults disk.new) }
    ensures read { D.tells → D.past disk.new ≡ D.past disk.old }
{
    let opened = Opened::look_at(alloc, case, disk)?;
    let answer = answer_board(rt, alloc, line, &opened, out, gate);
    drop(opened);
    answer
}
