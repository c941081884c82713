//! The whole program, over devices that the caller passes.
ghost use Rattle.std.specs.Prelude.{◌≡◌, ◌≢◌, ◌⊎◌, ◌++◌, None, map, string_bytes};
ghost use Rattle.command_line.specs.Answers.{answers_line};
ghost use Rattle.fs_outside.specs.Faults.{IsCaused};
ghost use Rattle.fs_outside.specs.Past.{content};
ghost use Rattle.fs_outside.specs.Writing.{TookPart};
ghost use Rattle.phases.specs.Failures.{status_of};
ghost use Rattle.phases.specs.Status.{HasNoFault, is_keep_fault, is_read_fault, is_write_fault};
ghost use Rattle.phases.specs.declared.status.Status.{Status};
ghost use Rattle.answers_run.specs.AnswersCall.{answers_call, answers_told_text};
ghost use Rattle.answers_run.specs.AnswersCauses.{IsAnswersCause, IsAnswersOwn};
ghost use Rattle.answers_run.specs.Answered.{IsAnswersRun};

use crate::answering::answer_case;
use command_line::{LineRefusal, read_answers};
use fs_outside::{Disk, Gate, Part, Sink, Source, write_parts};
use phases::{Answer, Failure, Status, load_case, tell_status};
use std::alloc::Global;
use std::thread::Threads;

/// Writes the line of a status to the error output. A fault of that output has no other effect.
pub fn tell_answers<E: Sink>(err: &mut E, status: Status)
    ensures told { E.tells → HasNoFault (E.faults err.old) (E.faults err.new)
        → E.taken err.new ≡ E.taken err.old ++ answers_told_text status }
    ensures part { E.tells → TookPart (E.taken err.old) (E.taken err.new) (answers_told_text status) }
{
    match status {
        Status::Usage => {
            let _ = write_parts(
                err,
                &[Part::Text("usage: fail_answers IMAGE KEEP [options]\n")],
            );
        }
        _ => tell_status(err, status),
    }
}

// Writes the answers that these words ask for.
fn answer_words<R: Threads + Sync, S: Source, D: Disk, O: Sink, G: Gate>(
    rt: &R,
    alloc: Global,
    words: &[String],
    image: &mut S,
    disk: &mut D,
    out: &mut O,
    gate: &G,
) -> Answer
    ensures answered { IsAnswersRun S.tells D.tells O.tells
        (answers_call (map string_bytes words.now) (S.left image.old) (content (D.past disk.old)))
        (O.taken out.old) (O.taken out.new) (status_of result) }
    ensures untouched { answers_line (map string_bytes words.now) ≡ None → (image.new ≡ image.old) × (disk.new ≡ disk.old) }
    ensures nothing { status_of result ≢ Status.Done → status_of result ≢ Status.WriteFault → status_of result ≢ Status.NoMemory
        → out.new ≡ out.old }
    ensures reads { IsCaused (is_read_fault (status_of result)) (S.faults image.old) (S.faults image.new) }
    ensures keeps { IsCaused (is_keep_fault (status_of result)) (D.faults disk.old) (D.faults disk.new) }
    ensures writes { IsCaused (is_write_fault (status_of result)) (O.faults out.old) (O.faults out.new) }
    ensures disk { D.tells → D.past disk.new ≡ D.past disk.old }
{
    let line = match read_answers(alloc, words) {
        Ok(line) => line,
        Err(LineRefusal::Usage) => return Err(Failure::Usage),
        Err(LineRefusal::NoMemory) => return Err(Failure::NoMemory),
    };
    let loaded = load_case(alloc, &line.case, image)?;
    let answer = answer_case(rt, alloc, &line, &loaded.case, disk, out, gate);
    drop(loaded);
    answer
}

/// Writes the answers that these words ask for, the program's name first, and returns how the call ended.
///
/// The image is read from `image`, and the campaign file `disk` is only read. For each job that the file records with
/// a chosen outcome, in the order of the jobs, `out` gets a line with its site, its weight, the outcome of its own run,
/// all bytes that this run sends, and how it ends. A line about a failure goes to `err`. The jobs run in threads of
/// `rt`, which call the gate before each. The clauses about bytes hold if the device tells its bytes, as a device in
/// memory does.
pub fn answers_run<R: Threads + Sync, S: Source, D: Disk, O: Sink, E: Sink, G: Gate>(
    rt: &R,
    alloc: Global,
    words: &[String],
    image: &mut S,
    disk: &mut D,
    out: &mut O,
    err: &mut E,
    gate: &G,
) -> Status
    // Each field of `IsAnswersRun` states one fact about the answer or the output, and has a comment in
    // `specs/Answered.antt`: `cause`, `usage`, `no_line`, `said`, `part` and `short`.
    ensures answered { IsAnswersRun S.tells D.tells O.tells
        (answers_call (map string_bytes words.now) (S.left image.old) (content (D.past disk.old)))
        (O.taken out.old) (O.taken out.new) result }
    // An answer that has its cause is given, unless a device failed or memory ran out.
    ensures complete { let call = answers_call (map string_bytes words.now) (S.left image.old) (content (D.past disk.old)) in
        S.tells → D.tells → (status : Status) → IsAnswersOwn status → IsAnswersCause D.tells call status
        → HasNoFault (S.faults image.old) (S.faults image.new) → HasNoFault (D.faults disk.old) (D.faults disk.new)
        → HasNoFault (O.faults out.old) (O.faults out.new)
        → (result ≡ status) ⊎ (result ≡ Status.NoMemory) }

    // A fault of a device is the answer exactly if the count of its faults rose.
    ensures reads { IsCaused (is_read_fault result) (S.faults image.old) (S.faults image.new) }
    ensures keeps { IsCaused (is_keep_fault result) (D.faults disk.old) (D.faults disk.new) }
    ensures writes { IsCaused (is_write_fault result) (O.faults out.old) (O.faults out.new) }

    // With any answer but Done, WriteFault and NoMemory, the output takes nothing.
    ensures nothing { result ≢ Status.Done → result ≢ Status.WriteFault → result ≢ Status.NoMemory → out.new ≡ out.old }
    // If the words are not a valid line, no device is touched. The campaign file is only read.
    ensures untouched { answers_line (map string_bytes words.now) ≡ None → (image.new ≡ image.old) × (disk.new ≡ disk.old) }
    ensures disk { D.tells → D.past disk.new ≡ D.past disk.old }
    // The error output takes the line of the status, or a part of it if that output fails.
    ensures told { E.tells → HasNoFault (E.faults err.old) (E.faults err.new)
        → E.taken err.new ≡ E.taken err.old ++ answers_told_text result }
    ensures told_part { E.tells → TookPart (E.taken err.old) (E.taken err.new) (answers_told_text result) }
{
    let answer = answer_words(rt, alloc, words, image, disk, out, gate);
    let status = Status::of(answer);
    tell_answers(err, status);
    status
}
