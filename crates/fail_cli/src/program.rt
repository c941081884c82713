//! The whole program, over devices that the caller passes.
ghost use Rattle.std.specs.Prelude.{◌≡◌, ◌≢◌, ◌⊎◌, ◌++◌, false, map, string_bytes};
ghost use Rattle.fs_outside.specs.Faults.{IsCaused};
ghost use Rattle.fs_outside.specs.Past.{content};
ghost use Rattle.fs_outside.specs.Writing.{TookPart};
ghost use Rattle.command_line.specs.Commands.{names_image, names_keep, names_other};
ghost use Rattle.command_line.specs.Line.{line};
ghost use Rattle.phases.specs.declared.status.Status.{Status};
ghost use Rattle.phases.specs.Status.{HasNoFault, status_text};
ghost use Rattle.phases.specs.Status.{is_keep_fault, is_other_fault, is_read_fault, is_store_fault, is_write_fault};
ghost use Rattle.kept_commands.specs.Call.{call_of};
ghost use Rattle.kept_commands.specs.Causes.{IsCause, IsOwn};
ghost use Rattle.kept_commands.specs.Words.{DoesNot, TellsFiles, TellsImage};
ghost use Rattle.fail_cli.specs.Answered.{IsAnswered};

use crate::commands::run_line;
use fs_outside::{Disk, Gate, Sink, Source};
use phases::{Status, tell_status};
use std::alloc::Global;
use std::sync::Wait;
use std::thread::Threads;

/// Runs the command of these words, the program's name first, and returns how it ended.
///
/// The image is read from `image`, the campaign file is `disk`, and `second` is the second campaign file of a
/// `merge`. The report goes to `out`, and a line about a failure to `err`. The jobs of a campaign run in threads
/// of `rt`, which call the gate between the claim of a job and its run. The clauses about bytes hold if the device
/// tells its bytes, as a device in memory does.
pub fn fail_run<R: Threads + Wait + Sync, S: Source, T: Source, D: Disk, O: Sink, E: Sink, G: Gate>(
    rt: &R,
    alloc: Global,
    words: &[String],
    image: &mut S,
    second: &mut T,
    disk: &mut D,
    out: &mut O,
    err: &mut E,
    gate: &G,
) -> Status
    // Each field of `IsAnswered` states one fact about the answer, the report or the campaign file, and has a comment
    // in `specs/Answered.antt`: `cause`, `usage`, `no_line`, `counts`, `texts`, `report`, `part`, `story` and `union`.
    // `texts` has a field for each command, in `specs/TrueTexts.antt`.
    ensures answered { IsAnswered S.tells D.tells T.tells O.tells
        (call_of (map string_bytes words.now) (S.left image.old) (content (D.past disk.old)) (T.left second.old))
        (O.taken out.old) (O.taken out.new) (D.past disk.old) (D.past disk.new) result }
    // An answer that has its cause is given, unless a device failed or memory ran out.
    ensures complete { let call = call_of (map string_bytes words.now) (S.left image.old) (content (D.past disk.old))
        (T.left second.old) in TellsImage call.said S.tells → TellsFiles call.said D.tells T.tells
        → (status : Status) → IsOwn status → IsCause D.tells T.tells call status
        → HasNoFault (S.faults image.old) (S.faults image.new) → HasNoFault (D.faults disk.old) (D.faults disk.new)
        → HasNoFault (T.faults second.old) (T.faults second.new) → HasNoFault (O.faults out.old) (O.faults out.new)
        → (result ≡ status) ⊎ (result ≡ Status.NoMemory) }

    // A fault of a device is the answer exactly if the count of its faults rose. The program has no table to store.
    ensures reads { IsCaused (is_read_fault result) (S.faults image.old) (S.faults image.new) }
    ensures writes { IsCaused (is_write_fault result) (O.faults out.old) (O.faults out.new) }
    ensures keeps { IsCaused (is_keep_fault result) (D.faults disk.old) (D.faults disk.new) }
    ensures others { IsCaused (is_other_fault result) (T.faults second.old) (T.faults second.new) }
    ensures stores { is_store_fault result ≡ false }

    // With any answer but Done and WriteFault, the output takes nothing.
    ensures nothing { result ≢ Status.Done → result ≢ Status.WriteFault → out.new ≡ out.old }
    // The error output takes the line of the status, or a part of it if that output fails.
    ensures told { E.tells → HasNoFault (E.faults err.old) (E.faults err.new)
        → E.taken err.new ≡ E.taken err.old ++ status_text result }
    ensures told_part { E.tells → TookPart (E.taken err.old) (E.taken err.new) (status_text result) }

    // A device that the line does not name is not touched. An invalid line names no device.
    ensures no_image { DoesNot names_image (line (map string_bytes words.now)) → image.new ≡ image.old }
    ensures disk { DoesNot names_keep (line (map string_bytes words.now)) → disk.new ≡ disk.old }
    ensures second { DoesNot names_other (line (map string_bytes words.now)) → second.new ≡ second.old }
{
    let answer = run_line(rt, alloc, words, image, second, disk, out, gate);
    let status = Status::of(answer);
    tell_status(err, status);
    status
}
