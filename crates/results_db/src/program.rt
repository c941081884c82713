//! The whole program, over devices that the caller passes.
ghost use Rattle.std.specs.Prelude.{◌≡◌, ◌≢◌, ◌⊎◌, ◌++◌, false, None, map, string_bytes};
ghost use Rattle.fs_outside.specs.Faults.{IsCaused};
ghost use Rattle.fs_outside.specs.Past.{content};
ghost use Rattle.fs_outside.specs.Writing.{TookPart};
ghost use Rattle.phases.specs.Failures.{status_of};
ghost use Rattle.phases.specs.Status.{HasNoFault};
ghost use Rattle.phases.specs.Status.{is_keep_fault, is_other_fault, is_read_fault, is_store_fault, is_write_fault};
ghost use Rattle.phases.specs.declared.status.Status.{Status};
ghost use Rattle.kept_commands.specs.Causes.{IsCause, IsOwn};
ghost use Rattle.results_db.specs.Export.{IsExported, export_asked, export_call, export_text};

use crate::exports::export_case;
use command_line::{LineRefusal, read_export};
use fs_outside::{Disk, Part, Sink, Source, write_parts};
use phases::{Answer, Failure, Status, load_case, tell_status};
use row_store::RowStore;
use std::alloc::Global;

/// Writes the line of an export's status to the error output. A fault of that output has no other effect.
pub fn tell_export<E: Sink>(err: &mut E, status: Status)
    ensures told { E.tells → HasNoFault (E.faults err.old) (E.faults err.new)
        → E.taken err.new ≡ E.taken err.old ++ export_text status }
    ensures part { E.tells → TookPart (E.taken err.old) (E.taken err.new) (export_text status) }
{
    match status {
        Status::Usage => {
            let _ = write_parts(
                err,
                &[Part::Text("usage: fail_export IMAGE KEEP DB [options]\n")],
            );
        }
        _ => tell_status(err, status),
    }
}

// Runs the export of these words.
fn export_words<S: Source, D: Disk, W: RowStore, O: Sink>(
    alloc: Global,
    words: &[String],
    image: &mut S,
    disk: &mut D,
    store: &mut W,
    out: &mut O,
) -> Answer
    ensures exported { IsExported S.tells D.tells W.tells O.tells
        (export_call (map string_bytes words.now) (S.left image.old) (content (D.past disk.old)))
        (W.rows store.new) (O.taken out.old) (O.taken out.new) (status_of result) }
    ensures others { W.tells → status_of result ≢ Status.Done → status_of result ≢ Status.WriteFault
        → W.rows store.new ≡ W.rows store.old }
    ensures no_other { is_other_fault (status_of result) ≡ false }
    ensures untouched { export_asked (map string_bytes words.now) ≡ None
        → (image.new ≡ image.old) × ((disk.new ≡ disk.old) × (store.new ≡ store.old)) }
    ensures nothing { status_of result ≢ Status.Done → status_of result ≢ Status.WriteFault → out.new ≡ out.old }
    ensures reads { IsCaused (is_read_fault (status_of result)) (S.faults image.old) (S.faults image.new) }
    ensures keeps { IsCaused (is_keep_fault (status_of result)) (D.faults disk.old) (D.faults disk.new) }
    ensures stores { IsCaused (is_store_fault (status_of result)) (W.faults store.old) (W.faults store.new) }
    ensures writes { IsCaused (is_write_fault (status_of result)) (O.faults out.old) (O.faults out.new) }
    ensures disk { D.tells → D.past disk.new ≡ D.past disk.old }
{
    let case = match read_export(alloc, words) {
        Ok(case) => case,
        Err(LineRefusal::Usage) => return Err(Failure::Usage),
        Err(LineRefusal::NoMemory) => return Err(Failure::NoMemory),
    };
    let loaded = load_case(alloc, &case, image)?;
    let answer = export_case(alloc, &loaded.case, disk, store, out);
    drop(loaded);
    answer
}

/// Runs the export of these words, the program's name first, and returns how it ended.
///
/// The image is read from `image`, and the campaign file `disk` is only read. The rows of `store` are replaced by
/// a row for each job of the case, with its weight and its outcome in the file; then `out` gets the number of
/// rows. A line about a failure goes to `err`. The clauses about bytes and rows hold if the device tells them, as
/// a device in memory does.
pub fn export_run<S: Source, D: Disk, W: RowStore, O: Sink, E: Sink>(
    alloc: Global,
    words: &[String],
    image: &mut S,
    disk: &mut D,
    store: &mut W,
    out: &mut O,
    err: &mut E,
) -> Status
    // Each field of `IsExported` states one fact about the answer, the rows or the output, and has a comment in
    // `specs/Export.antt`: `cause`, `usage`, `no_line`, `rows`, `right`, `said` and `part`.
    ensures exported { IsExported S.tells D.tells W.tells O.tells
        (export_call (map string_bytes words.now) (S.left image.old) (content (D.past disk.old)))
        (W.rows store.new) (O.taken out.old) (O.taken out.new) result }
    // An answer that has its cause is given, unless a device failed or memory ran out.
    ensures complete { S.tells → D.tells → (status : Status) → IsOwn status
        → IsCause D.tells (Unit {0})
        (export_call (map string_bytes words.now) (S.left image.old) (content (D.past disk.old))) status
        → HasNoFault (S.faults image.old) (S.faults image.new) → HasNoFault (D.faults disk.old) (D.faults disk.new)
        → HasNoFault (W.faults store.old) (W.faults store.new) → HasNoFault (O.faults out.old) (O.faults out.new)
        → (result ≡ status) ⊎ (result ≡ Status.NoMemory) }

    // A fault of a device is the answer exactly if the count of its faults rose.
    ensures reads { IsCaused (is_read_fault result) (S.faults image.old) (S.faults image.new) }
    ensures keeps { IsCaused (is_keep_fault result) (D.faults disk.old) (D.faults disk.new) }
    ensures stores { IsCaused (is_store_fault result) (W.faults store.old) (W.faults store.new) }
    ensures writes { IsCaused (is_write_fault result) (O.faults out.old) (O.faults out.new) }

    // With any answer but Done and WriteFault, the store keeps its old rows, and the output takes nothing.
    ensures others { W.tells → result ≢ Status.Done → result ≢ Status.WriteFault
        → W.rows store.new ≡ W.rows store.old }
    ensures nothing { result ≢ Status.Done → result ≢ Status.WriteFault → out.new ≡ out.old }
    // If the words are not a valid line, no device is touched. The campaign file is only read.
    ensures untouched { export_asked (map string_bytes words.now) ≡ None
        → (image.new ≡ image.old) × ((disk.new ≡ disk.old) × (store.new ≡ store.old)) }
    ensures disk { D.tells → D.past disk.new ≡ D.past disk.old }
    // The error output takes the line of the status, or a part of it if that output fails.
    ensures told { E.tells → HasNoFault (E.faults err.old) (E.faults err.new)
        → E.taken err.new ≡ E.taken err.old ++ export_text result }
    ensures told_part { E.tells → TookPart (E.taken err.old) (E.taken err.new) (export_text result) }
{
    let answer = export_words(alloc, words, image, disk, store, out);
    let status = Status::of(answer);
    tell_export(err, status);
    status
}
