//! The whole program, over devices that the caller passes.
ghost use Rattle.std.specs.Prelude.{◌≡◌, ◌≢◌, ◌⊎◌, ◌++◌, ◌≤◌, [], Ok, None, IfErr, IfOk, length, map, string_bytes, unwrap_or};
ghost use Rattle.fs_outside.specs.Faults.{IsCaused};
ghost use Rattle.fs_outside.specs.Past.{content};
ghost use Rattle.fs_outside.specs.Writing.{TookPart};
ghost use Rattle.command_line.specs.Parts.{part_of};
ghost use Rattle.command_line.specs.Window.{window_data, window_line};
ghost use Rattle.phases.specs.Failures.{status_for};
ghost use Rattle.phases.specs.Status.{HasNoFault, is_keep_fault, is_read_fault, is_write_fault};
ghost use Rattle.phases.specs.declared.status.Status.{Status};
ghost use Rattle.window_run.specs.Answered.{IsRunInWindow};
ghost use Rattle.window_run.specs.Call.{function_said, loaded_call, window_call};
ghost use Rattle.window_run.specs.Causes.{IsCauseInWindow, IsOwnInWindow, IsSymbolRefusal, symbols_named};
ghost use Rattle.window_run.specs.WindowStatus.{is_ended_by, window_told_text};
ghost use Rattle.window_run.specs.declared.status.WindowStatus.{WindowStatus};
ghost use Rattle.window_run.specs.declared.status.WindowStatus.TheVariants.{Ended};

use crate::part::run_part;
use crate::status::WindowStatus;
use crate::tell::tell_window;
use command_line::{LineRefusal, WindowLine, read_window};
use elf_symbols::{Symbol, symbols};
use fs_outside::{Disk, Gate, Sink, Source};
use phases::{Failure, Status, load_case};
use std::alloc::Global;
use std::sync::Wait;
use std::thread::Threads;

// Returns the functions and objects of the image, if the part names a function, and otherwise none.
fn symbols_of<'a>(
    alloc: Global,
    line: &WindowLine<'_>,
    bytes: &'a [u8],
) -> Result<Vec<Symbol<'a>>, Failure>
    requires { 52 ≤ length bytes.now }
    ensures ok { IfOk result (λ list. symbols_named (part_of line.now.part).function bytes.now ≡ Ok list.items) }
    ensures refused { IfErr result (λ why. IsSymbolRefusal (part_of line.now.part).function bytes.now (status_for why)) }
{
    match line.part.function {
        Some(_) => Ok(symbols(alloc, bytes)?),
        None => Ok(Vec::new(alloc)),
    }
}

// Returns the name of the function that the line names, or nothing.
fn function_named<'w>(line: &WindowLine<'w>) -> &'w str
    ensures { result.now ≡ unwrap_or (part_of line.now.part).function [] }
{
    match line.part.function {
        Some(name) => name,
        None => "",
    }
}

// Loads the image of the line, and runs the jobs of the part.
fn run_line<R: Threads + Wait + Sync, S: Source, D: Disk, O: Sink, G: Gate>(
    rt: &R,
    alloc: Global,
    line: &WindowLine<'_>,
    image: &mut S,
    disk: &mut D,
    out: &mut O,
    gate: &G,
) -> WindowStatus
    ensures run { IsRunInWindow S.tells D.tells O.tells
        (loaded_call (window_data line.now) (S.left image.old) (content (D.past disk.old)))
        (O.taken out.old) (O.taken out.new) (D.past disk.old) (D.past disk.new) result }
    ensures nothing { result ≢ Ended Status.Done → result ≢ Ended Status.WriteFault → out.new ≡ out.old }
    ensures reads { IsCaused (is_ended_by is_read_fault result) (S.faults image.old) (S.faults image.new) }
    ensures keeps { IsCaused (is_ended_by is_keep_fault result) (D.faults disk.old) (D.faults disk.new) }
    ensures writes { IsCaused (is_ended_by is_write_fault result) (O.faults out.old) (O.faults out.new) }
{
    let loaded = match load_case(alloc, &line.case, image) {
        Ok(loaded) => loaded,
        Err(failure) => return WindowStatus::Ended(failure.status()),
    };
    match symbols_of(alloc, line, loaded.bytes.as_slice()) {
        Ok(symbols) => run_part(rt, alloc, line, &loaded.case, &symbols, disk, out, gate),
        Err(failure) => WindowStatus::Ended(failure.status()),
    }
}

/// Runs the jobs of the part that these words ask for, the program's name first, and returns how the call ended.
///
/// The image is read from `image`, and the rows of the jobs are appended to the campaign file `disk`. The counts of
/// the part's sites go to `out`, and a line about a failure to `err`. The jobs run in threads of `rt`, which call the
/// gate between the claim of a job and its run. The clauses about bytes hold if the device tells its bytes, as a
/// device in memory does.
pub fn window_run<R: Threads + Wait + Sync, S: Source, D: Disk, O: Sink, E: Sink, G: Gate>(
    rt: &R,
    alloc: Global,
    words: &[String],
    image: &mut S,
    disk: &mut D,
    out: &mut O,
    err: &mut E,
    gate: &G,
) -> WindowStatus
    // Each field of `IsRunInWindow` states one fact about the answer, the report or the campaign file, and has a
    // comment in `specs/Answered.antt`: `cause`, `usage`, `no_line`, `counts`, `report`, `part` and `story`.
    ensures run { IsRunInWindow S.tells D.tells O.tells
        (window_call (map string_bytes words.now) (S.left image.old) (content (D.past disk.old)))
        (O.taken out.old) (O.taken out.new) (D.past disk.old) (D.past disk.new) result }
    // An answer that has its cause is given, unless a device failed or memory ran out.
    ensures complete { let call = window_call (map string_bytes words.now) (S.left image.old) (content (D.past disk.old)) in
        S.tells → D.tells → (status : WindowStatus) → IsOwnInWindow status → IsCauseInWindow D.tells call status
        → HasNoFault (S.faults image.old) (S.faults image.new) → HasNoFault (D.faults disk.old) (D.faults disk.new)
        → HasNoFault (O.faults out.old) (O.faults out.new)
        → (result ≡ status) ⊎ (result ≡ Ended Status.NoMemory) }

    // A fault of a device is the answer exactly if the count of its faults rose.
    ensures reads { IsCaused (is_ended_by is_read_fault result) (S.faults image.old) (S.faults image.new) }
    ensures keeps { IsCaused (is_ended_by is_keep_fault result) (D.faults disk.old) (D.faults disk.new) }
    ensures writes { IsCaused (is_ended_by is_write_fault result) (O.faults out.old) (O.faults out.new) }

    // With any answer but Done and WriteFault, the output takes nothing.
    ensures nothing { result ≢ Ended Status.Done → result ≢ Ended Status.WriteFault → out.new ≡ out.old }
    // The error output takes the line of the status, or a part of it if that output fails.
    ensures told { E.tells → HasNoFault (E.faults err.old) (E.faults err.new)
        → E.taken err.new ≡ E.taken err.old ++ window_told_text (function_said (window_line (map string_bytes words.now))) result }
    ensures told_part { E.tells → TookPart (E.taken err.old) (E.taken err.new)
        (window_told_text (function_said (window_line (map string_bytes words.now))) result) }
    // If the words are not a valid line, no device is touched.
    ensures untouched { window_line (map string_bytes words.now) ≡ None
        → (image.new ≡ image.old) × ((disk.new ≡ disk.old) × (out.new ≡ out.old)) }
{
    match read_window(alloc, words) {
        Ok(line) => {
            let status = run_line(rt, alloc, &line, image, disk, out, gate);
            tell_window(err, function_named(&line), status);
            status
        }
        Err(LineRefusal::Usage) => {
            let status = WindowStatus::Ended(Status::Usage);
            tell_window(err, "", status);
            status
        }
        Err(LineRefusal::NoMemory) => {
            let status = WindowStatus::Ended(Status::NoMemory);
            tell_window(err, "", status);
            status
        }
    }
}
