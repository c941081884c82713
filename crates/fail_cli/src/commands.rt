//! Reading the words of a call, and running its command.
ghost use Rattle.std.specs.Prelude.{◌≡◌, ◌≢◌, false, true, map, string_bytes};
ghost use Rattle.fs_outside.specs.Faults.{IsCaused};
ghost use Rattle.fs_outside.specs.Past.{content};
ghost use Rattle.command_line.specs.Line.{command_in, line, request_of};
ghost use Rattle.command_line.specs.Commands.{names_image, names_keep, names_other};
ghost use Rattle.phases.specs.Failures.{status_of};
ghost use Rattle.phases.specs.Output.{OutputStory};
ghost use Rattle.phases.specs.declared.status.Status.{Status};
ghost use Rattle.phases.specs.Status.{is_keep_fault, is_other_fault, is_read_fault, is_store_fault, is_write_fault};
ghost use Rattle.kept_commands.specs.Merge.{UnionAtEnd};
ghost use Rattle.kept_commands.specs.Call.{call_of};
ghost use Rattle.kept_commands.specs.Causes.{IsWorkCause};
ghost use Rattle.kept_commands.specs.Files.{files_of};
ghost use Rattle.kept_commands.specs.Words.{DoesNot};
ghost use Rattle.fail_cli.specs.Answered.{IsAnswered};
ghost use Rattle.fail_cli.specs.Crash.{WorkStory};
ghost use Rattle.fail_cli.specs.Output.{Says};

use command_line::{LineRefusal, Request, read_line};
use elf_symbols::Symbol;
use fs_model::Case;
use fs_outside::{Disk, Gate, Sink, Source};
use kept_commands::audit_command::audit;
use kept_commands::demo::demo;
use kept_commands::merge::merge;
use kept_commands::report_command::report;
use kept_commands::run::run;
use kept_commands::sample::sample;
use kept_commands::symbols_command::symbols as symbols_report;
use phases::{Answer, Failure, load_line};
use plain_commands::brute::brute;
use plain_commands::plan::plan;
use plain_commands::trace::trace;
use std::alloc::Global;
use std::sync::Wait;
use std::thread::Threads;

// Runs a command on a case, with the symbols of its image if the command reads them.
fn run_case<R: Threads + Wait + Sync, T: Source, D: Disk, O: Sink, G: Gate>(
    rt: &R,
    alloc: Global,
    request: &Request<'_>,
    case: &Case,
    symbols: &[Symbol<'_>],
    second: &mut T,
    disk: &mut D,
    out: &mut O,
    gate: &G,
) -> Answer
    ensures cause { IsWorkCause (names_keep (command_in (request_of request.now))) (names_other (command_in (request_of request.now))) D.tells T.tells
        (request_of request.now) (files_of (content (D.past disk.old)) (T.left second.old)) case.now (status_of result) }
    ensures output { OutputStory
        ((names_keep (command_in (request_of request.now)) ≡ true → D.tells) × ((names_other (command_in (request_of request.now)) ≡ true → T.tells) × O.tells))
        O.taken O.faults
        (Says (request_of request.now) symbols.now (files_of (content (D.past disk.old)) (T.left second.old)) case.now)
        out.old out.new (status_of result) }
    ensures keeps { IsCaused (is_keep_fault (status_of result)) (D.faults disk.old) (D.faults disk.new) }
    ensures others { IsCaused (is_other_fault (status_of result)) (T.faults second.old) (T.faults second.new) }
    ensures disk { names_keep (command_in (request_of request.now)) ≡ false → disk.new ≡ disk.old }
    ensures second { names_other (command_in (request_of request.now)) ≡ false → second.new ≡ second.old }
    ensures union { D.tells → T.tells → names_other (command_in (request_of request.now)) ≡ true
        → UnionAtEnd (T.left second.old) case.now (D.past disk.old) (D.past disk.new) (status_of result) }
    ensures story { D.tells → WorkStory T.tells (request_of request.now) (T.left second.old) case.now
        (D.past disk.old) (D.past disk.new) (status_of result) }
{
    match request {
        Request::Run(_, campaign) => run(rt, alloc, campaign, case, disk, out, gate),
        Request::Report(_, format) => report(alloc, *format, case, disk, out),
        Request::Audit(_) => audit(alloc, case, disk, out),
        Request::Symbols(_) => symbols_report(alloc, case, symbols, disk, out),
        Request::Merge(_, merging) => merge(alloc, merging, case, second, disk, out),
        Request::Brute(_, format) => brute(alloc, *format, case, out),
        Request::Trace(_) => trace(alloc, case, out),
        Request::Plan(_, format) => plan(alloc, *format, case, out),
        Request::Sample(_, draws) => sample(alloc, draws, case, out),
        Request::Demo(_, _) => demo(rt, alloc, case, out, gate),
    }
}

/// Runs the command of these words.
pub(crate) fn run_line<R: Threads + Wait + Sync, S: Source, T: Source, D: Disk, O: Sink, G: Gate>(
    rt: &R,
    alloc: Global,
    words: &[String],
    image: &mut S,
    second: &mut T,
    disk: &mut D,
    out: &mut O,
    gate: &G,
) -> Answer
    ensures answered { IsAnswered S.tells D.tells T.tells O.tells
        (call_of (map string_bytes words.now) (S.left image.old) (content (D.past disk.old)) (T.left second.old))
        (O.taken out.old) (O.taken out.new) (D.past disk.old) (D.past disk.new) (status_of result) }
    ensures reads { IsCaused (is_read_fault (status_of result)) (S.faults image.old) (S.faults image.new) }
    ensures writes { IsCaused (is_write_fault (status_of result)) (O.faults out.old) (O.faults out.new) }
    ensures keeps { IsCaused (is_keep_fault (status_of result)) (D.faults disk.old) (D.faults disk.new) }
    ensures others { IsCaused (is_other_fault (status_of result)) (T.faults second.old) (T.faults second.new) }
    ensures stores { is_store_fault (status_of result) ≡ false }
    ensures nothing { status_of result ≢ Status.Done → status_of result ≢ Status.WriteFault → out.new ≡ out.old }
    ensures no_image { DoesNot names_image (line (map string_bytes words.now)) → image.new ≡ image.old }
    ensures disk { DoesNot names_keep (line (map string_bytes words.now)) → disk.new ≡ disk.old }
    ensures second { DoesNot names_other (line (map string_bytes words.now)) → second.new ≡ second.old }
{
    let request = match read_line(alloc, words) {
        Ok(request) => request,
        Err(LineRefusal::Usage) => return Err(Failure::Usage),
        Err(LineRefusal::NoMemory) => return Err(Failure::NoMemory),
    };
    let loaded = load_line(alloc, &request, image)?;
    match loaded.symbols(alloc, &request) {
        Ok(symbols) => run_case(
            rt,
            alloc,
            &request,
            &loaded.case,
            &symbols,
            second,
            disk,
            out,
            gate,
        ),
        Err(failure) => Err(failure),
    }
}
