//! The work of `fail_window` on a case: the golden run, the part of it, and the jobs that are due there.
ghost use Rattle.std.specs.Prelude.{◌≡◌, ◌≢◌};
ghost use Rattle.fs_outside.specs.Faults.{IsCaused};
ghost use Rattle.fs_outside.specs.Past.{content};
ghost use Rattle.phases.specs.Status.{is_keep_fault, is_write_fault};
ghost use Rattle.command_line.specs.Window.{window_data};
ghost use Rattle.window_run.specs.Causes.{IsPartCause};
ghost use Rattle.window_run.specs.Crash.{PartStory};
ghost use Rattle.window_run.specs.Says.{PartOutput};
ghost use Rattle.window_run.specs.WindowStatus.{is_ended_by};

use crate::jobs::run_jobs;
use crate::status::WindowStatus;
use command_line::WindowLine;
use elf_symbols::Symbol;
use fs_model::Case;
use fs_outside::{Disk, Gate, Sink};
use phases::{Baseline, Status};
use std::alloc::Global;
use std::marker::Brand;
use std::sync::Wait;
use std::sync::ledger::Blank;
use std::thread::Threads;
use window_parts::{PartRefusal, window_of};

// Finds the window of the part in a golden run, and runs its jobs.
fn run_window<R: Threads + Wait + Sync, D: Disk, O: Sink, G: Gate>(
    rt: &R,
    alloc: Global,
    line: &WindowLine<'_>,
    baseline: &Baseline<'_>,
    symbols: &[Symbol<'_>],
    disk: &mut D,
    out: &mut O,
    gate: &G,
) -> WindowStatus
    ensures cause { IsPartCause D.tells (window_data line.now) symbols.now (content (D.past disk.old)) baseline.now.case result }
    ensures output { PartOutput D.tells O.tells O.taken O.faults (window_data line.now) symbols.now (content (D.past disk.old)) baseline.now.case
        out.old out.new result }
    ensures keeps { IsCaused (is_ended_by is_keep_fault result) (D.faults disk.old) (D.faults disk.new) }
    ensures story { D.tells → PartStory (window_data line.now) symbols.now baseline.now.case (D.past disk.old) (D.past disk.new) result }
{
    baseline.facts();
    match window_of(
        alloc,
        baseline.case(),
        baseline.golden(),
        &line.part,
        symbols,
    ) {
        Ok(window) => {
            let answer = run_jobs::<Brand, _, _, _, _>(
                rt,
                alloc,
                &line.running,
                baseline,
                &window,
                disk,
                out,
                gate,
                Blank::new(line.running.workers as u64),
            );
            drop(window);
            WindowStatus::of(answer)
        }
        Err(PartRefusal::Nothing(why)) => WindowStatus::Empty(why),
        Err(PartRefusal::NoMemory) => WindowStatus::Ended(Status::NoMemory),
    }
}

/// Runs a case without a flip, and then the missing jobs of the part that the line asks for.
pub(crate) fn run_part<R: Threads + Wait + Sync, D: Disk, O: Sink, G: Gate>(
    rt: &R,
    alloc: Global,
    line: &WindowLine<'_>,
    case: &Case,
    symbols: &[Symbol<'_>],
    disk: &mut D,
    out: &mut O,
    gate: &G,
) -> WindowStatus
    ensures cause { IsPartCause D.tells (window_data line.now) symbols.now (content (D.past disk.old)) case.now result }
    ensures output { PartOutput D.tells O.tells O.taken O.faults (window_data line.now) symbols.now (content (D.past disk.old)) case.now
        out.old out.new result }
    ensures keeps { IsCaused (is_ended_by is_keep_fault result) (D.faults disk.old) (D.faults disk.new) }
    ensures story { D.tells → PartStory (window_data line.now) symbols.now case.now (D.past disk.old) (D.past disk.new) result }
{
    match Baseline::of(alloc, case) {
        Ok(baseline) => {
            let status = run_window(rt, alloc, line, &baseline, symbols, disk, out, gate);
            drop(baseline);
            status
        }
        Err(failure) => WindowStatus::Ended(failure.status()),
    }
}
