//! Running the jobs that are due in a window, and counting its sites.
ghost use Rattle.std.specs.Prelude.{◌≡◌, ◌+◌, true, Some, None, length};
ghost use Rattle.fs_outside.specs.Faults.{IsCaused};
ghost use Rattle.fs_outside.specs.Past.{content};
ghost use Rattle.fs_model.specs.Run.{cycles};
ghost use Rattle.result_keeper.specs.Keep.{HasFile};
ghost use Rattle.phases.specs.Failures.{status_of};
ghost use Rattle.phases.specs.Output.{IsText, OutputStory};
ghost use Rattle.phases.specs.Status.{is_keep_fault};
ghost use Rattle.campaign.specs.Perform.{batches_due, is_fault};
ghost use Rattle.command_line.specs.Window.{running_of};
ghost use Rattle.window_run.specs.Crash.{DuePagesStory, WindowStory};
ghost use Rattle.window_run.specs.Ends.{EndsByCounting, EndsInWindow, IsWindowEnd, window_batches};
ghost use Rattle.window_run.specs.Says.{WindowSays, board_report_in, filled_report_in};

use crate::reports::{Sizes, report_counts};
use campaign::{CaseLedger, Performed, PrepareRefusal, Ready, Settings, perform, prepare};
use command_line::{Format, Running};
use def_use::Board;
use fs_outside::{Disk, Gate, Sink};
use phases::{Answer, Baseline, Failure};
use snapshot_store::spacing_of;
use std::alloc::Global;
use std::sync::Wait;
use std::sync::ledger::Blank;
use std::thread::Threads;
use window_counts::{Window, counts_in, sites_in};

// Counts the sites of a window by the outcomes on a board, and writes the counts.
fn report_window<O: Sink>(
    alloc: Global,
    format: Format,
    baseline: &Baseline<'_>,
    window: &Window,
    board: &Board,
    out: &mut O,
) -> Answer
    requires cycles { length window.now ≡ cycles baseline.now.case }
    requires long { length board.now ≡ length baseline.now.list.list }
    ensures ends { EndsByCounting window.now baseline.now.case board.now (status_of result) }
    ensures output { OutputStory O.tells O.taken O.faults
        (IsText (board_report_in format baseline.now.case window.now board.now)) out.old out.new (status_of result) }
{
    baseline.facts();
    match counts_in(baseline.case(), baseline.list(), board, window) {
        Ok(totals) => {
            let sizes = Sizes {
                instructions: baseline.golden().count(),
                inside: window.len(),
                sites: sites_in(baseline.case(), window),
            };
            report_counts(alloc, format, sizes, &totals, out)
        }
        Err(_) => Err(Failure::stopped(board)),
    }
}

// Returns whether the disk failed.
fn has_failed(performed: &Performed) -> bool
    ensures { result ≡ is_fault performed.now }
{
    match performed {
        Performed::Done(_) => false,
        Performed::Stopped { .. } => false,
        Performed::KeepFault => true,
    }
}

// Runs the missing jobs that are due in the window with shortcuts, and writes the counts of its sites if none is left.
fn run_due<K: CaseLedger + Send + Sync, R: Threads + Wait + Sync, D: Disk, O: Sink, G: Gate>(
    rt: &R,
    alloc: Global,
    format: Format,
    baseline: &Baseline<'_>,
    window: &Window,
    ready: &mut Ready<'_, K>,
    disk: &mut D,
    out: &mut O,
    gate: &G,
) -> Answer
    requires case { ready.old.keeper.case ≡ baseline.now.case }
    requires healthy { ready.old.keeper.healthy ≡ true }
    requires file { D.tells → HasFile ready.old.keeper (D.past disk.old) }
    requires all { ready.old.shard ≡ None }
    requires window { ready.old.window ≡ Some window.now }
    requires cycles { length window.now ≡ cycles baseline.now.case }
    ensures cause { EndsInWindow ready.old.budget window.now baseline.now.case ready.old.keeper.board (status_of result) }
    ensures output { OutputStory O.tells O.taken O.faults
        (IsText (filled_report_in format baseline.now.case window.now ready.old.keeper.board)) out.old out.new (status_of result) }
    ensures keeps { IsCaused (is_keep_fault (status_of result)) (D.faults disk.old) (D.faults disk.new) }
    ensures story { D.tells → DuePagesStory ready.old.keeper (batches_due ready.old) window.now (D.past disk.old) (D.past disk.new) (status_of result) }
{
    baseline.facts();
    // This call gives the proof the length of the board.
    let _ = ready.board();
    ready.give_shortcuts(alloc);
    let performed = perform(ready, rt, disk, gate);
    if has_failed(&performed) {
        return Err(Failure::KeepFault);
    }
    report_window(alloc, format, baseline, window, ready.board(), out)
}

/// Opens the campaign file, runs the missing jobs that are due in the window, and writes the counts of its sites.
pub(crate) fn run_jobs<
    K: CaseLedger + Send + Sync,
    R: Threads + Wait + Sync,
    D: Disk,
    O: Sink,
    G: Gate,
>(
    rt: &R,
    alloc: Global,
    running: &Running,
    baseline: &Baseline<'_>,
    window: &Window,
    disk: &mut D,
    out: &mut O,
    gate: &G,
    blank: Blank,
) -> Answer
    requires ledger { baseline.now.case ≡ K.case }
    requires name { blank.name ≡ K.name }
    requires parts { (blank.parts ≡ K.parts) × (blank.parts ≡ running.now.workers) }
    requires cycles { length window.now ≡ cycles baseline.now.case }
    ensures cause { IsWindowEnd D.tells running.now.stop_after window.now (content (D.past disk.old)) baseline.now.case (status_of result) }
    ensures output { OutputStory (D.tells × O.tells) O.taken O.faults
        (WindowSays running.now.format window.now (content (D.past disk.old)) baseline.now.case) out.old out.new (status_of result) }
    ensures keeps { IsCaused (is_keep_fault (status_of result)) (D.faults disk.old) (D.faults disk.new) }
    ensures story { D.tells → WindowStory (window_batches (running_of running.now) window.now baseline.now.case) window.now baseline.now.case
        (D.past disk.old) (D.past disk.new) (status_of result) }
{
    baseline.facts();
    let settings = Settings {
        workers: running.workers,
        page: running.page,
        stop_after: running.stop_after,
        shard: None,
        fresh: false,
        spacing: spacing_of(baseline.golden().count()),
    };
    match prepare::<K, _>(
        alloc,
        baseline.case(),
        baseline.golden(),
        baseline.list(),
        disk,
        &settings,
        blank,
    ) {
        Ok(ready) => {
            let mut ready = ready;
            ready.keep_to(window);
            let answer = run_due(
                rt,
                alloc,
                running.format,
                baseline,
                window,
                &mut ready,
                disk,
                out,
                gate,
            );
            drop(ready);
            answer
        }
        Err(PrepareRefusal::KeepFault) => Err(Failure::KeepFault),
        Err(PrepareRefusal::Refused(refusal)) => Err(Failure::BadKeep(refusal)),
        Err(PrepareRefusal::NoMemory) => Err(Failure::NoMemory),
    }
}
