//! The command `demo`: the campaign of a generated program, over a file in memory.
ghost use Rattle.std.specs.Prelude.{◌≡◌};
ghost use Rattle.command_line.specs.declared.commands.Command.{Command};
ghost use Rattle.command_line.specs.declared.commands.Format.{Format};
ghost use Rattle.phases.specs.Commands.{IsCaseCause};
ghost use Rattle.phases.specs.Failures.{status_of};
ghost use Rattle.phases.specs.Output.{IsText, OutputStory};
ghost use Rattle.phases.specs.Reports.{report_of};
ghost use Rattle.kept_commands.specs.Keep.{as_memory};

use crate::run::run;
use command_line::Campaign;
use fs_model::Case;
use fs_outside::{Gate, Sink, SureDisk};
use phases::{Answer, Failure};
use std::alloc::Global;
use std::sync::Wait;
use std::thread::Threads;

// Turns a disk fault into out of memory, because the disk is new and fails only for lack of memory.
fn told_as_memory(answer: Answer) -> Answer
    ensures { status_of result ≡ as_memory (status_of answer) }
{
    match answer {
        Err(Failure::KeepFault) => Err(Failure::NoMemory),
        other => other,
    }
}

/// Runs the case of a generated program without a fault, and then its jobs, and writes the counts.
pub fn demo<R: Threads + Wait + Sync, O: Sink, G: Gate>(
    rt: &R,
    alloc: Global,
    case: &Case,
    out: &mut O,
    gate: &G,
) -> Answer
    ensures cause { IsCaseCause Command.Demo case.now (status_of result) }
    ensures output { OutputStory O.tells O.taken O.faults (IsText (report_of Format.Text case.now)) out.old out.new (status_of result) }
{
    let mut disk = SureDisk::new(alloc);
    let campaign = Campaign::whole();
    let answer = run(rt, alloc, &campaign, case, &mut disk, out, gate);
    drop(disk);
    told_as_memory(answer)
}
