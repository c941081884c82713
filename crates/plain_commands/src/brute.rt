//! The command `brute`: runs each site separately from the first instruction.
ghost use Rattle.phases.specs.Commands.{IsCaseCause};
ghost use Rattle.phases.specs.Failures.{status_of};
ghost use Rattle.phases.specs.Output.{IsText, OutputStory};
ghost use Rattle.phases.specs.Reports.{report_of};
ghost use Rattle.command_line.specs.declared.commands.Command.{Command};

use crate::exhaustive::count_sites;
use command_line::Format;
use fs_model::Case;
use fs_outside::Sink;
use golden_trace::golden;
use phases::{Answer, report_totals};
use std::alloc::Global;

/// Runs a case without a fault, and then all its sites, and writes the number of sites with each outcome.
pub fn brute<O: Sink>(alloc: Global, format: Format, case: &Case, out: &mut O) -> Answer
    ensures cause { IsCaseCause Command.Brute case.now (status_of result) }
    ensures output { OutputStory O.tells O.taken O.faults (IsText (report_of format case.now)) out.old out.new (status_of result) }
{
    let golden = golden(alloc, case)?;
    let totals = count_sites(alloc, case, &golden)?;
    report_totals(alloc, format, &golden, totals.sum(), &totals, out)
}
