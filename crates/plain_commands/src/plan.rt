//! The command `plan`: the number of jobs that represent the sites of a case.
ghost use Rattle.std.specs.Prelude.{◌≡◌, Err};
ghost use Rattle.fs_outside.specs.Faults.{IsCaused};
ghost use Rattle.fs_outside.specs.Writing.{Writes};
ghost use Rattle.report.specs.Refusal.{is_failed};
ghost use Rattle.phases.specs.Commands.{IsCaseCause};
ghost use Rattle.phases.specs.Failures.{status_of};
ghost use Rattle.phases.specs.Output.{IsText, OutputStory};
ghost use Rattle.plain_commands.specs.Plans.{plan_by, plan_in};
ghost use Rattle.command_line.specs.declared.commands.Command.{Command};

use command_line::Format;
use def_use::JobList;
use fs_model::Case;
use fs_outside::{Failed, Sink};
use phases::{Answer, Baseline};
use report::{ReportRefusal, write_plan, write_plan_csv};
use std::alloc::Global;

// Writes the plan of a list of jobs.
fn write_plan_in<O: Sink>(
    alloc: Global,
    format: Format,
    instructions: u32,
    sites: u64,
    list: &JobList,
    out: &mut O,
) -> Result<(), ReportRefusal>
    ensures bytes { O.tells → Writes (O.taken out.old) (O.taken out.new) (plan_in format instructions sites list.now) result }
    ensures cause { IsCaused (is_failed result) (O.faults out.old) (O.faults out.new) }
    ensures nothing { result ≡ Err ReportRefusal.NoMemory → out.new ≡ out.old }
{
    match format {
        Format::Csv => write_plan_csv(alloc, out, list),
        Format::Text | Format::Json => match write_plan(out, instructions, sites, list) {
            Ok(()) => Ok(()),
            Err(Failed) => Err(ReportRefusal::Failed),
        },
    }
}

/// Runs a case without a fault, finds its jobs, and writes their number, or each of them.
pub fn plan<O: Sink>(alloc: Global, format: Format, case: &Case, out: &mut O) -> Answer
    ensures cause { IsCaseCause Command.Plan case.now (status_of result) }
    ensures output { OutputStory O.tells O.taken O.faults (IsText (plan_by format case.now)) out.old out.new (status_of result) }
{
    let baseline = Baseline::of(alloc, case)?;
    baseline.facts();
    write_plan_in(
        alloc,
        format,
        baseline.golden().count(),
        baseline.sites(),
        baseline.list(),
        out,
    )?;
    Ok(())
}
