//! The report of totals, in the format of the line.
ghost use Rattle.std.specs.Prelude.{◌≡◌, Err, length};
ghost use Rattle.fs_outside.specs.Faults.{IsCaused};
ghost use Rattle.fs_outside.specs.Writing.{Writes};
ghost use Rattle.report.specs.Refusal.{is_failed};
ghost use Rattle.fs_model.specs.Outcome.{total_at};
ghost use Rattle.phases.specs.Failures.{status_of};
ghost use Rattle.phases.specs.Output.{IsText, OutputStory};
ghost use Rattle.phases.specs.Reports.{report_in};
ghost use Rattle.phases.specs.Status.{IsWriting};

use crate::failure::Answer;
use command_line::Format;
use fs_model::Totals;
use fs_outside::{Failed, Sink};
use golden_trace::Golden;
use report::{ReportRefusal, write_json, write_text};
use std::alloc::Global;

fn write_report<O: Sink>(
    alloc: Global,
    format: Format,
    instructions: u32,
    sites: u64,
    totals: &Totals,
    out: &mut O,
) -> Result<(), ReportRefusal>
    ensures bytes { O.tells → Writes (O.taken out.old) (O.taken out.new) (report_in format instructions sites (total_at totals.now)) result }
    ensures cause { IsCaused (is_failed result) (O.faults out.old) (O.faults out.new) }
    ensures nothing { result ≡ Err ReportRefusal.NoMemory → out.new ≡ out.old }
{
    match format {
        Format::Json => write_json(alloc, out, instructions, sites, totals),
        Format::Text | Format::Csv => match write_text(out, instructions, sites, totals) {
            Ok(()) => Ok(()),
            Err(Failed) => Err(ReportRefusal::Failed),
        },
    }
}

/// Writes the report of these totals.
pub fn report_totals<O: Sink>(
    alloc: Global,
    format: Format,
    golden: &Golden,
    sites: u64,
    totals: &Totals,
    out: &mut O,
) -> Answer
    ensures ends { IsWriting (status_of result) }
    ensures output { OutputStory O.tells O.taken O.faults
        (IsText (report_in format (length golden.now.touches) sites (total_at totals.now))) out.old out.new (status_of result) }
{
    write_report(alloc, format, golden.count(), sites, totals, out)?;
    Ok(())
}
