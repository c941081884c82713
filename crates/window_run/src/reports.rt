//! The report of a window, in the format of the line.
ghost use Rattle.std.specs.Prelude.{◌≡◌, Err, length};
ghost use Rattle.fs_model.specs.Outcome.{total_at};
ghost use Rattle.fs_outside.specs.Faults.{IsCaused};
ghost use Rattle.fs_outside.specs.Writing.{Writes};
ghost use Rattle.report.specs.Refusal.{is_failed};
ghost use Rattle.phases.specs.Failures.{status_of};
ghost use Rattle.phases.specs.Output.{IsText, OutputStory};
ghost use Rattle.phases.specs.Status.{IsWriting};
ghost use Rattle.window_run.specs.Says.{window_text_in};

use command_line::Format;
use fs_model::Totals;
use fs_outside::{Failed, Sink};
use phases::Answer;
use report::{ReportRefusal, write_window, write_window_json};
use std::alloc::Global;

/// How many instructions and sites a window has.
#[derive(Clone, Copy)]
pub(crate) struct Sizes {
    /// The instructions of the golden run.
    pub instructions: u32,
    /// Those in the window.
    pub inside: u32,
    /// The sites of those.
    pub sites: u64,
}

fn write_counts<O: Sink>(
    alloc: Global,
    format: Format,
    sizes: Sizes,
    totals: &Totals,
    out: &mut O,
) -> Result<(), ReportRefusal>
    ensures bytes { O.tells → Writes (O.taken out.old) (O.taken out.new)
        (window_text_in format sizes.instructions sizes.inside sizes.sites (total_at totals.now)) result }
    ensures cause { IsCaused (is_failed result) (O.faults out.old) (O.faults out.new) }
    ensures nothing { result ≡ Err ReportRefusal.NoMemory → out.new ≡ out.old }
{
    let Sizes {
        instructions,
        inside,
        sites,
    } = sizes;
    match format {
        Format::Json => write_window_json(alloc, out, instructions, inside, sites, totals),
        Format::Text | Format::Csv => {
            match write_window(out, instructions, inside, sites, totals) {
                Ok(()) => Ok(()),
                Err(Failed) => Err(ReportRefusal::Failed),
            }
        }
    }
}

/// Writes the report of these totals.
pub(crate) fn report_counts<O: Sink>(
    alloc: Global,
    format: Format,
    sizes: Sizes,
    totals: &Totals,
    out: &mut O,
) -> Answer
    ensures ends { IsWriting (status_of result) }
    ensures output { OutputStory O.tells O.taken O.faults
        (IsText (window_text_in format sizes.instructions sizes.inside sizes.sites (total_at totals.now))) out.old out.new (status_of result) }
{
    write_counts(alloc, format, sizes, totals, out)?;
    Ok(())
}
