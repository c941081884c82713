//! Lines of a word and a number, written without taking memory.
ghost use Rattle.std.specs.Prelude.{◌≡◌};
ghost use Rattle.std.specs.List.{flat_map};
ghost use Rattle.report.specs.Text.{line_text, outcomes_text, sample_text, text, window_text};
ghost use Rattle.fs_model.specs.Outcome.{all_outcomes, total_at};
ghost use Rattle.fs_outside.specs.Faults.{HasCause};
ghost use Rattle.fs_outside.specs.Writing.{Writes};
ghost use Rattle.report.specs.Plan.{plan_of};

use def_use::JobList;
use fs_model::{Outcome, Totals};
use fs_outside::{Failed, Part, Sink, write_parts};

// Writes a word, a number and the end of the line.
fn write_line<O: Sink>(out: &mut O, word: &str, number: u64) -> Result<(), Failed>
    ensures bytes { O.tells → Writes (O.taken out.old) (O.taken out.new) (line_text word.now number) result }
    ensures cause { HasCause (O.faults out.old) (O.faults out.new) result }
{
    write_parts(
        out,
        &[
            Part::Text(word),
            Part::Text(" "),
            Part::Number(number),
            Part::Text("\n"),
        ],
    )
}

fn write_lines<O: Sink>(out: &mut O, lines: &[(&str, u64)]) -> Result<(), Failed>
    ensures bytes { O.tells → Writes (O.taken out.old) (O.taken out.new) (flat_map (λ l. line_text l.0.now l.1) lines.now) result }
    ensures cause { HasCause (O.faults out.old) (O.faults out.new) result }
{
    for (word, number) in lines {
        write_line(out, word, *number)?;
    }
    Ok(())
}

// Writes the number of sites with each outcome, a line each.
fn write_totals<O: Sink>(out: &mut O, totals: &Totals) -> Result<(), Failed>
    ensures bytes { O.tells → Writes (O.taken out.old) (O.taken out.new) (outcomes_text all_outcomes (total_at totals.now)) result }
    ensures cause { HasCause (O.faults out.old) (O.faults out.new) result }
{
    for outcome in Outcome::ALL {
        write_line(out, outcome.word(), totals.get(outcome))?;
    }
    Ok(())
}

/// Writes the lines of a campaign: its instructions, its sites, and the number of sites with each outcome.
///
/// # Errors
///
/// `Failed` if the sink failed. It may have taken a part of the lines.
pub fn write_text<O: Sink>(
    out: &mut O,
    instructions: u32,
    sites: u64,
    totals: &Totals,
) -> Result<(), Failed>
    ensures bytes { O.tells → Writes (O.taken out.old) (O.taken out.new) (text instructions sites (total_at totals.now)) result }
    ensures cause { HasCause (O.faults out.old) (O.faults out.new) result }
{
    write_lines(
        out,
        &[("instructions", instructions as u64), ("sites", sites)],
    )?;
    write_totals(out, totals)
}

/// Writes the lines of a window: the instructions of the golden run, the number of them in the window, its sites,
/// and the number of its sites with each outcome.
///
/// # Errors
///
/// `Failed` if the sink failed. It may have taken a part of the lines.
pub fn write_window<O: Sink>(
    out: &mut O,
    instructions: u32,
    inside: u32,
    sites: u64,
    totals: &Totals,
) -> Result<(), Failed>
    ensures bytes { O.tells → Writes (O.taken out.old) (O.taken out.new) (window_text instructions inside sites (total_at totals.now)) result }
    ensures cause { HasCause (O.faults out.old) (O.faults out.new) result }
{
    write_lines(
        out,
        &[
            ("instructions", instructions as u64),
            ("window", inside as u64),
            ("sites", sites),
        ],
    )?;
    write_totals(out, totals)
}

/// Writes the lines of a sample: the instructions of the golden run, the number of sites to draw from, the
/// number of draws, and the number of draws with each outcome.
///
/// # Errors
///
/// `Failed` if the sink failed. It may have taken a part of the lines.
pub fn write_sample<O: Sink>(
    out: &mut O,
    instructions: u32,
    population: u64,
    samples: u32,
    totals: &Totals,
) -> Result<(), Failed>
    ensures bytes { O.tells → Writes (O.taken out.old) (O.taken out.new) (sample_text instructions population samples (total_at totals.now)) result }
    ensures cause { HasCause (O.faults out.old) (O.faults out.new) result }
{
    write_lines(
        out,
        &[
            ("instructions", instructions as u64),
            ("population", population),
            ("samples", samples as u64),
        ],
    )?;
    write_totals(out, totals)
}

/// Writes the five lines of a plan: the instructions, sites and jobs of a campaign, and the numbers of sites
/// that belong to a job and of dead ones.
///
/// # Errors
///
/// `Failed` if the sink failed. It may have taken a part of the lines.
pub fn write_plan<O: Sink>(
    out: &mut O,
    instructions: u32,
    sites: u64,
    list: &JobList,
) -> Result<(), Failed>
    ensures bytes { O.tells → Writes (O.taken out.old) (O.taken out.new) (plan_of instructions sites list.now) result }
    ensures cause { HasCause (O.faults out.old) (O.faults out.new) result }
{
    write_lines(
        out,
        &[
            ("instructions", instructions as u64),
            ("sites", sites),
            ("jobs", list.len() as u64),
            ("live", list.live_weight()),
            ("dead", list.dead_weight()),
        ],
    )
}
