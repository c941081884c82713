//! The text of a site.
ghost use Rattle.std.specs.Prelude.{◌≡◌, ◌+◌, ◌<◌, ◌^◌, ◌++◌, ◌||◌, length};
ghost use Rattle.fs_model.specs.Outcome.{outcome};
ghost use Rattle.fs_model.specs.Run.{State};
ghost use Rattle.fs_outside.specs.Faults.{HasCause};
ghost use Rattle.fs_outside.specs.Parts.{part_text};
ghost use Rattle.golden_trace.specs.Goldens.{IsGolden};
ghost use Rattle.plain_commands.specs.Trace.{output_line};
ghost use Rattle.plain_commands.specs.Walk.{end_text, steps_by};
ghost use Rattle.phases.specs.Sites.{IsSite};
ghost use Rattle.replay.specs.Injected.{injected_at};
ghost use Rattle.timeline.specs.Places.{from_flip};
ghost use Rattle.replay.specs.Text.{differences_line, lines_from, some_number_text, outcome_line, site_line, site_text, view_lines};
ghost use Rattle.report.specs.Buffer.{Puts};

use crate::differences::Differences;
use crate::walk::{Walk, stand_at_flip, walk_along};
use command_line::View;
use experiment::run_job;
use fs_model::{Case, Event, Job, Outcome, Site};
use fs_outside::{Failed, Part, Sink};
use golden_trace::Golden;
use plain_commands::lines::{output_end, put_bytes, put_end, put_instruction};
use report::{put, put_parts};
use rv_machine::Machine;
use snapshot_store::Snaps;

fn put_site<O: Sink>(out: &mut O, waiting: &mut Vec<u8>, site: &Site) -> Result<(), Failed>
    ensures bytes { O.tells → Puts (O.taken out.old) waiting.old.items (O.taken out.new) waiting.new.items (site_line site.now) result }
    ensures cause { HasCause (O.faults out.old) (O.faults out.new) result }
{
    put_parts(
        out,
        waiting,
        &[
            Part::Text("site "),
            Part::Number(site.cycle as u64),
            Part::Text(" "),
            Part::Number(site.cell as u64),
            Part::Text(" "),
            Part::Number(site.bit as u64),
            Part::Text("\n"),
        ],
    )
}

// Puts the lines of `count` instructions, numbered from `first` on.
fn put_lines<O: Sink>(
    out: &mut O,
    waiting: &mut Vec<u8>,
    machine: &mut Machine,
    first: u32,
    count: u32,
) -> Result<(), Failed>
    requires { first + count < 2 ^ 32 }
    ensures bytes { (s : State) → s.core ≡ machine.old.core → O.tells
        → Puts (O.taken out.old) waiting.old.items (O.taken out.new) waiting.new.items (lines_from machine.old.case first s count) result }
    ensures case { machine.new.case ≡ machine.old.case }
    ensures cause { HasCause (O.faults out.old) (O.faults out.new) result }
{
    for taken in 0..count {
        put_instruction(out, waiting, first + taken, machine.pc(), machine.word())?;
        let _ = machine.step();
    }
    Ok(())
}

// Puts the lines of `steps` instructions of the injected run, from the flip on.
fn put_from_flip<O: Sink>(
    out: &mut O,
    waiting: &mut Vec<u8>,
    snaps: &Snaps,
    machine: &mut Machine,
    site: &Site,
    steps: u32,
) -> Result<(), Failed>
    requires snaps { snaps.now.case ≡ machine.old.case }
    requires cycle { site.now.cycle < snaps.now.count }
    requires site { IsSite machine.old.case site.now }
    requires few { site.now.cycle + steps < 2 ^ 32 }
    ensures bytes { O.tells → Puts (O.taken out.old) waiting.old.items (O.taken out.new) waiting.new.items
        (lines_from machine.old.case site.now.cycle (from_flip machine.old.case site.now) steps) result }
    ensures case { machine.new.case ≡ machine.old.case }
    ensures cause { HasCause (O.faults out.old) (O.faults out.new) result }
{
    stand_at_flip(snaps, machine, site);
    put_lines(out, waiting, machine, site.cycle, steps)
}

// Puts the lines that the view shows.
fn put_view<O: Sink>(
    out: &mut O,
    waiting: &mut Vec<u8>,
    snaps: &Snaps,
    machine: &mut Machine,
    view: View,
    site: &Site,
    steps: u32,
) -> Result<(), Failed>
    requires snaps { snaps.now.case ≡ machine.old.case }
    requires cycle { site.now.cycle < snaps.now.count }
    requires site { IsSite machine.old.case site.now }
    requires few { site.now.cycle + steps < 2 ^ 32 }
    ensures bytes { O.tells → Puts (O.taken out.old) waiting.old.items (O.taken out.new) waiting.new.items
        (view_lines machine.old.case site.now steps view) result }
    ensures case { machine.new.case ≡ machine.old.case }
    ensures cause { HasCause (O.faults out.old) (O.faults out.new) result }
{
    match view {
        View::Brief => Ok(()),
        View::FromFlip => put_from_flip(out, waiting, snaps, machine, site, steps),
        View::Whole => {
            machine.rewind();
            put_lines(out, waiting, machine, 0, site.cycle)?;
            put_from_flip(out, waiting, snaps, machine, site, steps)
        }
    }
}

// Returns the text of a number, or a hyphen for `None`.
fn number_part(number: Option<u32>) -> Part<'static>
    ensures { part_text result ≡ some_number_text number }
{
    match number {
        Some(number) => Part::Number(number as u64),
        None => Part::Text("-"),
    }
}

fn put_differences<O: Sink>(
    out: &mut O,
    waiting: &mut Vec<u8>,
    found: Differences,
) -> Result<(), Failed>
    ensures bytes { O.tells → Puts (O.taken out.old) waiting.old.items (O.taken out.new) waiting.new.items (differences_line found) result }
    ensures cause { HasCause (O.faults out.old) (O.faults out.new) result }
{
    put_parts(
        out,
        waiting,
        &[
            Part::Text("differs pc "),
            number_part(found.pc),
            Part::Text(" registers "),
            number_part(found.registers),
            Part::Text(" output "),
            number_part(found.output),
            Part::Text("\n"),
        ],
    )
}

fn either(a: bool, b: bool) -> bool
    ensures { result ≡ (a || b) }
{
    a || b
}

// Puts the line with the output of the injected run, from its first instruction to `went` steps after the flip.
fn put_output<O: Sink>(
    out: &mut O,
    waiting: &mut Vec<u8>,
    snaps: &Snaps,
    machine: &mut Machine,
    site: &Site,
    went: u32,
) -> Result<(), Failed>
    requires snaps { snaps.now.case ≡ machine.old.case }
    requires cycle { site.now.cycle < snaps.now.count }
    requires site { IsSite machine.old.case site.now }
    ensures bytes { O.tells → Puts (O.taken out.old) waiting.old.items (O.taken out.new) waiting.new.items
        (output_line (injected_at machine.old.case site.now went).output) result }
    ensures case { machine.new.case ≡ machine.old.case }
    ensures cause { HasCause (O.faults out.old) (O.faults out.new) result }
{
    put(out, waiting, b"output ")?;
    machine.rewind();
    let before = put_bytes(out, waiting, machine, site.cycle)?;
    stand_at_flip(snaps, machine, site);
    let behind = put_bytes(out, waiting, machine, went)?;
    put(out, waiting, output_end(either(before, behind)))
}

// Puts the lines of the end and of the outcome.
fn put_end_and_outcome<O: Sink>(
    out: &mut O,
    waiting: &mut Vec<u8>,
    last: Event,
    outcome: Outcome,
) -> Result<(), Failed>
    ensures bytes { O.tells → Puts (O.taken out.old) waiting.old.items (O.taken out.new) waiting.new.items (end_text last ++ outcome_line outcome) result }
    ensures cause { HasCause (O.faults out.old) (O.faults out.new) result }
{
    put_end(out, waiting, last)?;
    put_parts(
        out,
        waiting,
        &[
            Part::Text("outcome "),
            Part::Text(outcome.word()),
            Part::Text("\n"),
        ],
    )
}

// Returns the number of steps of the walk.
fn steps_of(walk: &Walk) -> u32
    requires { steps_by walk.now.went walk.now.last < 2 ^ 32 }
    ensures { result ≡ steps_by walk.now.went walk.now.last }
{
    if walk.last.goes_on() {
        walk.went
    } else {
        walk.went + 1
    }
}

// Returns the outcome of a site, by a run from a stored state.
fn outcome_of(
    case: &Case,
    golden: &Golden,
    snaps: &Snaps,
    machine: &mut Machine,
    site: &Site,
) -> Outcome
    requires golden { IsGolden case.now golden.now }
    requires snaps { snaps.now.case ≡ case.now }
    requires count { snaps.now.count ≡ length golden.now.touches }
    requires machine { machine.old.case ≡ case.now }
    requires cycle { site.now.cycle < length golden.now.touches }
    requires site { IsSite case.now site.now }
    ensures outcome { result ≡ outcome case.now site.now }
    ensures case { machine.new.case ≡ machine.old.case }
{
    let job = Job {
        cycle: site.cycle,
        cell: site.cell,
        bit: site.bit,
        weight: 1,
    };
    run_job(case, golden, snaps, machine, &job).row().outcome
}

/// Puts the text of a site. Both machines may be in any state of the case.
pub(crate) fn put_site_text<O: Sink>(
    out: &mut O,
    waiting: &mut Vec<u8>,
    case: &Case,
    golden: &Golden,
    snaps: &Snaps,
    machine: &mut Machine,
    other: &mut Machine,
    view: View,
    site: &Site,
) -> Result<(), Failed>
    requires golden { IsGolden case.now golden.now }
    requires snaps { snaps.now.case ≡ case.now }
    requires count { snaps.now.count ≡ length golden.now.touches }
    requires site { IsSite case.now site.now }
    requires machine { machine.old.case ≡ case.now }
    requires other { other.old.case ≡ case.now }
    ensures bytes { O.tells → Puts (O.taken out.old) waiting.old.items (O.taken out.new) waiting.new.items (site_text case.now view site.now) result }
    ensures machine { machine.new.case ≡ case.now }
    ensures other { other.new.case ≡ case.now }
    ensures cause { HasCause (O.faults out.old) (O.faults out.new) result }
{
    case.facts();
    let walk = walk_along(case, snaps, machine, other, site);
    let outcome = outcome_of(case, golden, snaps, machine, site);
    put_site(out, waiting, site)?;
    put_view(out, waiting, snaps, machine, view, site, steps_of(&walk))?;
    put_differences(out, waiting, walk.differences)?;
    put_output(out, waiting, snaps, machine, site, walk.went)?;
    put_end_and_outcome(out, waiting, walk.last, outcome)
}
