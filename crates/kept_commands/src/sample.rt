//! The command `sample`: counts of drawn sites by outcome.
ghost use Rattle.std.specs.Prelude.{◌≡◌, IfOk};
ghost use Rattle.fs_model.specs.declared.outcomes.Outcome.{Outcome};
ghost use Rattle.fs_model.specs.Outcome.{total_at};
ghost use Rattle.campaign.specs.Sampled as sampled;
ghost use Rattle.campaign.specs.Sampled.{count_in};
ghost use Rattle.command_line.specs.declared.commands.Command.{Command};
ghost use Rattle.command_line.specs.Request.{draws_of};
ghost use Rattle.phases.specs.Commands.{IsCaseCause};
ghost use Rattle.phases.specs.Failures.{status_of};
ghost use Rattle.phases.specs.Output.{IsText, OutputStory};
ghost use Rattle.kept_commands.specs.Sample as spec;
ghost use Rattle.kept_commands.specs.Sample.{sample_of, sites_drawn};

use access_log::Log;
use campaign::sample as sample_sites;
use command_line::Draws;
use fs_model::{Case, NoMemory, Totals};
use fs_outside::{Failed, Sink};
use phases::{Answer, Baseline, Failure};
use report::write_sample;
use rv_machine::Machine;
use snapshot_store::{Snaps, spacing_of};
use std::alloc::Global;

// Returns the number of sites to draw from: all sites, or only the live ones.
fn population_of(baseline: &Baseline<'_>, live: bool) -> u64
    ensures { result ≡ sampled.population baseline.now.case live }
{
    baseline.facts();
    if live {
        baseline.list().live_weight()
    } else {
        baseline.sites()
    }
}

// Returns the number of draws: 0 if the population is empty.
fn draws(population: u64, asked: u32) -> u32
    ensures { result ≡ spec.draws population asked }
{
    if population == 0 { 0 } else { asked }
}

// Returns the number of draws with each outcome. Runs the jobs of the drawn sites one after the other, each
// once.
fn draw(alloc: Global, asked: &Draws, baseline: &Baseline<'_>) -> Result<Totals, NoMemory>
    ensures { IfOk result (λ totals. (o : Outcome) → total_at totals o ≡ count_in baseline.now.case (sites_drawn (draws_of asked.now) baseline.now.case) o) }
{
    baseline.facts();
    let case = baseline.case();
    let golden = baseline.golden();
    let count = golden.count();
    let log = Log::from_touches(alloc, golden.touches(), &case.map(), case.pc_cell())?;
    let Ok(snaps) = Snaps::take(alloc, case, count, spacing_of(count)) else {
        drop(log);
        return Err(NoMemory);
    };
    let Ok(mut machine) = Machine::new(alloc, case) else {
        drop(log);
        drop(snaps);
        return Err(NoMemory);
    };
    let totals = sample_sites(
        alloc,
        case,
        golden,
        &log,
        baseline.list(),
        &snaps,
        &mut machine,
        asked.seed,
        asked.count,
        asked.live,
    );
    drop(log);
    drop(snaps);
    drop(machine);
    totals
}

// Draws the sites of a baseline's case, and writes their counts.
fn sample_jobs<O: Sink>(
    alloc: Global,
    asked: &Draws,
    baseline: &Baseline<'_>,
    out: &mut O,
) -> Answer
    ensures cause { IsCaseCause Command.Sample baseline.now.case (status_of result) }
    ensures output { OutputStory O.tells O.taken O.faults (IsText (sample_of (draws_of asked.now) baseline.now.case)) out.old out.new (status_of result) }
{
    baseline.facts();
    let population = population_of(baseline, asked.live);
    let totals = draw(alloc, asked, baseline)?;
    let instructions = baseline.golden().count();
    let samples = draws(population, asked.count);
    match write_sample(out, instructions, population, samples, &totals) {
        Ok(()) => Ok(()),
        Err(Failed) => Err(Failure::WriteFault),
    }
}

/// Runs a case without a fault, draws the sites that are asked for, and writes the number of draws with each outcome.
pub fn sample<O: Sink>(alloc: Global, asked: &Draws, case: &Case, out: &mut O) -> Answer
    ensures cause { IsCaseCause Command.Sample case.now (status_of result) }
    ensures output { OutputStory O.tells O.taken O.faults (IsText (sample_of (draws_of asked.now) case.now)) out.old out.new (status_of result) }
{
    let baseline = Baseline::of(alloc, case)?;
    let answer = sample_jobs(alloc, asked, &baseline, out);
    drop(baseline);
    answer
}
