//! Samples: the outcomes of the sites that a seed draws.
ghost use Rattle.std.specs.Prelude.{◌≡◌, ◌*◌, ◌<◌, ◌≤◌, length, IfOk, IfErr, OnOk, OnErr, IfSome, Some, slice_get};
ghost use Rattle.fs_model.specs.Outcome.{outcome, total_at, sum_of};
ghost use Rattle.fs_model.specs.Job.{HasOutcomes, jobs_in};
ghost use Rattle.snapshot_store.specs.Along.{Rose};
ghost use Rattle.campaign.specs.Ready.{IsReady};
ghost use Rattle.campaign.specs.Sampled.{population, site_of_index, drawn_sites, count_in, jobs_drawn, steps_of_drawn};
ghost use Rattle.campaign.specs.Draw.{IsLogOf, AreJobsOf, IsDraw, IsDrawRun, IsDrawn};
ghost use Rattle.fs_model.specs.Case.{CaseData};
ghost use Rattle.fs_model.specs.Run.{cycles};
ghost use Rattle.fs_model.specs.declared.sites.Job.{Job};
ghost use Rattle.fs_model.specs.declared.sites.Site.{Site};
ghost use Rattle.fs_model.specs.declared.outcomes.Outcome.{Outcome};

use access_log::Log;
use def_use::{Board, JobList, job_of};
use experiment::run_job;
use fs_model::{Case, NoMemory, Outcome, Totals};
use golden_trace::Golden;
use rv_machine::Machine;
use sampling::{Sampler, site_at};
use snapshot_store::Snaps;
use std::alloc::Global;
use worker_pool::CaseJobs;

// The sites that a sample draws from: all sites of a case, or only its live ones.
#[derive(Drop)]
struct Population<'a> {
    case: &'a Case,
    log: &'a Log<'a>,
    list: &'a JobList,
    live: bool,
}

impl<'a> Population<'a> {
    // Returns the number of these sites.
    fn count(&self) -> u64
        ensures { (c : CaseData) → AreJobsOf c self.now.list.now → result ≡ population c self.now.live }
    {
        if self.live {
            self.list.live_weight()
        } else {
            self.list.live_weight() + self.list.dead_weight()
        }
    }

    // Returns the number of the job that the site with this index belongs to, or `None` if the site is dead. For a
    // live site's index the site itself is not needed.
    fn job_number(&self, index: u64) -> Option<u32>
        requires list { AreJobsOf self.now.case.now self.now.list.now }
        requires log { IsLogOf self.now.case.now self.now.log.now }
        requires limit { cycles self.now.case.now ≤ self.now.case.now.limit }
        requires index { index < population self.now.case.now self.now.live }
        ensures site { (site : Site) × (site_of_index self.now.case.now self.now.live index ≡ Some site) × IsDraw self.now.case.now site result }
        ensures known { IfSome result (λ number. number < length self.now.list.now.list) }
    {
        if self.live {
            Some(self.list.job_at(index))
        } else {
            let site = site_at(index, self.case);
            job_of(self.log, self.list, &site)
        }
    }
}

// Returns the outcome of the job with this number. If the board has none, it runs the job and puts its outcome
// there.
fn outcome_of_job(
    of: &CaseJobs<'_>,
    snaps: &Snaps,
    machine: &mut Machine,
    board: &mut Board,
    number: u32,
) -> Outcome
    requires ready { IsReady of.now.case.now of.now.golden.now of.now.list.now snaps.now machine.old }
    requires long { length board.old ≡ length of.now.list.now.list }
    requires number { number < length of.now.list.now.list }
    requires right { HasOutcomes (outcome of.now.case.now) of.now.list.now.list board.old }
    ensures run { (job : Job) → slice_get (jobs_in of.now.case.now) number ≡ Some job
        → IsDrawRun of.now.case.now snaps.now.spacing job number result board.old board.new machine.old.taken machine.new.taken }
    ensures case { machine.new.case ≡ machine.old.case }
{
    // This call gives the proof the bound of the count.
    let _ = machine.taken();
    match board.get(number) {
        Some(outcome) => outcome,
        None => {
            let job = of.list.get(number);
            let outcome = run_job(of.case, of.golden, snaps, machine, &job)
                .row()
                .outcome;
            let _ = board.put(number, outcome);
            outcome
        }
    }
}

// Returns the outcome of a draw: that of its job, or no effect if the site is dead.
fn outcome_of(
    of: &CaseJobs<'_>,
    snaps: &Snaps,
    machine: &mut Machine,
    board: &mut Board,
    number: Option<u32>,
) -> Outcome
    requires ready { IsReady of.now.case.now of.now.golden.now of.now.list.now snaps.now machine.old }
    requires long { length board.old ≡ length of.now.list.now.list }
    requires number { IfSome number (λ n. n < length of.now.list.now.list) }
    requires right { HasOutcomes (outcome of.now.case.now) of.now.list.now.list board.old }
    ensures drawn { IsDrawn of.now.case.now snaps.now.spacing number result board.old board.new machine.old.taken machine.new.taken }
    ensures case { machine.new.case ≡ machine.old.case }
{
    match number {
        None => Outcome::NoEffect,
        Some(number) => outcome_of_job(of, snaps, machine, board, number),
    }
}

/// Draws `count` sites by a seed, from all sites or only from the live ones, and counts their outcomes. A site
/// that is drawn twice counts twice, and its job is run once.
///
/// # Errors
///
/// `NoMemory` if memory for the board is refused.
pub fn sample(
    alloc: Global,
    case: &Case,
    golden: &Golden,
    log: &Log,
    list: &JobList,
    snaps: &Snaps,
    machine: &mut Machine,
    seed: u64,
    count: u32,
    live: bool,
) -> Result<Totals, NoMemory>
    requires ready { IsReady case.now golden.now list.now snaps.now machine.old }
    requires log { IsLogOf case.now log.now }
    // Each total is the number of draws whose site has that outcome.
    ensures totals { IfOk result (λ totals. (o : Outcome) → total_at totals o ≡ count_in case.now (drawn_sites case.now live seed count) o) }
    // The totals count all draws, unless there is no site to draw from.
    ensures all { IfOk result (λ totals. 0 < population case.now live → sum_of totals ≡ count) }
    // The machine has run each job that a drawn site belongs to exactly once.
    ensures taken { OnOk result (Rose machine.old.taken (steps_of_drawn case.now snaps.now.spacing (drawn_sites case.now live seed count)) machine.new.taken) }
    // No run takes more steps than the limit.
    ensures most { steps_of_drawn case.now snaps.now.spacing (drawn_sites case.now live seed count)
        ≤ case.now.limit * length (jobs_drawn case.now (drawn_sites case.now live seed count)) }
    ensures case { machine.new.case ≡ machine.old.case }
    ensures untouched { OnErr result (machine.new ≡ machine.old) }
{
    // This call gives the proof the bound of the count.
    let _ = machine.taken();
    case.facts();
    let of = CaseJobs { case, golden, list };
    let mut board = Board::new(alloc, list.len())?;
    let mut totals = Totals::zero();
    let mut sampler = Sampler::new(seed);
    let population = Population {
        case,
        log,
        list,
        live,
    };
    let sites = population.count();
    if sites == 0 {
        return Ok(totals);
    }
    for _i in 0..count {
        let index = sampler.next_index(sites);
        let number = population.job_number(index);
        let outcome = outcome_of(&of, snaps, machine, &mut board, number);
        totals.add(outcome, 1);
    }
    Ok(totals)
}
