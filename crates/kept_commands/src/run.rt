//! The command `run`: runs the jobs of a case, each of which represents the sites that belong to it.
ghost use Rattle.std.specs.Prelude.{◌≡◌, ◌≤◌, true};
ghost use Rattle.std.specs.Option.{ForSome};
ghost use Rattle.fs_outside.specs.Faults.{IsCaused};
ghost use Rattle.fs_outside.specs.Past.{content};
ghost use Rattle.result_keeper.specs.Keep.{HasFile};
ghost use Rattle.phases.specs.Failures.{status_of};
ghost use Rattle.phases.specs.Output.{IsText, OutputStory};
ghost use Rattle.phases.specs.Reports.{run_report};
ghost use Rattle.phases.specs.Status.{is_keep_fault};
ghost use Rattle.command_line.specs.Request.{campaign_of};
ghost use Rattle.campaign.specs.Perform.{batches_due};
ghost use Rattle.campaign.specs.Ready.{portion_of};
ghost use Rattle.campaign.specs.Shards.{max_shards};
ghost use Rattle.kept_commands.specs.Crash.{PagesStory, WorkedStory};
ghost use Rattle.kept_commands.specs.Run.{run_due, run_portion};
ghost use Rattle.kept_commands.specs.Keep.{EndsFrom, IsKeepCause, RunSays};

use campaign::{CaseLedger, Performed, PrepareRefusal, Ready, Settings, perform, prepare};
use command_line::{Campaign, Format, Shard};
use fs_model::Case;
use fs_outside::{Disk, Gate, Sink};
use phases::{Answer, Baseline, Failure, report_totals};
use snapshot_store::spacing_of;
use std::alloc::Global;
use std::marker::Brand;
use std::sync::Wait;
use std::sync::ledger::Blank;
use std::thread::Threads;

// Runs the missing jobs with shortcuts, and writes the report.
fn run_ready<K: CaseLedger + Send + Sync, R: Threads + Wait + Sync, D: Disk, O: Sink, G: Gate>(
    rt: &R,
    alloc: Global,
    format: Format,
    baseline: &Baseline<'_>,
    ready: &mut Ready<'_, K>,
    disk: &mut D,
    out: &mut O,
    gate: &G,
) -> Answer
    requires case { ready.old.keeper.case ≡ baseline.now.case }
    requires healthy { ready.old.keeper.healthy ≡ true }
    requires file { D.tells → HasFile ready.old.keeper (D.past disk.old) }
    ensures cause { EndsFrom (record { budget = ready.old.budget; jobs = portion_of ready.old }) ready.old.keeper.board (status_of result) }
    ensures output { OutputStory O.tells O.taken O.faults
        (IsText (run_report format baseline.now.case ready.old.keeper.board)) out.old out.new (status_of result) }
    ensures keeps { IsCaused (is_keep_fault (status_of result)) (D.faults disk.old) (D.faults disk.new) }
    ensures story { D.tells → PagesStory (Unit {0}) ready.old.keeper (batches_due ready.old) (D.past disk.old) (D.past disk.new) (status_of result) }
{
    baseline.facts();
    ready.give_shortcuts(alloc);
    match perform(ready, rt, disk, gate) {
        Performed::Done(totals) => {
            let sites = baseline.sites();
            report_totals(alloc, format, baseline.golden(), sites, &totals, out)
        }
        Performed::Stopped { kept, jobs } => Err(Failure::Stopped { kept, jobs }),
        Performed::KeepFault => Err(Failure::KeepFault),
    }
}

// Returns a shard as the settings of a campaign have it: its number, from 1, and the number of shards.
fn numbers_of(shard: Option<Shard>) -> Option<(u32, u32)>
    ensures value { result ≡ shard }
    ensures least { ForSome result (λ s. 1 ≤ s.0) }
    ensures within { ForSome result (λ s. s.0 ≤ s.1) }
    ensures most { ForSome result (λ s. s.1 ≤ max_shards) }
{
    match shard {
        Some(shard) => Some((shard.number(), shard.of())),
        None => None,
    }
}

// Opens the campaign file, and runs the missing jobs.
fn run_jobs<K: CaseLedger + Send + Sync, R: Threads + Wait + Sync, D: Disk, O: Sink, G: Gate>(
    rt: &R,
    alloc: Global,
    campaign: &Campaign,
    baseline: &Baseline<'_>,
    disk: &mut D,
    out: &mut O,
    gate: &G,
    blank: Blank,
) -> Answer
    requires ledger { baseline.now.case ≡ K.case }
    requires name { blank.name ≡ K.name }
    requires parts { (blank.parts ≡ K.parts) × (blank.parts ≡ campaign.now.workers) }
    ensures cause { IsKeepCause D.tells campaign.now.fresh (run_portion (campaign_of campaign.now)) (content (D.past disk.old)) baseline.now.case
        (status_of result) }
    ensures output { OutputStory (D.tells × O.tells) O.taken O.faults
        (RunSays campaign.now.format campaign.now.fresh (content (D.past disk.old)) baseline.now.case) out.old out.new (status_of result) }
    ensures keeps { IsCaused (is_keep_fault (status_of result)) (D.faults disk.old) (D.faults disk.new) }
    ensures story { D.tells → WorkedStory (Unit {0}) campaign.now.fresh (run_due (campaign_of campaign.now) baseline.now.case) baseline.now.case
        (D.past disk.old) (D.past disk.new) (status_of result) }
{
    baseline.facts();
    let settings = Settings {
        workers: campaign.workers,
        page: campaign.page,
        stop_after: campaign.stop_after,
        shard: numbers_of(campaign.shard),
        fresh: campaign.fresh,
        spacing: spacing_of(baseline.golden().count()),
    };
    match prepare::<K, _>(
        alloc,
        baseline.case(),
        baseline.golden(),
        baseline.list(),
        disk,
        &settings,
        blank,
    ) {
        Ok(ready) => {
            let mut ready = ready;
            let answer = run_ready(
                rt,
                alloc,
                campaign.format,
                baseline,
                &mut ready,
                disk,
                out,
                gate,
            );
            drop(ready);
            answer
        }
        Err(PrepareRefusal::KeepFault) => Err(Failure::KeepFault),
        Err(PrepareRefusal::Refused(refusal)) => Err(Failure::BadKeep(refusal)),
        Err(PrepareRefusal::NoMemory) => Err(Failure::NoMemory),
    }
}

/// Runs a case without a fault, and then the jobs that its file lacks, as the campaign says, and writes the counts.
pub fn run<R: Threads + Wait + Sync, D: Disk, O: Sink, G: Gate>(
    rt: &R,
    alloc: Global,
    campaign: &Campaign,
    case: &Case,
    disk: &mut D,
    out: &mut O,
    gate: &G,
) -> Answer
    ensures cause { IsKeepCause D.tells campaign.now.fresh (run_portion (campaign_of campaign.now)) (content (D.past disk.old)) case.now (status_of result) }
    ensures output { OutputStory (D.tells × O.tells) O.taken O.faults
        (RunSays campaign.now.format campaign.now.fresh (content (D.past disk.old)) case.now) out.old out.new (status_of result) }
    ensures keeps { IsCaused (is_keep_fault (status_of result)) (D.faults disk.old) (D.faults disk.new) }
    ensures story { D.tells → WorkedStory (Unit {0}) campaign.now.fresh (run_due (campaign_of campaign.now) case.now) case.now
        (D.past disk.old) (D.past disk.new) (status_of result) }
{
    let baseline = Baseline::of(alloc, case)?;
    let answer = run_jobs::<Brand, _, _, _, _>(
        rt,
        alloc,
        campaign,
        &baseline,
        disk,
        out,
        gate,
        Blank::new(campaign.workers as u64),
    );
    drop(baseline);
    answer
}
