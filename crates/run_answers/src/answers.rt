//! The answer of a job: its injected run, begun at a stored state of the golden run.

ghost use Rattle.std.specs.Prelude.{◌≡◌, ◌++◌, ◌==◌, ◌&&◌, ◌≤◌, IfOk, OnOk, bytes_eq, length, take};
ghost use Rattle.fs_model.specs.Job.{site_of};
ghost use Rattle.fs_model.specs.Outcome.{outcome};
ghost use Rattle.fs_model.specs.Run.{after, flipped};
ghost use Rattle.run_answers.specs.Answers.{answer_of, answer_with, outcome_with};
ghost use Rattle.run_answers.specs.Kept.{IsKeptOf};
ghost use Rattle.run_answers.specs.Line.{answer_line};
ghost use Rattle.run_answers.specs.Reference.{IsJobIn};

use crate::kept::Kept;
use crate::lines::add_line;
use crate::reference::Reference;
use crate::runner::Runner;
use crate::runs::run_to_end;
use fs_model::{Event, Job, NoMemory, Outcome};
use golden_trace::Golden;
use rv_machine::Machine;
use snapshot_store::advance;

// Returns the first `sent` bytes.
fn bytes_before(bytes: &[u8], sent: usize) -> &[u8]
    requires { sent ≤ length bytes.now }
    ensures { result.now ≡ take sent bytes.now }
{
    &bytes[..sent]
}

// Takes the machine to the first state of the job's injected run, and `output` to the bytes sent by then.
fn begin(
    reference: &Reference<'_>,
    machine: &mut Machine,
    output: &mut Vec<u8>,
    job: &Job,
) -> Result<(), NoMemory>
    requires machine { machine.old.case ≡ reference.now }
    requires job { IsJobIn reference.now job.now }
    ensures state { OnOk result (record { core = machine.new.core; output = output.new.items }
        ≡ flipped (after reference.now job.now.cycle) job.now.cell job.now.bit) }
    ensures within { OnOk result (job.now.cycle ≤ reference.now.limit) }
    ensures case { machine.new.case ≡ machine.old.case }
{
    let snap = reference.snaps.nearest(job.cycle);
    machine.copy_from(snap.machine());
    let sent = advance(machine, snap.sent(), snap.cycle(), job.cycle);
    machine.flip(job.cell, job.bit);
    output.clear();
    output.extend_from_slice(bytes_before(reference.golden.output(), sent))?;
    Ok(())
}

// Returns whether a run that halted with this value and sent these bytes did the same as the golden run.
fn same_answer(golden: &Golden, value: u32, output: &[u8]) -> bool
    ensures { result ≡ ((golden.now.exit == value) && bytes_eq golden.now.output output.now) }
{
    golden.exit() == value && golden.output() == output
}

// Returns the outcome of a run that sent these bytes and had this last event.
fn outcome_of(golden: &Golden, output: &[u8], last: Event) -> Outcome
    ensures { result ≡ outcome_with golden.now.exit golden.now.output output.now last }
{
    match last {
        Event::Halted(value) => {
            if same_answer(golden, value, output) {
                Outcome::NoEffect
            } else {
                Outcome::Silent
            }
        }
        Event::Detected => Outcome::Detected,
        Event::Trapped(kind) => Outcome::of_trap(kind),
        Event::Went | Event::Out(_) => Outcome::Timeout,
    }
}

// Runs a job to its end. Takes `output` to the bytes that the run sends, and returns its last event.
fn run_job(
    reference: &Reference<'_>,
    machine: &mut Machine,
    output: &mut Vec<u8>,
    kept: &mut Kept<'_>,
    job: &Job,
) -> Result<Event, NoMemory>
    requires machine { machine.old.case ≡ reference.now }
    requires kept { IsKeptOf reference.now kept.old }
    requires job { IsJobIn reference.now job.now }
    ensures answer { IfOk result (λ last. answer_of reference.now (site_of job.now) ≡ answer_with output.new.items last) }
    ensures case { machine.new.case ≡ machine.old.case }
    ensures kept { IsKeptOf reference.now kept.new }
{
    begin(reference, machine, output, job)?;
    run_to_end(reference, machine, output, kept, job.cycle)
}

/// Runs a job of the reference's case, and adds its line to `text`: its site, its weight, the outcome of its run, all
/// bytes that this run sends from its first instruction on, and how it ends. The runner may have run other jobs of the
/// case before.
///
/// # Errors
///
/// `NoMemory` if memory for the bytes or for the line is refused. A part of the line may have been added then.
pub fn put_answer(
    reference: &Reference<'_>,
    runner: &mut Runner<'_>,
    job: &Job,
    text: &mut Vec<u8>,
) -> Result<(), NoMemory>
    requires runner { runner.old ≡ reference.now }
    requires job { IsJobIn reference.now job.now }
    ensures text { OnOk result (text.new.items ≡ text.old.items ++ answer_line reference.now job.now) }
    ensures case { runner.new ≡ runner.old }
{
    let Runner {
        machine,
        output,
        kept,
    } = runner;
    let last = run_job(reference, machine, output, kept, job)?;
    let outcome = outcome_of(reference.golden, output, last);
    add_line(text, job, outcome, output, last)
}
