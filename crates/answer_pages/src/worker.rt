//! A worker, which runs the jobs of its share of a page and keeps the text of their lines.

ghost use Rattle.std.specs.Prelude.{◌≡◌, ◌+◌, ◌<◌, [], All, IfOk, OnOk, length, vec_len};
ghost use Rattle.run_answers.specs.Reference.{IsJobIn};
ghost use Rattle.answer_pages.specs.Workers.{HasAnswered, IsWorkerIn, share_text};

use fs_model::{Case, Job, NoMemory};
use fs_outside::Gate;
use run_answers::{Reference, Runner, put_answer};
use rv_machine::Machine;
use std::alloc::Global;

/// A job with its number.
#[derive(Clone, Copy)]
pub(crate) struct Claim {
    pub(crate) number: u32,
    pub(crate) job: Job,
}

/// A runner, a share of the jobs of a page, and the text of their lines.
#[derive(Drop)]
pub(crate) struct Worker<'a> {
    pub(crate) number: u32,
    pub(crate) runner: Runner<'a>,
    pub(crate) claims: Vec<Claim>,
    pub(crate) text: Vec<u8>,
    // Memory for the text or for the bytes of a run was refused.
    pub(crate) refused: bool,
}

// Runs jobs of the case one after the other, and adds their lines to an empty text. Tells the gate of each job before
// it is run by the worker with this number.
fn answer_all<G: Gate>(
    reference: &Reference<'_>,
    gate: &G,
    number: u32,
    claims: &[Claim],
    runner: &mut Runner<'_>,
    text: &mut Vec<u8>,
) -> Result<(), NoMemory>
    requires runner { runner.old ≡ reference.now }
    requires jobs { All (λ claim. IsJobIn reference.now claim.job) claims.now }
    requires empty { text.old.items ≡ [] }
    ensures text { OnOk result (text.new.items ≡ share_text reference.now claims.now) }
    ensures case { runner.new ≡ runner.old }
{
    for claim in claims {
        gate.at(number, claim.number);
        put_answer(reference, runner, &claim.job, text)?;
    }
    Ok(())
}

impl<'a> Worker<'a> {
    /// Runs the jobs of its share.
    pub(crate) fn work<G: Gate>(&mut self, reference: &Reference<'_>, gate: &G)
        requires { IsWorkerIn reference.now self.old }
        ensures { HasAnswered reference.now self.old self.new }
    {
        self.text.clear();
        let answered = answer_all(
            reference,
            gate,
            self.number,
            &self.claims,
            &mut self.runner,
            &mut self.text,
        );
        self.refused = answered.is_err();
    }
}

// Adds `count` workers of the case to an empty list.
fn add_workers<'a>(
    alloc: Global,
    case: &'a Case,
    machine: &Machine<'a>,
    count: u32,
    workers: &mut Vec<Worker<'a>>,
) -> Result<(), NoMemory>
    requires machine { machine.now.case ≡ case.now }
    requires empty { workers.old.items ≡ [] }
    ensures workers { OnOk result (All (λ w. IsWorkerIn case.now w) workers.new.items) }
    ensures count { OnOk result (vec_len workers.new ≡ count) }
{
    for number in 0..count {
        let runner = Runner::new(alloc, case, machine)?;
        workers.push(Worker {
            number,
            runner,
            claims: Vec::new(alloc),
            text: Vec::new(alloc),
            refused: false,
        })?;
    }
    Ok(())
}

/// Returns `count` workers of a case, but at least one.
pub(crate) fn workers_of<'a>(
    alloc: Global,
    case: &'a Case,
    count: u32,
) -> Result<Vec<Worker<'a>>, NoMemory>
    ensures ready { IfOk result (λ workers. All (λ w. IsWorkerIn case.now w) workers.items) }
    ensures some { IfOk result (λ workers. 0 < vec_len workers) }
{
    let machine = Machine::new(alloc, case)?;
    let mut workers = Vec::new(alloc);
    let added = add_workers(alloc, case, &machine, u32::max(count, 1), &mut workers);
    drop(machine);
    match added {
        Ok(()) => Ok(workers),
        Err(refused) => {
            drop(workers);
            Err(refused)
        }
    }
}
