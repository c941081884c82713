//! The pages of the answers: the workers run the jobs of a page, and their texts are written in order.

ghost use Rattle.std.specs.Prelude.{◌≡◌, ◌<◌, ◌≤◌, false, All, length};
ghost use Rattle.std.specs.List.{flat_map};
ghost use Rattle.fs_outside.specs.Faults.{HasCause, IsCaused};
ghost use Rattle.fs_outside.specs.Writing.{Writes};
ghost use Rattle.answer_pages.specs.Ready.{IsOfOneCase, text_asked};
ghost use Rattle.answer_pages.specs.Refusal.{is_failed};
ghost use Rattle.answer_pages.specs.Workers.{EachAnswered, HasAnswered, IsWorkerIn, shares_text};

use crate::answers::Answers;
use crate::refusal::AnswersRefusal;
use crate::shares::deal;
use crate::worker::Worker;
use fs_outside::{Failed, Gate, Sink, write_whole};
use run_answers::Reference;
use std::thread::Threads;

// Runs the shares of the workers, each in a thread of its own, if threads can be made.
fn run_shares<R: Threads + Sync, G: Gate>(
    rt: &R,
    reference: &Reference<'_>,
    gate: &G,
    workers: &mut [Worker<'_>],
)
    requires { All (λ w. IsWorkerIn reference.now w) workers.old }
    ensures { EachAnswered reference.now workers.old workers.new }
{
    fan_out::for_each_mut(
        rt,
        workers,
        &|_, worker|
            requires { IsWorkerIn reference.now worker.old }
            ensures { HasAnswered reference.entry.now worker.old worker.new }
        {
            worker.work(reference, gate);
        },
    );
}

fn is_refused(workers: &[Worker<'_>]) -> bool
    ensures { result ≡ false → All (λ w. w.refused ≡ false) workers.now }
{
    for worker in workers {
        if worker.refused {
            return true;
        }
    }
    false
}

fn write_texts<O: Sink>(out: &mut O, workers: &[Worker<'_>]) -> Result<(), Failed>
    ensures bytes { O.tells → Writes (O.taken out.old) (O.taken out.new) (flat_map (λ w. w.text.items) workers.now) result }
    ensures cause { HasCause (O.faults out.old) (O.faults out.new) result }
{
    for worker in workers {
        write_whole(out, &worker.text)?;
    }
    Ok(())
}

// Runs the shares of the workers, and writes their lines.
fn write_page<R: Threads + Sync, G: Gate, O: Sink>(
    rt: &R,
    reference: &Reference<'_>,
    gate: &G,
    workers: &mut [Worker<'_>],
    out: &mut O,
) -> Result<(), AnswersRefusal>
    requires { All (λ w. IsWorkerIn reference.now w) workers.old }
    ensures workers { All (λ w. IsWorkerIn reference.now w) workers.new }
    ensures bytes { O.tells → Writes (O.taken out.old) (O.taken out.new) (shares_text reference.now workers.old) result }
    ensures cause { IsCaused (is_failed result) (O.faults out.old) (O.faults out.new) }
{
    run_shares(rt, reference, gate, workers);
    if is_refused(workers) {
        return Err(AnswersRefusal::NoMemory);
    }
    match write_texts(out, workers) {
        Ok(()) => Ok(()),
        Err(Failed) => Err(AnswersRefusal::Failed),
    }
}

/// Runs all jobs whose outcome is chosen, page by page, and writes their lines. A worker has at most `most` jobs of a
/// page.
pub(crate) fn write_pages<R: Threads + Sync, G: Gate, O: Sink>(
    rt: &R,
    answers: &Answers<'_>,
    reference: &Reference<'_>,
    gate: &G,
    most: usize,
    workers: &mut [Worker<'_>],
    out: &mut O,
) -> Result<(), AnswersRefusal>
    requires case { IsOfOneCase answers.now }
    requires reference { reference.now ≡ answers.now.case.now }
    requires most { 1 ≤ most }
    requires some { 0 < length workers.old }
    requires workers { All (λ w. IsWorkerIn answers.now.case.now w) workers.old }
    ensures bytes { O.tells → Writes (O.taken out.old) (O.taken out.new) (text_asked answers.now) result }
    ensures cause { IsCaused (is_failed result) (O.faults out.old) (O.faults out.new) }
{
    let mut walk = answers.list.walk();
    let mut next = 0;
    let end = answers.board.len();
    while next < end {
        let Ok(behind) = deal(answers, &mut walk, next, most, workers) else {
            return Err(AnswersRefusal::NoMemory);
        };
        write_page(rt, reference, gate, workers, out)?;
        next = behind;
    }
    Ok(())
}
