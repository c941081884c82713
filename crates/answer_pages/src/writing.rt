//! The whole text of the answers, to a sink.

ghost use Rattle.std.specs.Prelude.{◌≡◌, ◌<◌, All, IfOk, length};
ghost use Rattle.fs_outside.specs.Faults.{IsCaused};
ghost use Rattle.fs_outside.specs.Writing.{Writes};
ghost use Rattle.answer_pages.specs.Ready.{IsOfOneCase, text_asked};
ghost use Rattle.answer_pages.specs.Refusal.{is_failed};
ghost use Rattle.answer_pages.specs.Text.{answers_text};
ghost use Rattle.answer_pages.specs.Workers.{IsWorkerIn};

use crate::answers::Answers;
use crate::pages::write_pages;
use crate::refusal::AnswersRefusal;
use crate::shares::{count_due, share_size};
use crate::worker::{Worker, workers_of};
use fs_outside::{Gate, Sink};
use run_answers::Reference;
use snapshot_store::{Snaps, spacing_of};
use std::alloc::Global;
use std::thread::Threads;

// Writes the answers, given the stored states of the golden run and at least one worker.
fn write_with<R: Threads + Sync, G: Gate, O: Sink>(
    rt: &R,
    answers: &Answers<'_>,
    snaps: &Snaps<'_>,
    workers: &mut [Worker<'_>],
    gate: &G,
    out: &mut O,
) -> Result<(), AnswersRefusal>
    requires case { IsOfOneCase answers.now }
    requires snaps { snaps.now.case ≡ answers.now.case.now }
    requires count { snaps.now.count ≡ length answers.now.golden.now.touches }
    requires some { 0 < length workers.old }
    requires workers { All (λ w. IsWorkerIn answers.now.case.now w) workers.old }
    ensures bytes { O.tells → Writes (O.taken out.old) (O.taken out.new) (text_asked answers.now) result }
    ensures cause { IsCaused (is_failed result) (O.faults out.old) (O.faults out.new) }
{
    let reference = Reference::new(answers.case, answers.golden, snaps);
    let due = count_due(answers.board, answers.chosen);
    gate.begin(due, 0, due);
    let most = share_size(due, workers.len());
    write_pages(rt, answers, &reference, gate, most, workers, out)
}

/// Runs each job whose recorded outcome is one of those that are asked for, on `workers` workers in threads of their
/// own, and writes its line to the sink, in the order of the jobs. Tells the gate how many jobs these are, and then of
/// each before it is run.
///
/// # Errors
///
/// `Failed` if the sink failed, and `NoMemory` if memory was refused. The sink may have taken a part of the text.
pub fn write_answers<R: Threads + Sync, G: Gate, O: Sink>(
    rt: &R,
    alloc: Global,
    answers: &Answers<'_>,
    workers: u32,
    gate: &G,
    out: &mut O,
) -> Result<(), AnswersRefusal>
    requires { IsOfOneCase answers.now }
    ensures bytes { O.tells → Writes (O.taken out.old) (O.taken out.new)
        (answers_text answers.now.case.now answers.now.board.now answers.now.chosen.now) result }
    ensures cause { IsCaused (is_failed result) (O.faults out.old) (O.faults out.new) }
{
    let count = answers.golden.count();
    let Ok(snaps) = Snaps::take(alloc, answers.case, count, spacing_of(count)) else {
        return Err(AnswersRefusal::NoMemory);
    };
    let Ok(mut list) = workers_of(alloc, answers.case, workers) else {
        drop(snaps);
        return Err(AnswersRefusal::NoMemory);
    };
    let written = write_with(rt, answers, &snaps, list.as_mut_slice(), gate, out);
    drop(list);
    drop(snaps);
    written
}
