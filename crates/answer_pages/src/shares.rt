//! The shares of a page: the next jobs that have chosen outcomes, dealt to the workers.

ghost use Rattle.std.specs.Prelude.{◌≡◌, ◌+◌, ◌<◌, ◌≤◌, ◌++◌, All, IfOk, OnOk, length};
ghost use Rattle.def_use.specs.Board.{place_at};
ghost use Rattle.run_answers.specs.Reference.{IsJobIn};
ghost use Rattle.answer_pages.specs.Ready.{IsOfOneCase, lines_asked_behind};
ghost use Rattle.answer_pages.specs.Text.{is_asked, is_place_asked};
ghost use Rattle.answer_pages.specs.Workers.{IsWorkerIn, share_text, shares_text};

use crate::answers::Answers;
use crate::worker::{Claim, Worker};
use def_use::{Board, Walk};
use fs_model::{NoMemory, Outcome};

// The most jobs of a share. The texts of a page are in memory until all its jobs were run. Neighbouring jobs are in one
// share, because a run only meets earlier ones of the same worker.
const MOST_JOBS: usize = 1024;

fn is_chosen(chosen: &[Outcome], kept: Outcome) -> bool
    ensures { result ≡ is_asked chosen.now kept }
{
    chosen.iter().any(|o| o.number() == kept.number())
}

// Returns whether the outcome of the job with this number is recorded and chosen.
fn is_due(board: &Board, chosen: &[Outcome], number: u32) -> bool
    requires { number < length board.now }
    ensures { result ≡ is_place_asked chosen.now (place_at board.now number) }
{
    match board.get(number) {
        Some(kept) => is_chosen(chosen, kept),
        None => false,
    }
}

/// Returns the number of jobs whose outcome is recorded and chosen.
pub(crate) fn count_due(board: &Board, chosen: &[Outcome]) -> u32 {
    let mut due = 0;
    for number in 0..board.len() {
        if is_due(board, chosen, number) {
            due += 1;
        }
    }
    due
}

/// Returns the most jobs of a share, if all workers together have this number of jobs.
pub(crate) fn share_size(due: u32, workers: usize) -> usize
    ensures { 1 ≤ result }
{
    (due as usize / workers.max(1)).min(MOST_JOBS - 1) + 1
}

// Takes the next jobs from the number `from` on whose outcome is chosen, at most `most`. Returns the number from which
// the search for later ones continues.
fn take_share(
    answers: &Answers<'_>,
    walk: &mut Walk<'_>,
    from: u32,
    most: usize,
    claims: &mut Vec<Claim>,
) -> Result<u32, NoMemory>
    requires case { IsOfOneCase answers.now }
    requires walk { walk.old ≡ answers.now.list.now }
    requires some { 1 ≤ most }
    ensures walk { walk.new ≡ walk.old }
    ensures jobs { OnOk result (All (λ claim. IsJobIn answers.now.case.now claim.job) claims.new.items) }
    ensures text { IfOk result (λ next. lines_asked_behind answers.now from
        ≡ share_text answers.now.case.now claims.new.items ++ lines_asked_behind answers.now next) }
    ensures order { IfOk result (λ next. from ≤ next) }
    ensures further { IfOk result (λ next. from < length answers.now.board.now → from < next) }
{
    claims.clear();
    let end = answers.board.len();
    for number in from..end {
        if claims.len() >= most {
            return Ok(number);
        }
        if is_due(answers.board, answers.chosen, number) {
            let job = walk.get(number);
            claims.push(Claim { number, job })?;
        }
    }
    Ok(u32::max(from, end))
}

/// Gives each worker its share of the next jobs from the number `from` on whose outcome is chosen. Returns the number
/// from which the search for later ones continues.
pub(crate) fn deal(
    answers: &Answers<'_>,
    walk: &mut Walk<'_>,
    from: u32,
    most: usize,
    workers: &mut [Worker<'_>],
) -> Result<u32, NoMemory>
    requires case { IsOfOneCase answers.now }
    requires walk { walk.old ≡ answers.now.list.now }
    requires some { 1 ≤ most }
    requires workers { All (λ w. IsWorkerIn answers.now.case.now w) workers.old }
    ensures walk { walk.new ≡ walk.old }
    ensures workers { OnOk result (All (λ w. IsWorkerIn answers.now.case.now w) workers.new) }
    ensures text { IfOk result (λ next. lines_asked_behind answers.now from
        ≡ shares_text answers.now.case.now workers.new ++ lines_asked_behind answers.now next) }
    ensures further { IfOk result (λ next. 0 < length workers.old → from < length answers.now.board.now → from < next) }
{
    let mut next = from;
    for worker in workers.iter_mut() {
        next = take_share(answers, walk, next, most, &mut worker.claims)?;
    }
    Ok(next)
}
