//! The program that sends a byte, its 96 jobs, and boards that have some of them.
ghost use Rattle.std.specs.Prelude.{◌≡◌, IfOk};
ghost use Rattle.fs_model.specs.Job.{jobs_in};

use def_use::{Board, JobList};
use fs_model::{Case, Outcome};
use golden_trace::golden;
use std::alloc::Global;
use std::process::Abort;
use std::test::Fail;
use test_cases::jobs_of_case;
use test_programs::{SENDS, case_of};

/// Which jobs have an outcome.
#[derive(Clone, Copy, Debug)]
pub enum Jobs {
    Nothing,
    Even,
    Odd,
    All,
    /// All jobs, those from 11 on with wrong outcomes.
    Other,
}

/// Returns the case of the program that sends a byte.
pub fn sending(alloc: Global, limit: u32) -> Result<Case, Fail> {
    Ok(case_of(alloc, &SENDS, limit)?)
}

/// Returns the jobs of a case.
pub fn listed(alloc: Global, case: &Case) -> Result<JobList, Fail>
    ensures { IfOk result (λ list. list.list ≡ jobs_in case.now) }
{
    let run = golden(alloc, case)?;
    Ok(jobs_of_case(alloc, case, &run)?)
}

// Returns the outcome with this number, modulo 7.
fn turn(number: u32) -> Outcome {
    Outcome::ALL[number as usize % 7]
}

/// Returns the outcome of a job in this choice of jobs.
pub fn outcome_in(jobs: Jobs, number: u32) -> Option<Outcome> {
    match jobs {
        Jobs::Nothing => None,
        Jobs::Even => (number % 2 == 0).then_some(turn(number)),
        Jobs::Odd => (number % 2 == 1).then_some(turn(number)),
        Jobs::All => Some(turn(number)),
        Jobs::Other if number < 11 => Some(turn(number)),
        Jobs::Other => Some(turn(number - 4)),
    }
}

/// Returns a board on which these jobs have their outcomes.
pub fn board_with<R: Abort + AllocGlobal>(rt: &R, list: &JobList, jobs: Jobs) -> Board {
    let mut board = Board::new(rt.alloc(), list.len()).expect(rt, "memory");
    for number in 0..list.len() {
        if let Some(outcome) = outcome_in(jobs, number) {
            assert!(rt; number < board.len());
            let _ = board.put(number, outcome);
        }
    }
    board
}
