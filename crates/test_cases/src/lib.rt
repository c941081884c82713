//! The jobs of a case, for tests and timings.
#![tactic(auto)]

ghost use Rattle.std.specs.Prelude.{◌≡◌, IfOk};
ghost use Rattle.fs_model.specs.Job.{jobs_in, jobs_of};
ghost use Rattle.fs_model.specs.AccessLog.{log};
ghost use Rattle.golden_trace.specs.Goldens.{IsGolden};

use access_log::Log;
use def_use::laws::same_log;
use def_use::{JobList, jobs};
use fs_model::{Case, Job, NoMemory, Outcome};
use golden_trace::Golden;
use std::alloc::Global;

/// Returns the jobs of a case, from its golden run.
#[tactic(auto, unfolding(fs_model::specs::Job::jobs_of))]
pub fn jobs_of_case(alloc: Global, case: &Case, run: &Golden) -> Result<JobList, NoMemory>
    requires { IsGolden case.now run.now }
    ensures table { IfOk result (λ list. list ≡ jobs_of (log case.now)) }
    ensures list { IfOk result (λ list. list.list ≡ jobs_in case.now) }
{
    same_log();
    let log = Log::from_touches(alloc, run.touches(), &case.map(), case.pc_cell())?;
    jobs(alloc, &log, run.count())
}

/// Returns the outcome of a job of `LOADS`, worked out by hand. This program sends a byte of RAM, which is an A.
///
/// At cycle 1, x3 is the byte's address: with one of its lowest four bits flipped, another byte is loaded, which
/// is 0. At cycle 3, x1 is the address of the port that sends; with bit 2 flipped it is that of the port that
/// detects, and with bit 3 that of the port that halts. The lowest 8 bits of x2 are sent. At cycle 4 a word is
/// stored to x1 + 8.
pub fn outcome_of_loads(job: Job) -> Outcome {
    match (job.cycle, job.cell, job.bit) {
        (1, 3, 0..=3) => Outcome::Silent,
        (1, 32, _) => Outcome::Silent,
        (3, 1, 2) => Outcome::Detected,
        (3, 1, 3) => Outcome::Silent,
        (3, 2, 0..=7) => Outcome::Silent,
        (3, 2, _) => Outcome::NoEffect,
        (4, 1, 0..=1) => Outcome::Misaligned,
        _ => Outcome::Address,
    }
}
