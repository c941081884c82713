//! Collecting the rows of a page, each from the desk or from the worker that gave it to the desk.
ghost use Rattle.std.specs.Prelude.{◌≡◌, ◌≢◌, ◌+◌, ◌^◌, ◌<◌, ◌≤◌, ◌↔◌, [], ◌∷◌, true, Some, All, Contains, IsTrue};
ghost use Rattle.std.specs.Prelude.{IfSome, IfNone, length, slice_get, flat_map, vec_capacity};
ghost use Rattle.fs_model.specs.Job.{site_of};
ghost use Rattle.fs_model.specs.Outcome.{outcome};
ghost use Rattle.fs_model.specs.Verdict.{site_of_row};
ghost use Rattle.job_queue.specs.Pages.{HasSame, times_among};
ghost use Rattle.job_queue.specs.Hands.{claims_of};
ghost use Rattle.def_use.specs.Rows.{row_of_job};
ghost use Rattle.worker_pool.specs.Workers.{shared_case, jobs_of_all, rows_run};
ghost use Rattle.worker_pool.specs.Crews.{IsBack};

use crate::own_desk::CaseLedger;
use crate::shared::Shared;
use crate::worker::Worker;
use fs_model::{Case, Job, Row};
use result_desk::Desk;
use std::sync::Wait;
use std::sync::ledger::Ledger;

// Returns whether the row has the job's name.
#[tactic(auto, unfolding(fs_model::specs::Job::site_of))]
fn is_of(row: &Row, job: &Job) -> bool
    ensures { IsTrue result ↔ (site_of_row row.now ≡ site_of job.now) }
{
    row.cycle == job.cycle && row.cell == job.cell && row.bit == job.bit
}

// Returns the row of the page's job at `place`, if the desk has it.
fn desk_row<K: Ledger>(desk: &Desk<'_, K>, place: u32, job: &Job) -> Option<Row>
    ensures { IfSome result (λ row. row ≡ row_of_job (outcome desk.now.case) job.now) }
{
    let row = desk.row_of(place)?;
    if is_of(&row, job) { Some(row) } else { None }
}

// Returns a row with the job's name.
fn row_in(rows: &[Row], job: &Job) -> Option<Row>
    ensures some { IfSome result (λ row. Contains rows.now row × (site_of_row row ≡ site_of job.now)) }
    ensures none { IfNone result (All (λ row. site_of_row row ≢ site_of job.now) rows.now) }
{
    rows.iter().find(|row| is_of(row, job)).copied()
}

impl<'a, K: CaseLedger> Shared<'a, K> {
    // Returns the row of the job with this number, from a worker that claimed it.
    fn offered_row(&self, workers: &[Worker<'_, K>], number: u32, job: &Job) -> Option<Row>
        requires job { slice_get (jobs_of_all self.now) number ≡ Some job.now }
        requires back { All (λ w. IsBack self.now w) workers.now }
        ensures some { IfSome result (λ row. row ≡ row_of_job (outcome (shared_case self.now)) job.now) }
        ensures none { IfNone result (times_among number (flat_map (λ w. claims_of w.hand) workers.now) ≡ 0) }
    {
        for worker in workers {
            if let Some(row) = row_in(worker.tally.offered(), job) {
                return Some(row);
            }
        }
        None
    }

    // Returns the row of the job with this number, from the desk or from the worker that claimed it.
    fn row_of(
        &self,
        desk: &Desk<'_, K>,
        workers: &[Worker<'_, K>],
        place: u32,
        number: u32,
        job: &Job,
    ) -> Row
        requires job { slice_get (jobs_of_all self.now) number ≡ Some job.now }
        requires desk { desk.now.case ≡ shared_case self.now }
        requires back { All (λ w. IsBack self.now w) workers.now }
        requires claimed { 0 < times_among number (flat_map (λ w. claims_of w.hand) workers.now) }
        ensures { rows_run self.now (number ∷ []) ≡ result ∷ [] }
    {
        if let Some(row) = desk_row(desk, place, job) {
            return row;
        }
        match self.offered_row(workers, number, job) {
            Some(row) => row,
            None => unreachable!(),
        }
    }

    /// Begins the page at the desk if that has room for it.
    pub(crate) fn begin<R: Wait>(&self, rt: &R, numbers: &[u32])
        requires { All (λ n. n < length (jobs_of_all self.now)) numbers.now }
    {
        self.desk.lock(rt).begin(self.list, numbers);
    }

    /// Writes the rows of the jobs with these numbers, all claimed by the workers, in order.
    pub(crate) fn collect<R: Wait>(
        &self,
        rt: &R,
        workers: &[Worker<'_, K>],
        numbers: &[u32],
        rows: &mut Vec<Row>,
    )
        requires back { All (λ w. IsBack self.now w) workers.now }
        requires page { HasSame numbers.now (flat_map (λ w. claims_of w.hand) workers.now) }
        requires known { All (λ n. n < length (jobs_of_all self.now)) numbers.now }
        requires few { length numbers.now < 2 ^ 32 }
        requires room { length numbers.now ≤ vec_capacity rows.old }
        ensures rows { rows.new.items ≡ rows_run self.now numbers.now }
        ensures room { vec_capacity rows.new ≡ vec_capacity rows.old }
    {
        let own = self.desk.lock(rt);
        let desk = own.desk();
        rows.clear();
        let mut walk = self.list.walk();
        for (place, number) in numbers.iter().enumerate() {
            let job = walk.get(*number);
            rows.push_reserved(self.row_of(desk, workers, place as u32, *number, &job));
        }
    }
}
