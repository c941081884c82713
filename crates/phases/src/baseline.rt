//! What is known of a case before any flip: its golden run, and the jobs that represent its sites.
ghost use Rattle.std.specs.Prelude.{◌≡◌, IfOk, IfErr, length};
ghost use Rattle.fs_model.specs.AccessLog.{log};
ghost use Rattle.fs_model.specs.Job.{jobs_of};
ghost use Rattle.fs_model.specs.Site.{sites_of};
ghost use Rattle.golden_trace.specs.Goldens.{IsGolden};
ghost use Rattle.phases.specs.BaselineData.{IsBaseline};
ghost use Rattle.phases.specs.Baselines.{HasNoBaseline};
ghost use Rattle.phases.specs.Failures.{status_for};

use crate::failure::Failure;
use crate::loading::facts;
use access_log::Log;
use def_use::{JobList, jobs, laws};
use fault_space::space_size;
use fs_model::{Case, NoMemory};
use golden_trace::{Golden, golden};
use std::alloc::Global;
use std::marker::Model;

/// A case whose golden run halts, with that run and the jobs of the case.
#[derive(Drop)]
pub struct Baseline<'c> {
    case: &'c Case,
    golden: Golden,
    list: JobList,
}

impl<'c> Model for Baseline<'c> {
    ghost use Rattle.phases.specs.BaselineData.{BaselineData, IsBaseline};

    ghost Value = { BaselineData };

    ghost view = { λ b. record { case = b.case.now; golden = b.golden; list = b.list } };

    ghost invariant = { λ b. IsBaseline (record { case = b.case.now; golden = b.golden; list = b.list }) };
}

/// Returns the number of sites of a case.
pub fn sites_of_case(case: &Case, golden: &Golden) -> u64
    requires { IsGolden case.now golden.now }
    ensures { result ≡ length (sites_of case.now) }
{
    space_size(golden.count(), &case.map(), case.pc_cell())
}

// Returns the jobs of a case.
fn jobs_of_case(alloc: Global, case: &Case, golden: &Golden) -> Result<JobList, NoMemory>
    requires { IsGolden case.now golden.now }
    ensures { IfOk result (λ list. list ≡ jobs_of (log case.now)) }
{
    laws::same_log();
    let log = Log::without_index(golden.touches(), &case.map(), case.pc_cell());
    jobs(alloc, &log, golden.count())
}

impl<'c> Baseline<'c> {
    /// Runs a case without a flip, and finds its jobs.
    ///
    /// # Errors
    ///
    /// `BadGolden` if the run does not halt within the limit, or `NoMemory`.
    pub fn of(alloc: Global, case: &'c Case) -> Result<Baseline<'c>, Failure>
        ensures same { IfOk result (λ baseline. baseline.case ≡ case.now) }
        ensures refused { IfErr result (λ why. HasNoBaseline case.now (status_for why)) }
    {
        facts(case);
        let golden = golden(alloc, case)?;
        match jobs_of_case(alloc, case, &golden) {
            Ok(list) => Ok(Baseline { case, golden, list }),
            Err(refused) => {
                drop(golden);
                Err(Failure::from(refused))
            }
        }
    }

    /// Gives a proof the facts of every baseline: the run is that of the case and halts, and the jobs are those of
    /// the case.
    pub fn facts(&self)
        ensures { IsBaseline self.now }
    {
        let _case = self.case;
    }

    /// Returns the case.
    pub fn case(&self) -> &'c Case
        ensures { result.now ≡ self.now.case }
    {
        self.case
    }

    /// Returns the golden run.
    pub fn golden(&self) -> &Golden
        ensures { result.now ≡ self.now.golden }
    {
        &self.golden
    }

    /// Returns the jobs that represent the sites of the case.
    pub fn list(&self) -> &JobList
        ensures { result.now ≡ self.now.list }
    {
        &self.list
    }

    /// Returns the number of sites of the case.
    pub fn sites(&self) -> u64
        ensures { result ≡ length (sites_of self.now.case) }
    {
        sites_of_case(self.case, &self.golden)
    }
}
