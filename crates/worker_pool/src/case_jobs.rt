//! A case with what is known of it before a job is run.
ghost use Rattle.std.specs.Prelude.{◌≡◌};
ghost use Rattle.fs_model.specs.AccessLog.{log};
ghost use Rattle.fs_model.specs.Job.{jobs_of};
ghost use Rattle.golden_trace.specs.Goldens.{IsGolden};
ghost use Rattle.experiment.specs.Goldens.{IsGolden-prop};

use def_use::JobList;
use fs_model::Case;
use golden_trace::Golden;

/// A case, its golden run, and the jobs of that run.
#[derive(Clone, Copy)]
pub struct CaseJobs<'a> {
    pub case: &'a Case,
    pub golden: &'a Golden,
    pub list: &'a JobList,
    pub ghost golden_is: { IsGolden case.now golden.now } by { IsGolden-prop case.now golden.now },
    pub ghost list_is: { list.now ≡ jobs_of (log case.now) },
}
