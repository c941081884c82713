//! How a campaign ends.
ghost use Rattle.std.specs.Prelude.{◌≡◌, ◌+◌, ◌<◌, [], if◌then◌else◌};
ghost use Rattle.fs_model.specs.declared.outcomes.Outcome.{Outcome};
ghost use Rattle.fs_model.specs.AccessLog.{log, dead};
ghost use Rattle.fs_model.specs.Job.{jobs_in, HasOutcomes};
ghost use Rattle.fs_model.specs.Filling.{board_total};
ghost use Rattle.fs_model.specs.Outcome.{outcome, count, total_at, same_outcome};
ghost use Rattle.fs_model.specs.Pages.{missing};
ghost use Rattle.campaign.specs.Turn.{least_of};

use crate::machines::PageMachines;
use crate::paging::Pages;
use fault_space::totals_of;
use fs_model::Totals;

/// How a campaign ends.
#[derive(Drop)]
pub enum Performed {
    /// Every job has an outcome. These are the counts of sites by outcome.
    Done(Totals),
    /// The call used up its budget or ran all jobs of its shard, and others are missing: `kept` of the `jobs`
    /// have an outcome.
    Stopped { kept: u32, jobs: u32 },
    /// The disk failed, and its count of faults rose.
    KeepFault,
}

/// Returns how many of the missing jobs a call with this budget runs.
pub(crate) fn within(budget: Option<u32>, missing: u32) -> u32
    ensures { result ≡ least_of budget missing }
{
    match budget {
        Some(most) => most.min(missing),
        None => missing,
    }
}

/// Returns the totals of a board without blanks.
pub(crate) fn whole_totals<M: PageMachines>(pages: &Pages<'_, M>) -> Totals
    requires { missing pages.now.keeper.board ≡ [] }
    ensures counts { HasOutcomes (outcome pages.now.keeper.case) (jobs_in pages.now.keeper.case) pages.now.keeper.board
        → (o : Outcome) → total_at result o ≡ count pages.now.keeper.case o }
    ensures sums { (o : Outcome) → total_at result o ≡ board_total (jobs_in pages.now.keeper.case) pages.now.keeper.board o
        + (if same_outcome Outcome.NoEffect o then dead (log pages.now.keeper.case) else 0) }
{
    match totals_of(pages.list, pages.keeper.board()) {
        Ok(totals) => totals,
        Err(_) => unreachable!(),
    }
}
