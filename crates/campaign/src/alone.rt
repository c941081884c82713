//! A campaign on the caller's thread, page by page.
ghost use Rattle.std.specs.Prelude.{◌≡◌, true};
ghost use Rattle.result_keeper.specs.Keep.{HasFile};
ghost use Rattle.campaign.specs.CarriedOut.{IsCarriedOut};
ghost use Rattle.campaign.specs.PageRuns.{HasRun, IsPageFor};

use crate::paging::carry_out;
use crate::performing::Performed;
use crate::ready::Ready;
use crate::ways::ToTheEnd;
use fs_outside::{Disk, FreeGate};
use worker_pool::CaseLedger;

/// Runs the missing jobs of the shard on the caller's thread, within the budget, without shortcuts. Appends the rows
/// of each page as one batch, which every later crash keeps.
pub fn perform_alone<K: CaseLedger, D: Disk>(ready: &mut Ready<'_, K>, disk: &mut D) -> Performed
    requires healthy { ready.old.keeper.healthy ≡ true }
    requires file { D.tells → HasFile ready.old.keeper (D.past disk.old) }
    ensures { IsCarriedOut D.tells ready.old ready.new (D.past disk.old) (D.past disk.new) (D.faults disk.old) (D.faults disk.new) result }
{
    carry_out::<ToTheEnd, _, _, _, _>(
        &mut ready.pages,
        disk,
        &FreeGate,
        &|machines, numbers, rows|
            requires { IsPageFor machines.old numbers.now rows.old }
            ensures { HasRun machines.old numbers.now rows.old machines.new rows.new }
        {
            machines.run_alone(numbers, rows);
        },
    )
}
