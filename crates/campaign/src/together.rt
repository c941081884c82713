//! A campaign by workers, page by page.
ghost use Rattle.std.specs.Prelude.{◌≡◌, true};
ghost use Rattle.result_keeper.specs.Keep.{HasFile};
ghost use Rattle.campaign.specs.CarriedOut.{IsCarriedOutAs};
ghost use Rattle.campaign.specs.PageRuns.{HasRunAs, IsPageFor};

use crate::paging::carry_out;
use crate::performing::Performed;
use crate::ready::Ready;
use crate::ways::ByShortcuts;
use fs_outside::{Disk, Gate};
use std::sync::Wait;
use std::thread::Threads;
use worker_pool::CaseLedger;

/// Runs the missing jobs of the shard by the workers, in threads of this runtime, within the budget. Tells the
/// gate how many jobs there are; each worker calls it after it claimed a job and before it runs the job. The
/// bytes of the file do not depend on the number of workers, nor on shortcuts.
pub fn perform<K: CaseLedger, R: Threads + Wait + Sync, D: Disk, G: Gate>(
    ready: &mut Ready<'_, K>,
    rt: &R,
    disk: &mut D,
    gate: &G,
) -> Performed
where
    K: Send + Sync,
    requires healthy { ready.old.keeper.healthy ≡ true }
    requires file { D.tells → HasFile ready.old.keeper (D.past disk.old) }
    // Without shortcuts `IsCarriedOut`: the steps are those of one run of each job. With them `IsCarriedOutWithin`.
    ensures { IsCarriedOutAs ready.old.shortcuts D.tells ready.old ready.new (D.past disk.old) (D.past disk.new)
        (D.faults disk.old) (D.faults disk.new) result }
{
    carry_out::<ByShortcuts, _, _, _, _>(
        &mut ready.pages,
        disk,
        gate,
        &|machines, numbers, rows|
            requires { IsPageFor machines.old numbers.now rows.old }
            ensures { HasRunAs machines.old.shortcuts machines.old numbers.now rows.old machines.new rows.new }
        {
            // These calls give the proof the bound of the count.
            let _ = machines.crew.taken();
            let _ = machines.own.taken();
            machines.crew.run_page(rt, gate, numbers, rows);
        },
    )
}
