//! What is told of a site: the weight of its job, and its outcome.
ghost use Rattle.std.specs.Prelude.{◌≡◌, IfOk};
ghost use Rattle.golden_trace.specs.Goldens.{IsGolden};
ghost use Rattle.phases.specs.Sites.{IsSite};
ghost use Rattle.debugger.specs.Debug.{AreFacts, weight_of};

use access_log::Log;
use debug_session::SiteFacts;
use def_use::{job_of, jobs};
use experiment::run_site_plain;
use fs_model::{Case, NoMemory, Site};
use golden_trace::Golden;
use rv_machine::Machine;
use std::alloc::Global;

// Returns the weight of the site's job, or `None` if the site is dead.
fn weight_of(
    alloc: Global,
    case: &Case,
    golden: &Golden,
    site: &Site,
) -> Result<Option<u32>, NoMemory>
    requires golden { IsGolden case.now golden.now }
    requires site { IsSite case.now site.now }
    ensures { IfOk result (λ found. found ≡ weight_of case.now site.now) }
{
    let log = Log::without_index(golden.touches(), &case.map(), case.pc_cell());
    let list = jobs(alloc, &log, golden.count())?;
    match job_of(&log, &list, site) {
        Some(number) => Ok(Some(list.get(number).weight)),
        None => Ok(None),
    }
}

/// Returns what is told of a site.
///
/// # Errors
///
/// `NoMemory` if memory is refused.
pub(crate) fn facts_of(
    alloc: Global,
    case: &Case,
    golden: &Golden,
    site: &Site,
) -> Result<SiteFacts, NoMemory>
    requires golden { IsGolden case.now golden.now }
    requires site { IsSite case.now site.now }
    ensures { IfOk result (AreFacts case.now site.now) }
{
    let weight = weight_of(alloc, case, golden, site)?;
    let mut machine = Machine::new(alloc, case)?;
    let outcome = run_site_plain(case, golden, &mut machine, site);
    drop(machine);
    Ok(SiteFacts { weight, outcome })
}
