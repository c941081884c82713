//! The job of a site.

ghost use Rattle.std.specs.Prelude.{◌≡◌};
ghost use Rattle.fs_model.specs.Job.{jobs_of};
ghost use Rattle.access_log.specs.LogData.{log_in};
ghost use Rattle.def_use.specs.SiteJobs.{IsJobNumber, IsOfSpace};

use crate::job_lists::JobList;
use access_log::Log;
use fs_model::Site;

/// Returns the number of the job that a site belongs to, or `None` exactly if the site is dead. With an index,
/// the log finds the next touch by binary search.
pub fn job_of(log: &Log, list: &JobList, site: &Site) -> Option<u32>
    requires list { list.now ≡ jobs_of (log_in log.now) }
    requires site { IsOfSpace (log_in log.now) site.now }
    ensures { IsJobNumber (log_in log.now) list.now.list site.now result }
{
    match log.next_touch(site.cell, site.cycle) {
        Some((cycle, reads)) => {
            if reads {
                list.find(cycle, site.cell, site.bit)
            } else {
                None
            }
        }
        None => None,
    }
}
