//! How a call ends that names sites: one of `fail_replay` or `fail_debug`.
ghost use Rattle.std.specs.Prelude.{◌≡◌};
ghost use Rattle.phases.specs.SiteStatus.{site_number};

use crate::status::Status;
use fs_model::Site;

/// How a call of a program that names sites ended.
#[derive(Clone, Copy, Debug, PartialEq, Eq)]
pub enum SiteStatus {
    /// The call ended as calls of the other programs do.
    Ended(Status),
    /// The first of the sites of the call that the case does not have.
    NoSite(Site),
    /// The input, from which GDB's packets come, could not be read.
    InputFault,
}

impl SiteStatus {
    /// Returns the exit status of the process.
    pub fn number(self) -> u8
        ensures { result ≡ site_number self }
    {
        match self {
            SiteStatus::Ended(status) => status.number(),
            SiteStatus::NoSite(_) => 13,
            SiteStatus::InputFault => 14,
        }
    }
}
