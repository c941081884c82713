//! How a call of `fail_window` ends.
ghost use Rattle.std.specs.Prelude.{◌≡◌};
ghost use Rattle.phases.specs.Failures.{status_of};
ghost use Rattle.window_run.specs.WindowStatus.{window_number};
ghost use Rattle.window_run.specs.declared.status.WindowStatus.TheVariants.{Ended};

use phases::{Answer, Status};
use window_parts::NoPart;

/// How a call of `fail_window` ended.
#[derive(Clone, Copy, Debug, PartialEq, Eq)]
pub enum WindowStatus {
    /// The call ended as calls of the other programs do.
    Ended(Status),
    /// No instruction of the golden run is in the part, for this reason.
    Empty(NoPart),
}

impl WindowStatus {
    /// Returns the status of a call with this answer.
    pub(crate) fn of(answer: Answer) -> WindowStatus
        ensures { result ≡ Ended (status_of answer) }
    {
        WindowStatus::Ended(Status::of(answer))
    }

    /// Returns the exit status of the process.
    pub fn number(self) -> u8
        ensures { result ≡ window_number self }
    {
        match self {
            WindowStatus::Ended(status) => status.number(),
            WindowStatus::Empty(_) => 10,
        }
    }
}
