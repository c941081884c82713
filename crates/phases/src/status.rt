//! How a call of the program ends.
ghost use Rattle.std.specs.Prelude.{◌≡◌};
ghost use Rattle.phases.specs.Failures.{status_of};
ghost use Rattle.phases.specs.Status as spec;

use crate::failure::Answer;
use golden_trace::GoldenFault;
use result_keeper::KeepRefusal;

/// Why the second campaign file of a merge is refused.
#[derive(Clone, Copy, Debug, PartialEq, Eq)]
pub enum OtherReason {
    /// It is not a campaign file of this case.
    Refused(KeepRefusal),
    /// It is longer than a merge reads.
    TooLong,
    /// Its outcome for this site disagrees with the campaign file. This is the first job for which they disagree.
    Disagree { cycle: u32, cell: u32, bit: u8 },
}

/// How a call of a program ended.
#[derive(Clone, Copy, Debug, PartialEq, Eq)]
pub enum Status {
    /// The job was done, and its text was written.
    Done,
    /// The words are not a valid command line.
    Usage,
    /// The image could not be read.
    ReadFault,
    /// The image is refused. 1 to 11 is the number of its fault, 12 an image that is too long. 13 and 14 mean that
    /// the command needs the symbols and they cannot be read.
    BadImage(u8),
    /// The golden run does not halt within the limit.
    BadGolden(GoldenFault),
    /// The campaign file could not be read or written.
    KeepFault,
    /// The campaign file is refused for this case.
    BadKeep(KeepRefusal),
    /// `kept` of the `jobs` have an outcome, and the others are missing.
    Stopped { kept: u32, jobs: u32 },
    /// The output could not be written.
    WriteFault,
    NoMemory,
    /// The second campaign file of a merge is refused.
    BadOther(OtherReason),
    /// The second campaign file of a merge could not be read.
    OtherFault,
    /// The table of an export could not be written.
    StoreFault,
}

impl Status {
    /// Returns the status of a call with this answer.
    pub fn of(answer: Answer) -> Status
        ensures { result ≡ status_of answer }
    {
        match answer {
            Ok(()) => Status::Done,
            Err(failure) => failure.status(),
        }
    }

    /// Returns the exit status of the process.
    pub fn number(self) -> u8
        ensures { result ≡ spec.number self }
    {
        match self {
            Status::Done => 0,
            Status::Usage => 1,
            Status::ReadFault => 2,
            Status::BadImage(_) => 3,
            Status::BadGolden(_) => 4,
            Status::KeepFault => 5,
            Status::BadKeep(_) => 6,
            Status::Stopped { .. } => 7,
            Status::WriteFault => 8,
            Status::NoMemory => 9,
            Status::BadOther(_) => 10,
            Status::OtherFault => 11,
            Status::StoreFault => 12,
        }
    }
}
