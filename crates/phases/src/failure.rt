//! Why a call fails, and how the refusals of its parts become failures.
ghost use Rattle.std.specs.Prelude.{◌≡◌, length};
ghost use Rattle.def_use.specs.Board.{kept_of};
ghost use Rattle.phases.specs.declared.failure.Failure.TheVariants as failure;
ghost use Rattle.phases.specs.Failures as spec;

use crate::status::{OtherReason, Status};
use def_use::Board;
use elf_loader::{ImageFault, LoadRefusal};
use elf_symbols::SymbolRefusal;
use fs_model::NoMemory;
use golden_trace::{GoldenFault, GoldenRefusal};
use report::ReportRefusal;
use result_keeper::{AdoptRefusal, KeepRefusal};
use std::alloc::AllocError;

/// Why an image is refused.
#[derive(Clone, Copy)]
pub enum ImageReason {
    Fault(ImageFault),
    /// It is longer than the longest image that is read.
    TooLong,
    /// The command needs the symbols, and their sections cannot be read.
    BadSections,
    /// The command needs the symbols, and a name cannot be read.
    BadName,
}

impl ImageReason {
    /// Returns the number of the reason in messages, from 1.
    pub fn number(self) -> u8
        ensures { result ≡ spec.reason_number self }
    {
        match self {
            ImageReason::Fault(fault) => fault.number(),
            ImageReason::TooLong => 12,
            ImageReason::BadSections => 13,
            ImageReason::BadName => 14,
        }
    }
}

/// Why a call of a program failed.
#[derive(Clone, Copy)]
pub enum Failure {
    /// The words are not a valid command line.
    Usage,
    /// The image could not be read.
    ReadFault,
    /// The image is refused.
    BadImage(ImageReason),
    /// The golden run does not halt within the limit.
    BadGolden(GoldenFault),
    /// The campaign file could not be read or written.
    KeepFault,
    /// The campaign file is refused for this case.
    BadKeep(KeepRefusal),
    /// `kept` of the `jobs` have an outcome, and the others are missing.
    Stopped { kept: u32, jobs: u32 },
    /// The output could not be written.
    WriteFault,
    NoMemory,
    /// The second campaign file of a merge is refused.
    BadOther(OtherReason),
    /// The second campaign file of a merge could not be read.
    OtherFault,
    /// The table of an export could not be written.
    StoreFault,
}

/// The answer of a command: its text was written, or it failed.
pub type Answer = Result<(), Failure>;

impl Failure {
    /// Returns the failure of a command that needs an outcome for each job of a board.
    pub fn stopped(board: &Board) -> Failure
        ensures { result ≡ failure.Stopped (kept_of board.now) (length board.now) }
    {
        Failure::Stopped {
            kept: board.kept(),
            jobs: board.len(),
        }
    }

    /// Returns the status of a call that failed.
    pub fn status(self) -> Status
        ensures { result ≡ spec.status_for self }
    {
        match self {
            Failure::Usage => Status::Usage,
            Failure::ReadFault => Status::ReadFault,
            Failure::BadImage(reason) => Status::BadImage(reason.number()),
            Failure::BadGolden(fault) => Status::BadGolden(fault),
            Failure::KeepFault => Status::KeepFault,
            Failure::BadKeep(refusal) => Status::BadKeep(refusal),
            Failure::Stopped { kept, jobs } => Status::Stopped { kept, jobs },
            Failure::WriteFault => Status::WriteFault,
            Failure::NoMemory => Status::NoMemory,
            Failure::BadOther(reason) => Status::BadOther(reason),
            Failure::OtherFault => Status::OtherFault,
            Failure::StoreFault => Status::StoreFault,
        }
    }
}

impl From<LoadRefusal> for Failure {
    ghost from_gives = { λ refusal why. why ≡ spec.of_load refusal };

    fn from(refusal: LoadRefusal) -> Failure {
        match refusal {
            LoadRefusal::Fault(fault) => Failure::BadImage(ImageReason::Fault(fault)),
            LoadRefusal::NoMemory => Failure::NoMemory,
        }
    }
}

impl From<SymbolRefusal> for Failure {
    ghost from_gives = { λ refusal why. why ≡ spec.of_symbols refusal };

    fn from(refusal: SymbolRefusal) -> Failure {
        match refusal {
            SymbolRefusal::BadSections => Failure::BadImage(ImageReason::BadSections),
            SymbolRefusal::BadName => Failure::BadImage(ImageReason::BadName),
            SymbolRefusal::NoMemory => Failure::NoMemory,
        }
    }
}

impl From<GoldenRefusal> for Failure {
    ghost from_gives = { λ refusal why. why ≡ spec.of_golden refusal };

    fn from(refusal: GoldenRefusal) -> Failure {
        match refusal {
            GoldenRefusal::Fault(fault) => Failure::BadGolden(fault),
            GoldenRefusal::NoMemory => Failure::NoMemory,
        }
    }
}

impl From<AdoptRefusal> for Failure {
    ghost from_gives = { λ refusal why. why ≡ spec.of_adopt refusal };

    fn from(refusal: AdoptRefusal) -> Failure {
        match refusal {
            AdoptRefusal::DiskFault => Failure::KeepFault,
            AdoptRefusal::Refused(refusal) => Failure::BadKeep(refusal),
            AdoptRefusal::NoMemory => Failure::NoMemory,
        }
    }
}

impl From<ReportRefusal> for Failure {
    ghost from_gives = { λ refusal why. why ≡ spec.of_report refusal };

    fn from(refusal: ReportRefusal) -> Failure {
        match refusal {
            ReportRefusal::Failed => Failure::WriteFault,
            ReportRefusal::NoMemory => Failure::NoMemory,
        }
    }
}

impl From<NoMemory> for Failure {
    ghost from_gives = { λ _ why. why ≡ failure.NoMemory };

    fn from(_error: NoMemory) -> Failure {
        Failure::NoMemory
    }
}

impl From<AllocError> for Failure {
    ghost from_gives = { λ _ why. why ≡ failure.NoMemory };

    fn from(_error: AllocError) -> Failure {
        Failure::NoMemory
    }
}
