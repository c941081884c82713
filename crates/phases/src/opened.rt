//! A campaign file that a command only reads.
ghost use Rattle.std.specs.Prelude.{◌≡◌, Ok, IfOk, IfErr, length};
ghost use Rattle.fs_outside.specs.Faults.{IsCaused};
ghost use Rattle.fs_outside.specs.Past.{content};
ghost use Rattle.result_keeper.specs.Acceptance.{accept};
ghost use Rattle.phases.specs.Baselines.{Halts};
ghost use Rattle.phases.specs.Failures.{status_for, status_of};
ghost use Rattle.phases.specs.Opening.{IsUnopened};
ghost use Rattle.phases.specs.Status.{is_keep_fault};

use crate::baseline::Baseline;
use crate::failure::Failure;
use def_use::Board;
use fs_model::Case;
use fs_outside::Disk;
use result_keeper::look;
use std::alloc::Global;

/// A baseline, and for each of its jobs the outcome in a campaign file, or a blank.
#[derive(Drop)]
pub struct Opened<'c> {
    pub baseline: Baseline<'c>,
    pub board: Board,
    ghost long: { length board ≡ length baseline.list.list },
}

impl<'c> Opened<'c> {
    // Reads the campaign file of a baseline's case.
    fn of_baseline<D: Disk>(
        alloc: Global,
        baseline: Baseline<'c>,
        disk: &mut D,
    ) -> Result<Opened<'c>, Failure>
        ensures same { IfOk result (λ opened. opened.baseline ≡ baseline.entry) }
        ensures halts { IfOk result (λ opened. Halts baseline.entry.case) }
        ensures board { D.tells → IfOk result (λ opened. accept (content (D.past disk.old)) baseline.entry.case ≡ Ok opened.board) }
        ensures refused { IfErr result (λ why. IsUnopened D.tells (content (D.past disk.old)) baseline.entry.case (status_for why)) }
        ensures keeps { IsCaused (is_keep_fault (status_of result)) (D.faults disk.old) (D.faults disk.new) }
        ensures read { D.tells → D.past disk.new ≡ D.past disk.old }
    {
        baseline.facts();
        match look(alloc, disk, baseline.case(), baseline.list()) {
            Ok(board) => Ok(Opened { baseline, board }),
            Err(refusal) => {
                drop(baseline);
                Err(Failure::from(refusal))
            }
        }
    }

    /// Runs a case without a flip, and reads its campaign file. Does not write to the file.
    ///
    /// # Errors
    ///
    /// `BadGolden` if the run does not halt within the limit, `KeepFault` if the disk failed, `BadKeep` if the
    /// file is refused for the case, or `NoMemory`.
    pub fn look_at<D: Disk>(
        alloc: Global,
        case: &'c Case,
        disk: &mut D,
    ) -> Result<Opened<'c>, Failure>
        ensures same { IfOk result (λ opened. opened.baseline.case ≡ case.now) }
        ensures halts { IfOk result (λ opened. Halts case.now) }
        ensures board { D.tells → IfOk result (λ opened. accept (content (D.past disk.old)) case.now ≡ Ok opened.board) }
        ensures refused { IfErr result (λ why. IsUnopened D.tells (content (D.past disk.old)) case.now (status_for why)) }
        ensures keeps { IsCaused (is_keep_fault (status_of result)) (D.faults disk.old) (D.faults disk.new) }
        ensures read { D.tells → D.past disk.new ≡ D.past disk.old }
    {
        let baseline = Baseline::of(alloc, case)?;
        Opened::of_baseline(alloc, baseline, disk)
    }
}
