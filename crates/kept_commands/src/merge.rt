//! The command `merge`: adds the outcomes of another campaign file of the case to the campaign file.
ghost use Rattle.std.specs.Prelude.{◌≡◌, [], false, true, length, Ok, IfOk, IfErr};
ghost use Rattle.fs_outside.specs.Faults.{IsCaused};
ghost use Rattle.fs_outside.specs.Past.{EachImage, content};
ghost use Rattle.fs_model.specs.Job.{HasOutcomes, jobs_in};
ghost use Rattle.fs_model.specs.Outcome.{outcome};
ghost use Rattle.fs_model.specs.Pages.{missing};
ghost use Rattle.result_keeper.specs.Acceptance.{HasRightOldRows, accept};
ghost use Rattle.result_keeper.specs.Keep.{Gives, HasFile};
ghost use Rattle.shard_merge.specs.Gained.{batches_gained};
ghost use Rattle.shard_merge.specs.Merged.{IsRightFor};
ghost use Rattle.shard_merge.specs.Union.{BoardData, union};
ghost use Rattle.phases.specs.Failures.{status_for, status_of};
ghost use Rattle.phases.specs.Output.{IsText, OutputStory};
ghost use Rattle.phases.specs.Reports.{board_report};
ghost use Rattle.phases.specs.Status.{is_keep_fault, is_other_fault};
ghost use Rattle.phases.specs.declared.status.Status.{Status};
ghost use Rattle.kept_commands.specs.Crash.{PagesStory, WorkedStory};
ghost use Rattle.kept_commands.specs.Keep.{EndsFrom};
ghost use Rattle.kept_commands.specs.Merge.{BoardAtEnd, IsMergeCause, MergeSays, MergeStory, UnionAtEnd, merge_due, other_board};
ghost use Rattle.kept_commands.specs.Merging.{FileEnds, FileSays, IsNoOther, UnionEnds, UnionSays};
ghost use Rattle.kept_commands.specs.Run.{no_job};

use command_line::{Format, Merging};
use def_use::Board;
use fs_model::Case;
use fs_outside::{Disk, ReadRefusal, Sink, Source, read_all};
use phases::{Answer, Baseline, Failure, OtherReason, report_totals, whole_totals};
use result_keeper::{AdoptRefusal, BoardRefusal, Keeper, board_of};
use shard_merge::{MergeRefusal, Merger};
use std::alloc::Global;

/// The most bytes of OTHER that are read.
pub const MAX_OTHER: usize = 268_435_456;

// Returns the board of the campaign file that the source has left.
fn read_other<T: Source>(
    alloc: Global,
    baseline: &Baseline<'_>,
    second: &mut T,
) -> Result<Board, Failure>
    ensures board { T.tells → IfOk result (λ board. other_board (T.left second.old) baseline.now.case ≡ Ok board) }
    ensures long { IfOk result (λ board. length board ≡ length baseline.now.list.list) }
    ensures refused { IfErr result (λ why. IsNoOther T.tells (T.left second.old) baseline.now.case (status_for why)) }
    ensures faults { IsCaused (is_other_fault (status_of result)) (T.faults second.old) (T.faults second.new) }
{
    baseline.facts();
    let bytes = match read_all(alloc, second, MAX_OTHER) {
        Ok(bytes) => bytes,
        Err(ReadRefusal::ReadFault) => return Err(Failure::OtherFault),
        Err(ReadRefusal::TooLong) => return Err(Failure::BadOther(OtherReason::TooLong)),
        Err(ReadRefusal::NoMemory) => return Err(Failure::NoMemory),
    };
    match board_of(alloc, bytes.as_slice(), baseline.case(), baseline.list()) {
        Ok(board) => Ok(board),
        Err(BoardRefusal::Refused(refusal)) => {
            Err(Failure::BadOther(OtherReason::Refused(refusal)))
        }
        Err(BoardRefusal::NoMemory) => Err(Failure::NoMemory),
    }
}

// Writes the report of a board, if it has no blanks.
fn report_merged<O: Sink>(
    alloc: Global,
    format: Format,
    baseline: &Baseline<'_>,
    board: &Board,
    out: &mut O,
) -> Answer
    requires { length board.now ≡ length baseline.now.list.list }
    ensures cause { EndsFrom no_job board.now (status_of result) }
    ensures output { OutputStory O.tells O.taken O.faults (IsText (board_report format baseline.now.case board.now)) out.old out.new (status_of result) }
    ensures keeps { is_keep_fault (status_of result) ≡ false }
    ensures whole { status_of result ≡ Status.NoMemory → missing board.now ≡ [] }
{
    baseline.facts();
    let totals = whole_totals(baseline.list(), board)?;
    let sites = baseline.sites();
    report_totals(alloc, format, baseline.golden(), sites, &totals, out)
}

// Merges a board into the file of a keeper, and writes the report of the result.
fn merge_opened<D: Disk, O: Sink>(
    alloc: Global,
    format: Format,
    baseline: &Baseline<'_>,
    merger: &mut Merger,
    keeper: &mut Keeper<'_>,
    other: &Board,
    disk: &mut D,
    out: &mut O,
) -> Answer
    requires case { keeper.old.case ≡ baseline.now.case }
    requires jobs { keeper.old.list ≡ baseline.now.list.list }
    requires healthy { keeper.old.healthy ≡ true }
    requires page { keeper.old.page ≡ merger.old }
    requires other { length other.now ≡ length baseline.now.list.list }
    requires file { D.tells → HasFile keeper.old (D.past disk.old) }
    ensures cause { UnionEnds baseline.now.case keeper.old.board other.now (status_of result) }
    ensures output { OutputStory O.tells O.taken O.faults
        (UnionSays format baseline.now.case keeper.old.board other.now) out.old out.new (status_of result) }
    ensures keeps { IsCaused (is_keep_fault (status_of result)) (D.faults disk.old) (D.faults disk.new) }
    ensures story { D.tells → PagesStory (IsRightFor keeper.old other.now) keeper.old (batches_gained keeper.old other.now)
        (D.past disk.old) (D.past disk.new) (status_of result) }
    ensures union { D.tells → IsRightFor keeper.old other.now → EachImage (D.past disk.old) HasRightOldRows
        → Gives keeper.old.case keeper.old.board (content (D.past disk.old))
        → BoardAtEnd keeper.old.case (union keeper.old.board other.now) (D.past disk.new) (status_of result) }
{
    baseline.facts();
    match merger.merge(keeper, disk, baseline.list(), other) {
        Ok(_) => {
            let board = keeper.board();
            report_merged(alloc, format, baseline, board, out)
        }
        Err(MergeRefusal::Disagree { job, .. }) => {
            let job = baseline.list().get(job);
            Err(Failure::BadOther(OtherReason::Disagree {
                cycle: job.cycle,
                cell: job.cell,
                bit: job.bit,
            }))
        }
        Err(MergeRefusal::DiskFault) => Err(Failure::KeepFault),
    }
}

// Opens or starts the campaign file, and merges a board into it.
fn merge_board<D: Disk, O: Sink>(
    alloc: Global,
    merging: &Merging,
    baseline: &Baseline<'_>,
    other: &Board,
    disk: &mut D,
    out: &mut O,
) -> Answer
    requires { length other.now ≡ length baseline.now.list.list }
    ensures cause { FileEnds D.tells (content (D.past disk.old)) other.now baseline.now.case (status_of result) }
    ensures output { OutputStory (D.tells × O.tells) O.taken O.faults
        (FileSays merging.now.format (content (D.past disk.old)) other.now baseline.now.case) out.old out.new (status_of result) }
    ensures keeps { IsCaused (is_keep_fault (status_of result)) (D.faults disk.old) (D.faults disk.new) }
    ensures story { D.tells → WorkedStory (HasOutcomes (outcome baseline.now.case) (jobs_in baseline.now.case) other.now) false
        (merge_due merging.now.page baseline.now.case other.now) baseline.now.case (D.past disk.old) (D.past disk.new) (status_of result) }
    ensures union { D.tells → HasOutcomes (outcome baseline.now.case) (jobs_in baseline.now.case) other.now → EachImage (D.past disk.old) HasRightOldRows
        → (kept : BoardData) → accept (content (D.past disk.old)) baseline.now.case ≡ Ok kept
        → BoardAtEnd baseline.now.case (union kept other.now) (D.past disk.new) (status_of result) }
{
    baseline.facts();
    let mut merger = Merger::new(alloc, merging.page)?;
    match Keeper::adopt(
        alloc,
        disk,
        baseline.case(),
        baseline.list(),
        merging.page,
        false,
    ) {
        Ok(keeper) => {
            let mut keeper = keeper;
            let format = merging.format;
            let answer = merge_opened(
                alloc,
                format,
                baseline,
                &mut merger,
                &mut keeper,
                other,
                disk,
                out,
            );
            drop(keeper);
            answer
        }
        Err(AdoptRefusal::DiskFault) => Err(Failure::KeepFault),
        Err(AdoptRefusal::Refused(refusal)) => Err(Failure::BadKeep(refusal)),
        Err(AdoptRefusal::NoMemory) => Err(Failure::NoMemory),
    }
}

// Reads OTHER, and merges its board into the campaign file.
fn merge_jobs<T: Source, D: Disk, O: Sink>(
    alloc: Global,
    merging: &Merging,
    baseline: &Baseline<'_>,
    second: &mut T,
    disk: &mut D,
    out: &mut O,
) -> Answer
    ensures cause { IsMergeCause D.tells T.tells (content (D.past disk.old)) (T.left second.old) baseline.now.case (status_of result) }
    ensures output { OutputStory (D.tells × (T.tells × O.tells)) O.taken O.faults
        (MergeSays merging.now.format (content (D.past disk.old)) (T.left second.old) baseline.now.case) out.old out.new (status_of result) }
    ensures others { IsCaused (is_other_fault (status_of result)) (T.faults second.old) (T.faults second.new) }
    ensures keeps { IsCaused (is_keep_fault (status_of result)) (D.faults disk.old) (D.faults disk.new) }
    ensures story { D.tells → MergeStory T.tells merging.now.page (T.left second.old) baseline.now.case (D.past disk.old) (D.past disk.new) (status_of result) }
    ensures union { D.tells → T.tells → UnionAtEnd (T.left second.old) baseline.now.case (D.past disk.old) (D.past disk.new) (status_of result) }
{
    baseline.facts();
    let other = read_other(alloc, baseline, second)?;
    let answer = merge_board(alloc, merging, baseline, &other, disk, out);
    drop(other);
    answer
}

/// Runs a case without a fault, reads another campaign file of the case to its end, appends the rows of the jobs
/// that the campaign file lacks, and writes the counts of both together.
pub fn merge<T: Source, D: Disk, O: Sink>(
    alloc: Global,
    merging: &Merging,
    case: &Case,
    second: &mut T,
    disk: &mut D,
    out: &mut O,
) -> Answer
    ensures cause { IsMergeCause D.tells T.tells (content (D.past disk.old)) (T.left second.old) case.now (status_of result) }
    ensures output { OutputStory (D.tells × (T.tells × O.tells)) O.taken O.faults
        (MergeSays merging.now.format (content (D.past disk.old)) (T.left second.old) case.now) out.old out.new (status_of result) }
    ensures others { IsCaused (is_other_fault (status_of result)) (T.faults second.old) (T.faults second.new) }
    ensures keeps { IsCaused (is_keep_fault (status_of result)) (D.faults disk.old) (D.faults disk.new) }
    ensures story { D.tells → MergeStory T.tells merging.now.page (T.left second.old) case.now (D.past disk.old) (D.past disk.new) (status_of result) }
    ensures union { D.tells → T.tells → UnionAtEnd (T.left second.old) case.now (D.past disk.old) (D.past disk.new) (status_of result) }
{
    let baseline = Baseline::of(alloc, case)?;
    let answer = merge_jobs(alloc, merging, &baseline, second, disk, out);
    drop(baseline);
    answer
}
