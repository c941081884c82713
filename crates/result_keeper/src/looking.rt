//! Reading a campaign file without changing it.
ghost use Rattle.std.specs.Prelude.{◌≡◌, ◌+◌, ◌≤◌, min, [], length, Ok, IfErr, IfOk};
ghost use Rattle.fs_outside.specs.Faults.{IsCaused};
ghost use Rattle.fs_outside.specs.Past.{content};
ghost use Rattle.fs_model.specs.Job.{jobs_in};
ghost use Rattle.result_keeper.specs.Acceptance.{accept, board_of};
ghost use Rattle.result_keeper.specs.Accept.{HasCase, IsRefused, is_fault};
ghost use Rattle.result_keeper.specs.Reading.{IsFront, front_len};

use crate::accepting::{accept_disk, front_len};
use crate::fronts::Front;
use crate::reading::{ReadRefusal, read_front};
use crate::refusals::AdoptRefusal;
use def_use::{Board, JobList};
use fs_model::Case;
use fs_outside::Disk;
use std::alloc::Global;

// Returns the board that a disk gives, whose front has been read.
fn board_on<D: Disk>(
    alloc: Global,
    disk: &mut D,
    front: Front,
    case: &Case,
    list: &JobList,
    blank: Board,
) -> Result<Board, AdoptRefusal>
    requires enough { min (front_len case.now) front.len ≤ length front.bytes.items }
    requires jobs { list.now.list ≡ jobs_in case.now }
    requires blank { blank ≡ board_of list.now.list [] }
    requires front { D.tells → IsFront (front_len case.now) (content (D.past disk.old)) front.bytes.items front.len }
    ensures board { D.tells → IfOk result (λ board. accept (content (D.past disk.old)) case.now ≡ Ok board) }
    ensures long { IfOk result (λ board. length board ≡ length list.now.list) }
    ensures refused { D.tells → IfErr result (IsRefused (content (D.past disk.old)) case.now) }
    ensures given { D.tells → D.given disk.new + length front.bytes.items ≤ D.given disk.old + length (content (D.past disk.old)) }
    ensures given_other { D.tells → (HasCase (content (D.past disk.old)) case.now → ⊥) → D.given disk.new ≡ D.given disk.old }
    ensures same { D.tells → D.past disk.new ≡ D.past disk.old }
    ensures cause { IsCaused (is_fault result) (D.faults disk.old) (D.faults disk.new) }
{
    if front.bytes.is_empty() {
        return Ok(blank);
    }
    match accept_disk(alloc, disk, front, case, list, blank) {
        Ok(accepted) => Ok(accepted.board),
        Err(refusal) => Err(refusal),
    }
}

/// Returns the board that a file gives for a case with this list of jobs. Only reads. For an empty file this is
/// a blank board.
///
/// # Errors
///
/// `DiskFault` if the disk failed, `Refused` if the file does not belong to this case, and `NoMemory` if memory
/// is refused.
pub fn look<D: Disk>(
    alloc: Global,
    disk: &mut D,
    case: &Case,
    list: &JobList,
) -> Result<Board, AdoptRefusal>
    requires { list.now.list ≡ jobs_in case.now }
    ensures board { D.tells → IfOk result (λ board. accept (content (D.past disk.old)) case.now ≡ Ok board) }
    ensures long { IfOk result (λ board. length board ≡ length list.now.list) }
    ensures refused { D.tells → IfErr result (IsRefused (content (D.past disk.old)) case.now) }
    ensures same { D.tells → D.past disk.new ≡ D.past disk.old }
    // Whatever the result, it reads no more bytes than the length of the file, and no more than the front of a
    // file with another card.
    ensures given { D.tells → D.given disk.new ≤ D.given disk.old + length (content (D.past disk.old)) }
    ensures given_other { D.tells → (HasCase (content (D.past disk.old)) case.now → ⊥) → D.given disk.new ≤ D.given disk.old + front_len case.now }
    ensures cause { IsCaused (is_fault result) (D.faults disk.old) (D.faults disk.new) }
{
    let Ok(blank) = Board::new(alloc, list.len()) else {
        return Err(AdoptRefusal::NoMemory);
    };
    let front = match read_front(alloc, disk, front_len(case)) {
        Ok(front) => front,
        Err(ReadRefusal::DiskFault) => return Err(AdoptRefusal::DiskFault),
        Err(ReadRefusal::NoMemory) => return Err(AdoptRefusal::NoMemory),
    };
    board_on(alloc, disk, front, case, list, blank)
}
