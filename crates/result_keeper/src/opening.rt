//! Opening a campaign file: it is started, or accepted as it is.
ghost use Rattle.std.specs.Prelude.{◌≡◌, ◌+◌, ◌^◌, ◌<◌, ◌≤◌, ◌++◌, min, [], ◌∷◌, length, take, true, false, Ok, IfErr, IfOk, OnOk, MatchBool, MatchResult};
ghost use Rattle.fs_outside.specs.Faults.{HasCause, IsCaused};
ghost use Rattle.fs_outside.specs.Past.{content, IsImage, IsSynced, LeavesOnly};
ghost use Rattle.fs_model.specs.Card.{HasCard, card};
ghost use Rattle.fs_model.specs.Job.{jobs_in};
ghost use Rattle.result_keeper.specs.Acceptance.{accept, board_of};
ghost use Rattle.keep_format.specs.KeepFile.{head_bytes};
ghost use Rattle.result_keeper.specs.Accept.{HasCase, IsBegun, IsRefusedUnless, IsUntouched, is_fault};
ghost use Rattle.result_keeper.specs.Begin.{IsClosed, IsHeaded, IsOneOfThree, IsSameOrNone, NeedsClosing};
ghost use Rattle.result_keeper.specs.Keep.{IsSettled};
ghost use Rattle.result_keeper.specs.Reading.{IsFront, front_len, is_read_fault};

use crate::accepting::{Accepted, accept_disk, front_len};
use crate::appending::write_behind;
use crate::fronts::Front;
use crate::reading::{ReadRefusal, read_front};
use crate::refusals::AdoptRefusal;
use def_use::{Board, JobList};
use fs_model::Case;
use fs_outside::{Disk, Failed, write_synced};
use keep_format::{CARD_START, CLOSED, OPEN};
use std::alloc::Global;

fn needs_closing(front: &[u8]) -> bool
    ensures { MatchBool result (NeedsClosing front.now) (IsClosed front.now) }
{
    match front {
        [] => true,
        [first, ..] => *first == OPEN,
    }
}

// Closes the first gate of the file if it is open or missing.
fn close<D: Disk>(disk: &mut D, front: &[u8]) -> Result<(), Failed>
    requires synced { D.tells → IsSynced (D.past disk.old) }
    requires first { D.tells → take 1 front.now ≡ take 1 (content (D.past disk.old)) }

    ensures synced { D.tells → OnOk result (IsSynced (D.past disk.new)) }
    ensures closed { D.tells → OnOk result (IsClosed (content (D.past disk.new))) }
    ensures any_moment { D.tells → LeavesOnly (D.past disk.old) (D.past disk.new) (IsSameOrNone (content (D.past disk.old))) }
    ensures given { D.tells → D.given disk.new ≡ D.given disk.old }
    ensures cause { HasCause (D.faults disk.old) (D.faults disk.new) result }
{
    if needs_closing(front) {
        write_synced(disk, 0, &[CLOSED])?;
    }
    Ok(())
}

// Starts a file in three synced steps: a closed gate, the bytes after it, and opening the gate.
fn begin<D: Disk>(disk: &mut D, front: &[u8], case: &Case, head: &[u8]) -> Result<(), Failed>
    requires case { HasCard case.now }
    requires head { head.now ≡ head_bytes (card case.now) ++ 0 ∷ [] }
    requires synced { D.tells → IsSynced (D.past disk.old) }
    requires first { D.tells → take 1 front.now ≡ take 1 (content (D.past disk.old)) }

    ensures synced { D.tells → OnOk result (IsSynced (D.past disk.new)) }
    ensures begun { D.tells → OnOk result (IsHeaded (card case.now) (content (D.past disk.new))) }
    ensures any_moment { D.tells → LeavesOnly (D.past disk.old) (D.past disk.new) (IsOneOfThree (D.past disk.old) (card case.now)) }
    ensures given { D.tells → D.given disk.new ≡ D.given disk.old }
    ensures cause { HasCause (D.faults disk.old) (D.faults disk.new) result }
{
    close(disk, front)?;
    write_behind(disk, 0, &head[1..])?;
    Ok(())
}

// Syncs, and reads the first `most` bytes, or all if there are fewer.
fn settle<D: Disk>(alloc: Global, disk: &mut D, most: u64) -> Result<Front, ReadRefusal>
    ensures synced { D.tells → IfOk result (λ _. IsSynced (D.past disk.new)) }
    ensures enough { IfOk result (λ front. min most front.len ≤ length front.bytes.items) }
    ensures front { D.tells → IfOk result (λ front. IsFront most (content (D.past disk.new)) front.bytes.items front.len) }
    ensures same { D.tells → content (D.past disk.new) ≡ content (D.past disk.old) }
    ensures any_moment { D.tells → LeavesOnly (D.past disk.old) (D.past disk.new) (IsImage (D.past disk.old)) }
    ensures given { D.tells → MatchResult result
        (λ front. D.given disk.new ≤ D.given disk.old + length front.bytes.items)
        (λ _. D.given disk.new ≤ D.given disk.old + length (content (D.past disk.old))) }
    ensures few { D.tells → D.given disk.new ≤ D.given disk.old + most }
    ensures cause { IsCaused (is_read_fault result) (D.faults disk.old) (D.faults disk.new) }
{
    match disk.sync() {
        Ok(()) => {}
        Err(Failed) => return Err(ReadRefusal::DiskFault),
    }
    read_front(alloc, disk, most)
}

fn is_begun(front: &[u8], fresh: bool) -> bool
    ensures { MatchBool result (IsBegun fresh front.now) (IsBegun fresh front.now → ⊥) }
{
    fresh || front.is_empty()
}

// Starts a file whose front has been read, or accepts it, and returns its board and the offset of its closed
// gate.
fn begin_or_accept<D: Disk>(
    alloc: Global,
    disk: &mut D,
    front: Front,
    case: &Case,
    list: &JobList,
    head: &[u8],
    blank: Board,
    fresh: bool,
) -> Result<Accepted, AdoptRefusal>
    requires case { HasCard case.now }
    requires jobs { list.now.list ≡ jobs_in case.now }
    requires blank { blank ≡ board_of list.now.list [] }
    requires head { head.now ≡ head_bytes (card case.now) ++ 0 ∷ [] }
    requires synced { D.tells → IsSynced (D.past disk.old) }
    requires enough { min (front_len case.now) front.len ≤ length front.bytes.items }
    requires front { D.tells → IsFront (front_len case.now) (content (D.past disk.old)) front.bytes.items front.len }

    ensures small { IfOk result (λ opened. opened.gate < 2 ^ 63) }
    ensures settled { D.tells → IfOk result (λ opened. IsSettled case.now opened.board opened.gate (D.past disk.new)) }
    ensures gives { D.tells → IfOk result (λ opened. accept (content (D.past disk.new)) case.now ≡ Ok opened.board) }
    ensures opened { D.tells → fresh ≡ false → IfOk result (λ opened. accept (content (D.past disk.old)) case.now ≡ Ok opened.board) }
    ensures fresh { fresh ≡ true → IfOk result (λ opened. opened.board ≡ board_of list.now.list []) }
    ensures long { IfOk result (λ opened. length opened.board ≡ length list.now.list) }
    ensures begun { D.tells → IsBegun fresh (content (D.past disk.old)) → OnOk result (IsHeaded (card case.now) (content (D.past disk.new))) }
    ensures untouched { D.tells → (IsBegun fresh (content (D.past disk.old)) → ⊥) → D.past disk.new ≡ D.past disk.old }
    ensures refused { D.tells → IfErr result (IsRefusedUnless fresh (content (D.past disk.old)) case.now) }
    ensures err { D.tells → IfErr result (IsUntouched (content (D.past disk.old)) (content (D.past disk.new))) }
    ensures any_moment { D.tells → LeavesOnly (D.past disk.old) (D.past disk.new) (IsOneOfThree (D.past disk.old) (card case.now)) }
    ensures given { D.tells → D.given disk.new + length front.bytes.items ≤ D.given disk.old + length (content (D.past disk.old)) }
    ensures given_begun { D.tells → IsBegun fresh (content (D.past disk.old)) → D.given disk.new ≡ D.given disk.old }
    ensures given_other { D.tells → (HasCase (content (D.past disk.old)) case.now → ⊥) → D.given disk.new ≡ D.given disk.old }
    ensures cause { IsCaused (is_fault result) (D.faults disk.old) (D.faults disk.new) }
{
    if is_begun(&front.bytes, fresh) {
        return match begin(disk, &front.bytes, case, head) {
            Ok(()) => Ok(Accepted {
                board: blank,
                gate: CARD_START + case.card_len() as u64,
            }),
            Err(Failed) => Err(AdoptRefusal::DiskFault),
        };
    }
    accept_disk(alloc, disk, front, case, list, blank)
}

/// Syncs, and starts or accepts the file on the disk. The caller supplies the header and a blank board, so no
/// memory is needed after the first write.
pub(crate) fn open_file<D: Disk>(
    alloc: Global,
    disk: &mut D,
    case: &Case,
    list: &JobList,
    head: &[u8],
    blank: Board,
    fresh: bool,
) -> Result<Accepted, AdoptRefusal>
    requires case { HasCard case.now }
    requires jobs { list.now.list ≡ jobs_in case.now }
    requires blank { blank ≡ board_of list.now.list [] }
    requires head { head.now ≡ head_bytes (card case.now) ++ 0 ∷ [] }

    ensures small { IfOk result (λ opened. opened.gate < 2 ^ 63) }
    ensures settled { D.tells → IfOk result (λ opened. IsSettled case.now opened.board opened.gate (D.past disk.new)) }
    ensures gives { D.tells → IfOk result (λ opened. accept (content (D.past disk.new)) case.now ≡ Ok opened.board) }
    ensures opened { D.tells → fresh ≡ false → IfOk result (λ opened. accept (content (D.past disk.old)) case.now ≡ Ok opened.board) }
    ensures fresh { fresh ≡ true → IfOk result (λ opened. opened.board ≡ board_of list.now.list []) }
    ensures long { IfOk result (λ opened. length opened.board ≡ length list.now.list) }
    ensures begun { D.tells → IsBegun fresh (content (D.past disk.old)) → OnOk result (IsHeaded (card case.now) (content (D.past disk.new))) }
    ensures same { D.tells → (IsBegun fresh (content (D.past disk.old)) → ⊥) → content (D.past disk.new) ≡ content (D.past disk.old) }
    ensures refused { D.tells → IfErr result (IsRefusedUnless fresh (content (D.past disk.old)) case.now) }
    ensures err { D.tells → IfErr result (IsUntouched (content (D.past disk.old)) (content (D.past disk.new))) }
    ensures any_moment { D.tells → LeavesOnly (D.past disk.old) (D.past disk.new) (IsOneOfThree (D.past disk.old) (card case.now)) }
    ensures any_moment_kept { D.tells → (IsBegun fresh (content (D.past disk.old)) → ⊥)
        → LeavesOnly (D.past disk.old) (D.past disk.new) (IsImage (D.past disk.old)) }
    ensures given { D.tells → D.given disk.new ≤ D.given disk.old + length (content (D.past disk.old)) }
    ensures given_begun { D.tells → IsBegun fresh (content (D.past disk.old)) → D.given disk.new ≤ D.given disk.old + front_len case.now }
    ensures given_other { D.tells → (HasCase (content (D.past disk.old)) case.now → ⊥) → D.given disk.new ≤ D.given disk.old + front_len case.now }
    ensures cause { IsCaused (is_fault result) (D.faults disk.old) (D.faults disk.new) }
{
    let front = match settle(alloc, disk, front_len(case)) {
        Ok(front) => front,
        Err(ReadRefusal::DiskFault) => return Err(AdoptRefusal::DiskFault),
        Err(ReadRefusal::NoMemory) => return Err(AdoptRefusal::NoMemory),
    };
    begin_or_accept(alloc, disk, front, case, list, head, blank, fresh)
}
