//! Reading the outcomes that a file gives for a case. The front of the file decides about its header and card,
//! before the rest is read.
ghost use Rattle.std.specs.Prelude.{◌≡◌, ◌+◌, ◌^◌, ◌<◌, ◌≤◌, min, List, ℕ, [], length, Err, IfErr, IfOk};
ghost use Rattle.fs_outside.specs.Faults.{IsCaused};
ghost use Rattle.fs_outside.specs.Past.{content};
ghost use Rattle.fs_model.specs.Card.{card};
ghost use Rattle.fs_model.specs.Job.{jobs_in};
ghost use Rattle.result_keeper.specs.Acceptance.{accept, board_of};
ghost use Rattle.result_keeper.specs.Accept.{HasCase, IsAccepted, IsOfCase, IsRefused, is_fault};
ghost use Rattle.result_keeper.specs.BoardRefusals.{IsNoBoard};
ghost use Rattle.result_keeper.specs.Reading.{IsFront, front_len};

use crate::boards::file_kept;
use crate::cards::find_difference;
use crate::fronts::Front;
use crate::reading::{ReadRefusal, read_rest};
use crate::refusals::{AdoptRefusal, BoardRefusal, KeepRefusal};
use def_use::{Board, JobList};
use fs_model::Case;
use fs_outside::Disk;
use keep_format::{CARD_START, FormatFault, FormatRefusal, Header, header_by_front, kept_rows};
use std::alloc::Global;

/// The board that a file gives, and the offset of its closed gate.
#[derive(Drop)]
pub(crate) struct Accepted {
    pub(crate) board: Board,
    pub(crate) gate: u64,
}

/// Returns the number of bytes that decide whether a file belongs to this case: a header, a card of the same
/// length, and the first gate.
pub(crate) fn front_len(case: &Case) -> u64
    ensures { result ≡ front_len case.now }
{
    CARD_START + case.card_len() as u64 + 1
}

fn refused(fault: FormatFault) -> BoardRefusal
    ensures { result ≡ BoardRefusal.Refused (KeepRefusal.Format fault) }
{
    BoardRefusal::Refused(KeepRefusal::Format(fault))
}

/// Checks the front of a campaign file, given also the length of the file. Returns the header if the file belongs
/// to this case, and otherwise the first reason to refuse the file.
pub(crate) fn judge(front: &[u8], len: u64, case: &Case) -> Result<Header, KeepRefusal>
    requires enough { min (front_len case.now) len ≤ length front.now }
    requires within { length front.now ≤ len }
    ensures known { (file : List ℕ) → IsFront (front_len case.now) file front.now len → IfOk result (IsOfCase file case.now) }
    ensures refused { (file : List ℕ) → IsFront (front_len case.now) file front.now len → 0 < length file
        → IfErr result (λ refusal. accept file case.now ≡ Err refusal) }
{
    let header = match header_by_front(front, len) {
        Ok(header) => header,
        Err(fault) => return Err(KeepRefusal::Format(fault)),
    };
    let end = front.len().min(header.gate as usize);
    match find_difference(&front[CARD_START as usize..end], case) {
        Some(at) => Err(KeepRefusal::OtherCase { at }),
        None => Ok(header),
    }
}

/// Returns the board that a file of this case gives, or the first reason after its card to refuse it. The rows
/// are put on a blank board.
pub(crate) fn accept_behind(
    alloc: Global,
    file: &[u8],
    header: Header,
    case: &Case,
    list: &JobList,
    blank: Board,
) -> Result<Accepted, BoardRefusal>
    requires jobs { list.now.list ≡ jobs_in case.now }
    requires blank { blank ≡ board_of list.now.list [] }

    ensures accepted { IsOfCase file.now case.now header
        → IfOk result (λ accepted. IsAccepted file.now case.now accepted.board accepted.gate) }
    ensures long { IfOk result (λ accepted. length accepted.board ≡ length list.now.list) }
    ensures within { IfOk result (λ accepted. accepted.gate < length file.now) }
    ensures refused { IsOfCase file.now case.now header → IfErr result (IsNoBoard file.now case.now) }
{
    let kept = match kept_rows(alloc, file, header.gate) {
        Ok(kept) => kept,
        Err(FormatRefusal::Fault(fault)) => return Err(refused(fault)),
        Err(FormatRefusal::NoMemory) => return Err(BoardRefusal::NoMemory),
    };
    let gate = kept.gate();
    let mut board = blank;
    match file_kept(&mut board, list, kept.iter()) {
        Some(at) => Err(refused(FormatFault::BadRow { at })),
        None => Ok(Accepted { board, gate }),
    }
}

/// Returns the board that a disk that is not empty gives for a case, or the first reason to refuse it. The front
/// has been read; the rest is read only if the front is accepted.
pub(crate) fn accept_disk<D: Disk>(
    alloc: Global,
    disk: &mut D,
    front: Front,
    case: &Case,
    list: &JobList,
    blank: Board,
) -> Result<Accepted, AdoptRefusal>
    requires some { 0 < length front.bytes.items }
    requires enough { min (front_len case.now) front.len ≤ length front.bytes.items }
    requires jobs { list.now.list ≡ jobs_in case.now }
    requires blank { blank ≡ board_of list.now.list [] }
    requires front { D.tells → IsFront (front_len case.now) (content (D.past disk.old)) front.bytes.items front.len }

    ensures small { IfOk result (λ accepted. accepted.gate < 2 ^ 63) }
    ensures accepted { D.tells → IfOk result (λ accepted. IsAccepted (content (D.past disk.old)) case.now accepted.board accepted.gate) }
    ensures long { IfOk result (λ accepted. length accepted.board ≡ length list.now.list) }
    ensures refused { D.tells → IfErr result (IsRefused (content (D.past disk.old)) case.now) }
    ensures given { D.tells → D.given disk.new + length front.bytes.items ≤ D.given disk.old + length (content (D.past disk.old)) }
    ensures given_other { D.tells → (HasCase (content (D.past disk.old)) case.now → ⊥) → D.given disk.new ≡ D.given disk.old }
    ensures same { D.tells → D.past disk.new ≡ D.past disk.old }
    ensures cause { IsCaused (is_fault result) (D.faults disk.old) (D.faults disk.new) }
{
    let header = match judge(&front.bytes, front.len, case) {
        Ok(header) => header,
        Err(refusal) => return Err(AdoptRefusal::Refused(refusal)),
    };
    let file = match read_rest(disk, front) {
        Ok(file) => file,
        Err(ReadRefusal::DiskFault) => return Err(AdoptRefusal::DiskFault),
        Err(ReadRefusal::NoMemory) => return Err(AdoptRefusal::NoMemory),
    };
    match accept_behind(alloc, &file, header, case, list, blank) {
        Ok(accepted) => Ok(accepted),
        Err(BoardRefusal::Refused(refusal)) => Err(AdoptRefusal::Refused(refusal)),
        Err(BoardRefusal::NoMemory) => Err(AdoptRefusal::NoMemory),
    }
}
