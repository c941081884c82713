//! The board that the bytes of a campaign file give.
ghost use Rattle.std.specs.Prelude.{◌≡◌, length, Ok, IfErr, IfOk};
ghost use Rattle.fs_model.specs.Job.{jobs_in};
ghost use Rattle.result_keeper.specs.Acceptance.{accept};
ghost use Rattle.result_keeper.specs.BoardRefusals.{IsNoBoard};

use crate::accepting::{accept_behind, front_len, judge};
use crate::refusals::BoardRefusal;
use def_use::{Board, JobList};
use fs_model::Case;
use std::alloc::Global;

/// Returns the board that the bytes of a file give for a case with this list of jobs, as `look` would on a disk
/// with these bytes. For no bytes this is a blank board.
///
/// # Errors
///
/// `Refused` if the bytes are not a file of this case, and `NoMemory` if memory is refused.
pub fn board_of(
    alloc: Global,
    bytes: &[u8],
    case: &Case,
    list: &JobList,
) -> Result<Board, BoardRefusal>
    requires { list.now.list ≡ jobs_in case.now }
    ensures board { IfOk result (λ board. accept bytes.now case.now ≡ Ok board) }
    ensures long { IfOk result (λ board. length board ≡ length list.now.list) }
    ensures refused { IfErr result (IsNoBoard bytes.now case.now) }
{
    let Ok(blank) = Board::new(alloc, list.len()) else {
        return Err(BoardRefusal::NoMemory);
    };
    if bytes.is_empty() {
        return Ok(blank);
    }
    let end = bytes.len().min(front_len(case) as usize);
    let header = match judge(&bytes[..end], bytes.len() as u64, case) {
        Ok(header) => header,
        Err(refusal) => return Err(BoardRefusal::Refused(refusal)),
    };
    match accept_behind(alloc, bytes, header, case, list, blank) {
        Ok(accepted) => Ok(accepted.board),
        Err(refusal) => Err(refusal),
    }
}
