//! Reading the rest of a source.
ghost use Rattle.std.specs.Prelude.{◌≡◌, ◌+◌, ◌<◌, ◌≤◌, [], length, IfOk};
ghost use Rattle.std.specs.Result.{IsErrOf};
ghost use Rattle.fs_outside.specs.Faults.{IsCaused};
ghost use Rattle.fs_outside.specs.Reading.{is_read_fault, TakesUpTo};

use crate::{Failed, Source};
use std::alloc::Global;

/// Why a source could not be read to its end.
#[derive(Clone, Copy, Debug, PartialEq, Eq)]
pub enum ReadRefusal {
    /// The source failed.
    ReadFault,
    /// The source has more bytes than the caller permits.
    TooLong,
    /// Memory for the bytes was refused.
    NoMemory,
}

// The most bytes that one call asks of a source.
const PIECE: usize = 8192;

/// Reads all bytes that the source has left, if they are at most `most`. It asks for one byte more, to notice
/// that there are too many.
///
/// For a source that tells nothing, the contract only says how many bytes it may return, and when the call
/// fails.
///
/// # Errors
///
/// `ReadFault` if the source failed, `TooLong` if it has more bytes, and `NoMemory` if memory for them is
/// refused.
pub fn read_all<S: Source>(
    alloc: Global,
    source: &mut S,
    most: usize,
) -> Result<Vec<u8>, ReadRefusal>
    ensures whole { S.tells
        → IfOk result (λ bytes. (bytes.items ≡ S.left source.old) × (S.left source.new ≡ [])) }
    ensures most { IfOk result (λ bytes. length bytes.items ≤ most) }
    ensures long { S.tells → IsErrOf result ReadRefusal.TooLong → most < length (S.left source.old) }
    ensures taken { S.tells → TakesUpTo (most + 1) (S.left source.old) (S.left source.new) }
    ensures cause { IsCaused (is_read_fault result) (S.faults source.old) (S.faults source.new) }
{
    let Ok(mut piece) = vec![in alloc; 0; PIECE] else {
        return Err(ReadRefusal::NoMemory);
    };
    read_by_pieces(alloc, source, most, &mut piece)
}

// Does the same with a given buffer for each piece.
fn read_by_pieces<S: Source>(
    alloc: Global,
    source: &mut S,
    most: usize,
    piece: &mut [u8],
) -> Result<Vec<u8>, ReadRefusal>
    requires { 0 < length piece.old }
    ensures whole { S.tells
        → IfOk result (λ bytes. (bytes.items ≡ S.left source.old) × (S.left source.new ≡ [])) }
    ensures most { IfOk result (λ bytes. length bytes.items ≤ most) }
    ensures long { S.tells → IsErrOf result ReadRefusal.TooLong → most < length (S.left source.old) }
    ensures taken { S.tells → TakesUpTo (most + 1) (S.left source.old) (S.left source.new) }
    ensures cause { IsCaused (is_read_fault result) (S.faults source.old) (S.faults source.new) }
{
    let mut bytes = Vec::new(alloc);
    'pieces: loop {
        let spare = most - bytes.len();
        let room = spare.saturating_add(1).min(piece.len());
        let n = match source.read(&mut piece[..room]) {
            Ok(n) => n,
            Err(Failed) => return Err(ReadRefusal::ReadFault),
        };
        if n == 0 {
            return Ok(bytes);
        }
        if n > spare {
            return Err(ReadRefusal::TooLong);
        }
        if bytes.extend_from_slice(&piece[..n]).is_err() {
            return Err(ReadRefusal::NoMemory);
        }
    }
}
