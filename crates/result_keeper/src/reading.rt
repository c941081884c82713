//! Reading a disk: its front first, and then the rest.
ghost use Rattle.std.specs.Prelude.{◌≡◌, ◌+◌, ◌++◌, ◌<◌, ◌≤◌, min, length, take, drop, IfOk, MatchResult};
ghost use Rattle.fs_outside.specs.Faults.{HasCause, IsCaused, and_more};
ghost use Rattle.fs_outside.specs.Past.{content};
ghost use Rattle.result_keeper.specs.Reading.{IsFront, is_read_fault};

use crate::fronts::Front;
use fs_outside::{Disk, Failed};
use std::alloc::Global;

/// Why a disk could not be read.
#[derive(Clone, Copy, Debug, PartialEq, Eq)]
pub(crate) enum ReadRefusal {
    DiskFault,
    NoMemory,
}

// Reads bytes of the disk to the same offsets of the buffer.
fn read_piece<D: Disk>(disk: &mut D, at: usize, bytes: &mut [u8]) -> Result<usize, Failed>
    requires { at < length bytes.old }
    ensures fits { IfOk result (λ n. at + n ≤ length bytes.old) }
    ensures front { D.tells → IfOk result (λ n. take (at + n) bytes.new ≡ take at bytes.old ++ take n (drop at (content (D.past disk.old)))) }
    ensures some { D.tells → IfOk result (λ n. at < length (content (D.past disk.old)) → (0 < n) × (at + n ≤ length (content (D.past disk.old)))) }
    ensures given { D.tells → MatchResult result (λ n. D.given disk.new ≡ and_more (D.given disk.old) n) (λ _. D.given disk.new ≡ D.given disk.old) }
    ensures same { D.tells → D.past disk.new ≡ D.past disk.old }
    ensures cause { HasCause (D.faults disk.old) (D.faults disk.new) result }
{
    let n = disk.read_at(at as u64, &mut bytes[at..])?;
    Ok(n)
}

// Reads the bytes of the disk from `from` on, until the buffer is full or the disk ends.
fn fill<D: Disk>(disk: &mut D, from: usize, bytes: &mut [u8]) -> Result<usize, Failed>
    requires within { from ≤ length bytes.old }
    requires front { D.tells → take from bytes.old ≡ take from (content (D.past disk.old)) }
    ensures fits { IfOk result (λ n. n ≤ length bytes.old) }
    ensures all { D.tells → length bytes.old ≤ length (content (D.past disk.old)) → IfOk result (λ n. n ≡ length bytes.old) }
    ensures these { D.tells → length bytes.old ≤ length (content (D.past disk.old))
        → IfOk result (λ n. take n bytes.new ≡ take n (content (D.past disk.old))) }
    ensures given { D.tells → D.given disk.new + from ≤ D.given disk.old + length bytes.old }
    ensures same { D.tells → D.past disk.new ≡ D.past disk.old }
    ensures cause { HasCause (D.faults disk.old) (D.faults disk.new) result }
{
    let mut at = from;
    'pieces: while at < bytes.len() {
        let n = read_piece(disk, at, bytes)?;
        if n == 0 {
            return Ok(at);
        }
        at += n;
    }
    Ok(at)
}

/// Reads the first bytes, at most the given number.
pub(crate) fn read_front<D: Disk>(
    alloc: Global,
    disk: &mut D,
    most: u64,
) -> Result<Front, ReadRefusal>
    ensures enough { IfOk result (λ front. min most front.len ≤ length front.bytes.items) }
    ensures front { D.tells → IfOk result (λ front. IsFront most (content (D.past disk.new)) front.bytes.items front.len) }
    ensures given { D.tells → MatchResult result
        (λ front. D.given disk.new ≤ D.given disk.old + length front.bytes.items)
        (λ _. D.given disk.new ≤ D.given disk.old + length (content (D.past disk.old))) }
    ensures few { D.tells → D.given disk.new ≤ D.given disk.old + most }
    ensures same { D.tells → D.past disk.new ≡ D.past disk.old }
    ensures cause { IsCaused (is_read_fault result) (D.faults disk.old) (D.faults disk.new) }
{
    let len = match disk.len() {
        Ok(len) => len,
        Err(Failed) => return Err(ReadRefusal::DiskFault),
    };
    let wanted = most.min(len) as usize;
    let mut bytes = match Vec::from_elem(alloc, 0, wanted) {
        Ok(bytes) => bytes,
        Err(_) => return Err(ReadRefusal::NoMemory),
    };
    let n = match fill(disk, 0, &mut bytes) {
        Ok(n) => n,
        Err(Failed) => return Err(ReadRefusal::DiskFault),
    };
    bytes.truncate(n);
    // The disk ends before the length that it returned.
    if n < wanted {
        let len = n as u64;
        return Ok(Front { bytes, len });
    }
    Ok(Front { bytes, len })
}

/// Reads the rest of a disk whose front has been read, and returns all bytes.
pub(crate) fn read_rest<D: Disk>(disk: &mut D, front: Front) -> Result<Vec<u8>, ReadRefusal>
    requires len { D.tells → front.len ≡ length (content (D.past disk.old)) }
    requires front { D.tells → front.bytes.items ≡ take (length front.bytes.items) (content (D.past disk.old)) }
    ensures bytes { D.tells → IfOk result (λ bytes. bytes.items ≡ content (D.past disk.old)) }
    ensures given { D.tells → D.given disk.new + length front.bytes.items ≤ D.given disk.old + length (content (D.past disk.old)) }
    ensures same { D.tells → D.past disk.new ≡ D.past disk.old }
    ensures cause { IsCaused (is_read_fault result) (D.faults disk.old) (D.faults disk.new) }
{
    let Front { mut bytes, len } = front;
    let from = bytes.len();
    if bytes.resize(len as usize, 0).is_err() {
        return Err(ReadRefusal::NoMemory);
    }
    match fill(disk, from, &mut bytes) {
        Ok(n) => {
            bytes.truncate(n);
            Ok(bytes)
        }
        Err(Failed) => Err(ReadRefusal::DiskFault),
    }
}
