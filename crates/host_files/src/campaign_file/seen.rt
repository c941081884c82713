//! A campaign file that is only read.
//!
//! If nobody adds rows to it, it is read in place under a shared lock, which is released after the last byte.
//! Next to a `run`, and without locks, it is copied up to its first closed gate. A gate opens only after its
//! whole batch is there, so everything that such a copy shows as kept was kept. The copy is then compared with
//! the file, which another command may have started again meanwhile.
use super::gates::{closed_gate, end_of};
use super::locks::{Lock, share_if_free, take};
use super::names::{is_there, open_to_read};
use super::{read_again, read_within};
use gate_search::ClosedGate;
use std::fs::File;
use std::io::{self, ErrorKind};

// The bytes that are copied at a time.
const PIECE: usize = 65536;

/// The bytes of a file, and their number.
#[derive(Drop)]
pub(crate) struct SeenFile {
    len: u64,
    bytes: Bytes,
}

#[derive(Drop)]
enum Bytes {
    /// There are no bytes, or all were returned.
    Given,
    InPlace(File),
    Copied(Vec<u8>),
}

impl SeenFile {
    /// Opens the file at a path for reading. A missing file is empty.
    pub(super) fn open(files: &HostRuntime, path: &str) -> io::Result<SeenFile> {
        if is_there(files, path)? {
            SeenFile::open_present(files, path, u64::MAX)
        } else {
            Ok(SeenFile {
                len: 0,
                bytes: Bytes::Given,
            })
        }
    }

    /// Opens the file at a path for reading. It must exist. If it has more than `most` bytes, the length is that
    /// of the whole file, and otherwise that up to its first closed gate.
    pub(crate) fn open_present(files: &HostRuntime, path: &str, most: u64) -> io::Result<SeenFile> {
        let file = open_to_read(files, path)?;
        let in_place = share_if_free(&file)?;
        if !in_place {
            take(files, &file, Lock::Shared)?;
        }
        let len = file.metadata()?.len();
        if len > most {
            return Ok(SeenFile {
                len,
                bytes: Bytes::InPlace(file),
            });
        }
        let gate = closed_gate(&file, len)?;
        if in_place {
            let len = gate.map_or(len, end_of);
            return Ok(SeenFile {
                len,
                bytes: Bytes::InPlace(file),
            });
        }
        let bytes = copy(files, &file, gate)?;
        Ok(SeenFile {
            len: bytes.len() as u64,
            bytes: Bytes::Copied(bytes),
        })
    }

    /// Returns the number of bytes.
    pub(super) fn len(&self) -> u64 {
        self.len
    }

    /// Reads the next bytes from an offset on. Releases the file after its last byte.
    pub(crate) fn read_at(&mut self, at: u64, buf: &mut [u8]) -> io::Result<usize> {
        let count = match &mut self.bytes {
            Bytes::Given => 0,
            Bytes::InPlace(file) => read_up_to(file, self.len, at, buf)?,
            Bytes::Copied(bytes) => give(bytes, at, buf),
        };
        if at.saturating_add(count as u64) >= self.len {
            self.bytes = Bytes::Given;
        }
        Ok(count)
    }
}

// Reads bytes of a file before the end that was returned.
fn read_up_to(file: &File, end: u64, at: u64, buf: &mut [u8]) -> io::Result<usize> {
    let room = end.saturating_sub(at).min(buf.len() as u64);
    read_within(file, end, at, &mut buf[..room as usize])
}

// Copies the bytes from an offset on, as many as there are and as fit.
fn give(bytes: &[u8], at: u64, buf: &mut [u8]) -> usize {
    let Ok(at) = usize::try_from(at) else {
        return 0;
    };
    let Some(rest) = bytes.get(at..) else {
        return 0;
    };
    let count = rest.len().min(buf.len());
    buf[..count].copy_from_slice(&rest[..count]);
    count
}

// Copies the bytes of a file up to a gate, or all if there is none.
fn copy(files: &HostRuntime, file: &File, gate: Option<ClosedGate>) -> io::Result<Vec<u8>> {
    let end = gate.map_or(u64::MAX, |gate| gate.place);
    let mut bytes = Vec::new(files.alloc());
    let mut piece = piece_of(files)?;
    for _ in 0..u64::MAX {
        let more = next_piece(file, bytes.len() as u64, end, &mut piece)?;
        if more.is_empty() {
            break;
        }
        if bytes.extend_from_slice(more).is_err() {
            return Err(io::Error::from(ErrorKind::OutOfMemory));
        }
    }
    if !is_still(file, &bytes, end, &mut piece)? {
        return Err(io::Error::from(ErrorKind::ResourceBusy));
    }
    if let Some(gate) = gate {
        if bytes.push(gate.byte).is_err() {
            return Err(io::Error::from(ErrorKind::OutOfMemory));
        }
    }
    Ok(bytes)
}

fn piece_of(files: &HostRuntime) -> io::Result<Vec<u8>> {
    match Vec::from_elem(files.alloc(), 0, PIECE) {
        Ok(piece) => Ok(piece),
        Err(_) => Err(io::Error::from(ErrorKind::OutOfMemory)),
    }
}

// Reads the next bytes of a file from an offset on; none from the end on.
fn next_piece<'p>(file: &File, at: u64, end: u64, piece: &'p mut [u8]) -> io::Result<&'p [u8]> {
    let count = read_again(file, at, piece)? as u64;
    let wanted = count.min(end.saturating_sub(at));
    match piece.get(..wanted as usize) {
        Some(bytes) => Ok(bytes),
        None => Err(io::Error::from(ErrorKind::InvalidData)),
    }
}

// Returns whether a file still has the bytes of a copy. If it was started again or truncated meanwhile, the copy
// may have bytes of two campaigns.
fn is_still(file: &File, copy: &[u8], end: u64, piece: &mut [u8]) -> io::Result<bool> {
    let mut rest = copy;
    let mut at = 0;
    for _ in 0..copy.len() {
        if rest.is_empty() {
            break;
        }
        let now = next_piece(file, at, end, piece)?;
        let count = now.len().min(rest.len());
        if count == 0 || rest[..count] != now[..count] {
            return Ok(false);
        }
        rest = &rest[count..];
        at = at.saturating_add(count as u64);
    }
    Ok(true)
}
