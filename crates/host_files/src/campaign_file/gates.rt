//! The end of the rows in a campaign file, its first closed gate. What follows that gate is never read.
ghost use Rattle.std.specs.Prelude.{[]};
ghost use Rattle.fs_outside.specs.Faults.{Rises};
ghost use Rattle.fs_outside.specs.Past.{Made};

use super::read_again;
use fs_outside::{Disk, Failed, rise};
use gate_search::ClosedGate;
use keep_format::{CARD_START, header_by_front};
use std::fs::File;
use std::io::{self, ErrorKind};

/// Returns the length of a file that ends with this gate.
pub(super) fn end_of(gate: ClosedGate) -> u64 {
    gate.place.saturating_add(1)
}

/// Returns the first closed gate of a file of `len` bytes, or `None` if the header or a batch is cut short or is
/// not that of a campaign.
pub(super) fn closed_gate(file: &File, len: u64) -> io::Result<Option<ClosedGate>> {
    let mut front = [0; CARD_START as usize];
    let count = read_again(file, 0, &mut front)?;
    if count < front.len() {
        return Ok(None);
    }
    let Ok(header) = header_by_front(&front, len) else {
        return Ok(None);
    };
    let mut disk = ReadFile { file, faults: 0 };
    match gate_search::closed_gate(&mut disk, header.gate) {
        Ok(gate) => Ok(gate),
        Err(Failed) => Err(io::Error::from(ErrorKind::Other)),
    }
}

// An open file, as a disk that is only read.
#[derive(Drop)]
struct ReadFile<'f> {
    file: &'f File,
    faults: u64,
}

impl ReadFile<'_> {
    // Counts a call that failed.
    fn fail(&mut self) -> Failed
        ensures risen { Rises self.old.faults self.new.faults }
    {
        self.faults = rise(self.faults);
        Failed
    }
}

impl Disk for ReadFile<'_> {
    ghost tells = { ⊥ };

    ghost past = { λ disk. Made [] };

    ghost given = { λ disk. 0 };

    ghost faults = { λ disk. disk.faults };

    ghost reads_image = { λ disk told. absurd told };

    fn len(&mut self) -> Result<u64, Failed> {
        match self.file.metadata() {
            Ok(found) => Ok(found.len()),
            Err(_) => Err(self.fail()),
        }
    }

    fn read_at(&mut self, at: u64, buf: &mut [u8]) -> Result<usize, Failed> {
        match read_again(self.file, at, buf) {
            Ok(count) if count <= buf.len() => Ok(count),
            _ => Err(self.fail()),
        }
    }

    fn write_at(&mut self, _at: u64, _bytes: &[u8]) -> Result<(), Failed> {
        Err(self.fail())
    }

    fn sync(&mut self) -> Result<(), Failed> {
        Err(self.fail())
    }
}
