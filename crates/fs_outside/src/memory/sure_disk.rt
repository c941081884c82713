//! A disk in memory that fails only for lack of memory.
ghost use Rattle.std.specs.Prelude.{◌≡◌, [], ℕ};
ghost use Rattle.fs_outside.specs.Past.{Made, content};
ghost use Rattle.fs_outside.specs.Memory.{tape_past, tape_reads};

use crate::faults::{rise, rise_by};
use crate::memory::copying::read_at;
use crate::memory::tape::Tape;
use crate::{Disk, Failed};
use std::alloc::Global;

/// A disk in memory with a record of its calls.
#[derive(Drop)]
pub struct SureDisk {
    tape: Tape,
    given: u64,
    short: u64,
}

impl SureDisk {
    ghost use Rattle.fs_outside.specs.Disks.{sure_past, sure_disk_short};

    /// Returns an empty disk.
    pub fn new(alloc: Global) -> SureDisk
        ensures past { sure_past result ≡ Made [] }
        ensures short { sure_disk_short result ≡ 0 }
    {
        SureDisk {
            tape: Tape::empty(alloc),
            given: 0,
            short: 0,
        }
    }

    /// Returns the bytes that a read finds.
    pub fn bytes(&self) -> &[u8]
        ensures { result.now ≡ content (sure_past self.now) }
    {
        self.tape.bytes()
    }

    /// Returns the number of failures by a list, which is 0: it has no list.
    pub fn listed(&self) -> u64
        ensures { result ≡ 0 }
    {
        0
    }

    /// Returns the number of failures for lack of memory.
    pub fn short(&self) -> u64
        ensures { result ≡ sure_disk_short self.now }
    {
        self.short
    }
}

impl Disk for SureDisk {
    ghost tells = { Unit {0} };

    ghost past = { λ disk. tape_past disk.tape };

    ghost given = { λ disk. disk.given };

    ghost faults = { λ disk. disk.short };

    ghost reads_image = { λ disk told. tape_reads disk.tape };

    fn len(&mut self) -> Result<u64, Failed> {
        Ok(self.tape.bytes().len() as u64)
    }

    fn read_at(&mut self, at: u64, buf: &mut [u8]) -> Result<usize, Failed> {
        let n = read_at(self.tape.bytes(), at, buf);
        self.given = rise_by(self.given, n as u64);
        Ok(n)
    }

    fn write_at(&mut self, at: u64, bytes: &[u8]) -> Result<(), Failed> {
        match self.tape.write(at, bytes.len(), bytes) {
            Ok(()) => Ok(()),
            Err(_) => {
                self.short = rise(self.short);
                Err(Failed)
            }
        }
    }

    fn sync(&mut self) -> Result<(), Failed> {
        match self.tape.sync() {
            Ok(()) => Ok(()),
            Err(_) => {
                self.short = rise(self.short);
                Err(Failed)
            }
        }
    }
}
