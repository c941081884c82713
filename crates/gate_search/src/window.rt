//! Some bytes of a disk, read by one call.
ghost use Rattle.std.specs.Prelude.{◌≡◌, [], IfOk, slice_get};
ghost use Rattle.fs_outside.specs.Faults.{HasCause};
ghost use Rattle.fs_outside.specs.Past.{content};
ghost use Rattle.gate_search.specs.Windows.{IsOf, byte_seen};

use fs_outside::{Disk, Failed};
use std::marker::Model;

// The most bytes that one call asks for.
const ROOM: usize = 4096;

/// The first `count` of `bytes` are those of the disk from `start` on.
#[derive(Drop)]
pub(crate) struct Window {
    start: u64,
    count: usize,
    bytes: [u8; ROOM],
}

impl Model for Window {
    ghost use Rattle.std.specs.Prelude.{◌≤◌, take};
    ghost use Rattle.gate_search.specs.Windows.{WindowData};

    ghost Value = { WindowData };

    ghost view = { λ w. record { start = w.start; bytes = take w.count w.bytes } };

    ghost invariant = { λ w. w.count ≤ 4096 };
}

impl Window {
    /// Returns a window without bytes.
    pub(crate) fn new() -> Window
        ensures { result.bytes ≡ [] }
    {
        Window {
            start: 0,
            count: 0,
            bytes: [0; ROOM],
        }
    }

    // Returns the byte of the disk at a place, if the window has it.
    fn at(&self, place: u64) -> Option<u8>
        ensures { result ≡ byte_seen self.now place }
    {
        if place < self.start {
            return None;
        }
        self.bytes[..self.count]
            .get((place - self.start) as usize)
            .copied()
    }

    // Reads the bytes of the disk from a place on.
    fn read<D: Disk>(&mut self, disk: &mut D, place: u64) -> Result<(), Failed>
        ensures window { D.tells → IsOf (content (D.past disk.old)) self.new }
        ensures byte { D.tells → IfOk result (λ _. byte_seen self.new place ≡ slice_get (content (D.past disk.old)) place) }
        ensures same { D.tells → D.past disk.new ≡ D.past disk.old }
        ensures cause { HasCause (D.faults disk.old) (D.faults disk.new) result }
    {
        self.count = 0;
        self.start = place;
        let count = disk.read_at(place, &mut self.bytes)?;
        self.count = count;
        Ok(())
    }

    /// Returns the byte of the disk at a place, if there is one.
    pub(crate) fn byte<D: Disk>(&mut self, disk: &mut D, place: u64) -> Result<Option<u8>, Failed>
        requires { D.tells → IsOf (content (D.past disk.old)) self.old }
        ensures window { D.tells → IsOf (content (D.past disk.old)) self.new }
        ensures byte { D.tells → IfOk result (λ byte. byte ≡ slice_get (content (D.past disk.old)) place) }
        ensures same { D.tells → D.past disk.new ≡ D.past disk.old }
        ensures cause { HasCause (D.faults disk.old) (D.faults disk.new) result }
    {
        if let Some(byte) = self.at(place) {
            return Ok(Some(byte));
        }
        self.read(disk, place)?;
        Ok(self.at(place))
    }
}
