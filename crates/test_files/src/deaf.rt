//! Devices that do not tell their bytes, as adapters over real files: no clause relates their answers to bytes.
ghost use Rattle.std.specs.Prelude.{[]};
ghost use Rattle.fs_outside.specs.Past.{Made};

use fs_outside::{Disk, Failed, Sink, Source, rise};

/// Gives a buffer of zeros, then half a buffer, and then fails.
#[derive(Drop)]
pub struct DeafSource {
    pub calls: u64,
    pub faults: u64,
}

impl Source for DeafSource {
    ghost tells = { ⊥ };

    ghost left = { λ source. [] };

    ghost faults = { λ source. source.faults };

    fn read(&mut self, buf: &mut [u8]) -> Result<usize, Failed> {
        self.calls = rise(self.calls);
        match self.calls {
            1 => Ok(buf.len()),
            2 => Ok(buf.len() / 2),
            _ => {
                self.faults = rise(self.faults);
                Err(Failed)
            }
        }
    }
}

/// Takes one byte in each call, and forgets it.
#[derive(Drop)]
pub struct DeafSink {
    pub calls: u64,
}

impl Sink for DeafSink {
    ghost tells = { ⊥ };

    ghost taken = { λ sink. [] };

    ghost faults = { λ sink. 0 };

    fn write(&mut self, piece: &[u8]) -> Result<usize, Failed> {
        self.calls = rise(self.calls);
        Ok(piece.len().min(1))
    }
}

/// Reads arbitrary bytes, fails to read at one offset, and forgets what is written.
#[derive(Drop)]
pub struct DeafDisk {
    pub faults: u64,
}

impl Disk for DeafDisk {
    ghost tells = { ⊥ };

    ghost past = { λ disk. Made [] };

    ghost given = { λ disk. 0 };

    ghost faults = { λ disk. disk.faults };

    ghost reads_image = { λ disk told. absurd told };

    fn len(&mut self) -> Result<u64, Failed> {
        Ok(7)
    }

    fn read_at(&mut self, at: u64, buf: &mut [u8]) -> Result<usize, Failed> {
        if at == 3 {
            self.faults = rise(self.faults);
            return Err(Failed);
        }
        Ok(buf.len())
    }

    fn write_at(&mut self, _at: u64, _bytes: &[u8]) -> Result<(), Failed> {
        Ok(())
    }

    fn sync(&mut self) -> Result<(), Failed> {
        Ok(())
    }
}
