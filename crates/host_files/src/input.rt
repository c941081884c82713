//! Input streams, as sources.
ghost use Rattle.std.specs.Prelude.{[], ◌≡◌};

use fs_outside::{Failed, Source, rise};
use std::io::{self, ErrorKind, Read};

/// Reads from a stream: as many bytes as it has, and at least one.
#[derive(Drop)]
pub struct Input<R: Read + Drop> {
    stream: R,
    faults: u64,
}

impl<R: Read + Drop> Input<R> {
    pub fn new(stream: R) -> Input<R> {
        Input { stream, faults: 0 }
    }
}

// A read that a signal interrupts is repeated.
fn read_again<R: Read>(stream: &mut R, buf: &mut [u8]) -> io::Result<usize> {
    for _ in 0..u64::MAX {
        match stream.read(buf) {
            Err(error) if error.kind() == ErrorKind::Interrupted => {}
            answer => return answer,
        }
    }
    Err(io::Error::from(ErrorKind::Interrupted))
}

impl<R: Read + Drop> Source for Input<R> {
    ghost tells = { ⊥ };

    ghost left = { λ source. [] };

    ghost faults = { λ source. source.faults };

    fn read(&mut self, buf: &mut [u8]) -> Result<usize, Failed> {
        match read_again(&mut self.stream, buf) {
            Ok(count) if count <= buf.len() => Ok(count),
            _ => {
                self.faults = rise(self.faults);
                Err(Failed)
            }
        }
    }
}
