//! Output streams, as sinks.
ghost use Rattle.std.specs.Prelude.{[]};

use fs_outside::{Failed, Sink, rise};
use std::io::{self, ErrorKind, Write};

/// Writes to a stream in pieces.
#[derive(Drop)]
pub struct Output<W: Write + Drop> {
    stream: W,
    faults: u64,
}

impl<W: Write + Drop> Output<W> {
    pub fn new(stream: W) -> Output<W> {
        Output { stream, faults: 0 }
    }
}

// A write that a signal interrupts is repeated.
fn write_again<W: Write>(stream: &mut W, piece: &[u8]) -> io::Result<usize> {
    for _ in 0..u64::MAX {
        match stream.write(piece) {
            Err(error) if error.kind() == ErrorKind::Interrupted => {}
            answer => return answer,
        }
    }
    Err(io::Error::from(ErrorKind::Interrupted))
}

impl<W: Write + Drop> Sink for Output<W> {
    ghost tells = { ⊥ };

    ghost taken = { λ sink. [] };

    ghost faults = { λ sink. sink.faults };

    fn write(&mut self, piece: &[u8]) -> Result<usize, Failed> {
        match write_again(&mut self.stream, piece) {
            Ok(count) if 0 < count && count <= piece.len() => Ok(count),
            _ => {
                self.faults = rise(self.faults);
                Err(Failed)
            }
        }
    }
}
