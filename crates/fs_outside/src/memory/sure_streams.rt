//! A source in memory that never fails, and a sink in memory that fails only for lack of memory.
ghost use Rattle.std.specs.Prelude.{◌≡◌, [], ◌≤◌, length, drop};

use crate::faults::rise;
use crate::memory::copying::read_front;
use crate::{Failed, Sink, Source};
use std::alloc::Global;

/// Bytes in memory that are read once.
#[derive(Drop)]
pub struct SureSource {
    bytes: Vec<u8>,
    at: usize,
    ghost within: { at ≤ length bytes.items },
}

impl SureSource {
    ghost use Rattle.fs_outside.specs.SureStreams.{sure_left};

    /// Returns a source of these bytes.
    pub fn new(bytes: Vec<u8>) -> SureSource
        ensures { sure_left result ≡ bytes.items }
    {
        SureSource { bytes, at: 0 }
    }

    /// Returns the bytes that are left.
    pub fn bytes(&self) -> &[u8]
        ensures { result.now ≡ sure_left self.now }
    {
        &self.bytes[self.at..]
    }

    /// Returns the number of failures by a list, which is 0: it has no list.
    pub fn listed(&self) -> u64
        ensures { result ≡ 0 }
    {
        0
    }

    /// Returns the number of failures for lack of memory, which is 0: a source takes none.
    pub fn short(&self) -> u64
        ensures { result ≡ 0 }
    {
        0
    }
}

impl Source for SureSource {
    ghost tells = { Unit {0} };

    ghost left = { λ source. drop source.at source.bytes.items };

    ghost faults = { λ source. 0 };

    fn read(&mut self, buf: &mut [u8]) -> Result<usize, Failed> {
        Ok(read_front(&self.bytes, &mut self.at, buf))
    }
}

/// A sink that keeps in memory what it takes.
#[derive(Drop)]
pub struct SureSink {
    bytes: Vec<u8>,
    short: u64,
}

impl SureSink {
    ghost use Rattle.fs_outside.specs.SureStreams.{sure_taken, sure_sink_short};

    /// Returns an empty sink.
    pub fn new(alloc: Global) -> SureSink
        ensures taken { sure_taken result ≡ [] }
        ensures short { sure_sink_short result ≡ 0 }
    {
        SureSink {
            bytes: Vec::new(alloc),
            short: 0,
        }
    }

    /// Returns the bytes that it took.
    pub fn bytes(&self) -> &[u8]
        ensures { result.now ≡ sure_taken self.now }
    {
        &self.bytes
    }

    /// Returns the number of failures by a list, which is 0: it has no list.
    pub fn listed(&self) -> u64
        ensures { result ≡ 0 }
    {
        0
    }

    /// Returns the number of failures for lack of memory.
    pub fn short(&self) -> u64
        ensures { result ≡ sure_sink_short self.now }
    {
        self.short
    }
}

impl Sink for SureSink {
    ghost tells = { Unit {0} };

    ghost taken = { λ sink. sink.bytes.items };

    ghost faults = { λ sink. sink.short };

    fn write(&mut self, piece: &[u8]) -> Result<usize, Failed> {
        match self.bytes.extend_from_slice(piece) {
            Ok(()) => Ok(piece.len()),
            Err(_) => {
                self.short = rise(self.short);
                Err(Failed)
            }
        }
    }
}
