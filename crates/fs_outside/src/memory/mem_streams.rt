//! A source and a sink in memory with calls that are to fail.
ghost use Rattle.std.specs.Prelude.{◌≤◌, length, drop};

use crate::faults::rise;
use crate::memory::call_list::CallList;
use crate::memory::copying::read_front;
use crate::{Failed, Sink, Source};
use std::alloc::Global;

/// Bytes in memory that are read once. The calls that its list names fail.
#[derive(Drop)]
pub struct MemSource {
    bytes: Vec<u8>,
    at: usize,
    list: CallList,
    ghost within: { at ≤ length bytes.items },
}

impl MemSource {
    ghost use Rattle.std.specs.Prelude.{◌≡◌};
    ghost use Rattle.fs_outside.specs.CallLists.{fresh_list};
    ghost use Rattle.fs_outside.specs.MemStreams.{mem_left, source_list};

    /// Returns a source of these bytes. The calls in the list, counted from 1, fail.
    pub fn new(bytes: Vec<u8>, fails: Vec<u64>) -> MemSource
        ensures left { mem_left result ≡ bytes.items }
        ensures list { source_list result ≡ fresh_list fails }
    {
        MemSource {
            bytes,
            at: 0,
            list: CallList::new(fails),
        }
    }

    /// Returns the bytes that are left.
    pub fn bytes(&self) -> &[u8]
        ensures { result.now ≡ mem_left self.now }
    {
        &self.bytes[self.at..]
    }

    /// Returns the number of failures by its list.
    pub fn listed(&self) -> u64
        ensures { result ≡ (source_list self.now).listed }
    {
        self.list.listed()
    }

    /// Returns the number of failures for lack of memory, which is 0: a source takes none.
    pub fn short(&self) -> u64
        ensures { result ≡ 0 }
    {
        0
    }
}

impl Source for MemSource {
    ghost use Rattle.std.specs.Prelude.{◌≡◌, ◌↔◌, IfOk, OnErr, IsErr, IsTrue};
    ghost use Rattle.fs_outside.specs.CallLists.{names_next, after_call};
    ghost use Rattle.fs_outside.specs.Faults.{HasCause};
    ghost use Rattle.fs_outside.specs.MemStreams.{mem_left, source_list};
    ghost use Rattle.fs_outside.specs.Stream.{Reads};

    ghost tells = { Unit {0} };

    ghost left = { λ source. drop source.at source.bytes.items };

    ghost faults = { λ source. source.list.listed };

    fn read(&mut self, buf: &mut [u8]) -> Result<usize, Failed>
        ensures fits { IfOk result (λ n. n ≤ length buf.old) }
        ensures bytes { IfOk result
            (λ n. Reads (mem_left self.old) (mem_left self.new) buf.old buf.new n) }
        ensures err { OnErr result (mem_left self.new ≡ mem_left self.old) }
        ensures cause { HasCause (source_list self.old).listed (source_list self.new).listed result }
        ensures named { IsErr result ↔ IsTrue (names_next (source_list self.old)) }
        ensures counted { source_list self.new ≡ after_call (source_list self.old) }
    {
        self.list.count_call()?;
        Ok(read_front(&self.bytes, &mut self.at, buf))
    }
}

/// A sink that keeps in memory what it takes. The calls that its list names fail.
#[derive(Drop)]
pub struct MemSink {
    bytes: Vec<u8>,
    list: CallList,
    short: u64,
}

impl MemSink {
    ghost use Rattle.std.specs.Prelude.{◌≡◌, []};
    ghost use Rattle.fs_outside.specs.CallLists.{fresh_list};
    ghost use Rattle.fs_outside.specs.MemStreams.{mem_taken, sink_list, sink_short};

    /// Returns an empty sink. The calls in the list, counted from 1, fail.
    pub fn new(alloc: Global, fails: Vec<u64>) -> MemSink
        ensures taken { mem_taken result ≡ [] }
        ensures list { sink_list result ≡ fresh_list fails }
        ensures short { sink_short result ≡ 0 }
    {
        MemSink {
            bytes: Vec::new(alloc),
            list: CallList::new(fails),
            short: 0,
        }
    }

    /// Returns the bytes that it took.
    pub fn bytes(&self) -> &[u8]
        ensures { result.now ≡ mem_taken self.now }
    {
        &self.bytes
    }

    /// Returns the number of failures by its list.
    pub fn listed(&self) -> u64
        ensures { result ≡ (sink_list self.now).listed }
    {
        self.list.listed()
    }

    /// Returns the number of failures for lack of memory.
    pub fn short(&self) -> u64
        ensures { result ≡ sink_short self.now }
    {
        self.short
    }
}

impl Sink for MemSink {
    ghost use Rattle.std.specs.Prelude.{◌≡◌, ◌++◌, ◌+◌, ◌<◌, take, IfOk, OnErr, IsTrue};
    ghost use Rattle.fs_outside.specs.CallLists.{names_next, after_call};
    ghost use Rattle.fs_outside.specs.Faults.{HasCause, FailsExactly};
    ghost use Rattle.fs_outside.specs.MemStreams.{mem_taken, sink_list, sink_short, sink_faults};

    ghost tells = { Unit {0} };

    ghost taken = { λ sink. sink.bytes.items };

    ghost faults = { λ sink. sink.list.listed + sink.short };

    fn write(&mut self, piece: &[u8]) -> Result<usize, Failed>
        requires { 0 < length piece.now }
        ensures fits { IfOk result (λ n. (0 < n) × (n ≤ length piece.now)) }
        ensures bytes { IfOk result (λ n. mem_taken self.new ≡ mem_taken self.old ++ take n piece.now) }
        ensures err { OnErr result (mem_taken self.new ≡ mem_taken self.old) }
        ensures cause { HasCause (sink_faults self.old) (sink_faults self.new) result }
        ensures exactly { FailsExactly (IsTrue (names_next (sink_list self.old)))
            (sink_short self.old) (sink_short self.new) result }
        ensures counted { sink_list self.new ≡ after_call (sink_list self.old) }
    {
        self.list.count_call()?;
        match self.bytes.extend_from_slice(piece) {
            Ok(()) => Ok(piece.len()),
            Err(_) => {
                self.short = rise(self.short);
                Err(Failed)
            }
        }
    }
}
