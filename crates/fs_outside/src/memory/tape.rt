//! The bytes of a disk in memory, and a record of the calls that wrote them.
ghost use Rattle.std.specs.Prelude.{◌≡◌, [], ◌≤◌, length, IfOk, OnErr, OnOk};
ghost use Rattle.fs_outside.specs.Past.{Made, Wrote, Synced, IsImage, content, synced_content, overwritten};
ghost use Rattle.fs_outside.specs.Replay.{replayed};

use std::alloc::{AllocError, Global};

/// A call that changed the disk.
#[derive(Drop)]
pub enum Call {
    Write {
        at: u64,
        count: usize,
        taken: Vec<u8>,
    },
    Sync,
}

/// The initial content of a disk, its present content, that of the last sync, and the calls since. The record
/// keeps the bytes that each write took, so it grows by what is written.
#[derive(Drop)]
pub struct Tape {
    alloc: Global,
    made: Vec<u8>,
    bytes: Vec<u8>,
    synced: Vec<u8>,
    calls: Vec<Call>,
    ghost settled: { synced.items ≡ synced_content (replayed (Made made.items) calls.items) },
    ghost reads: { bytes.items ≡ content (replayed (Made made.items) calls.items) },
    ghost image: { IsImage (replayed (Made made.items) calls.items) bytes.items },
}

impl Tape {
    ghost use Rattle.fs_outside.specs.Memory.{tape_past};

    /// Returns a tape with these bytes, all of them synced.
    pub fn new(alloc: Global, bytes: Vec<u8>) -> Result<Tape, AllocError>
        ensures { IfOk result (λ tape. tape_past tape ≡ Made bytes.items) }
    {
        let made = bytes.to_vec(alloc)?;
        let synced = bytes.to_vec(alloc)?;
        Ok(Tape {
            alloc,
            made,
            bytes,
            synced,
            calls: Vec::new(alloc),
        })
    }

    /// Returns a tape without bytes.
    pub fn empty(alloc: Global) -> Tape
        ensures { tape_past result ≡ Made [] }
    {
        Tape {
            alloc,
            made: Vec::new(alloc),
            bytes: Vec::new(alloc),
            synced: Vec::new(alloc),
            calls: Vec::new(alloc),
        }
    }

    /// Returns the bytes that a read finds.
    pub fn bytes(&self) -> &[u8]
        ensures { result.now ≡ content (tape_past self.now) }
    {
        &self.bytes
    }

    /// Returns the content of the last sync.
    pub fn synced(&self) -> &[u8]
        ensures { result.now ≡ synced_content (tape_past self.now) }
    {
        &self.synced
    }

    /// Returns the record of the calls.
    pub fn calls(&self) -> &[Call]
        ensures { result.now ≡ self.now.calls.items }
    {
        &self.calls
    }

    /// Records a write of `count` bytes, of which those in `taken` are written. Without memory nothing changes.
    pub fn write(&mut self, at: u64, count: usize, taken: &[u8]) -> Result<(), AllocError>
        requires within { at ≤ length (content (tape_past self.old)) }
        requires fits { length taken.now ≤ count }
        ensures ok { OnOk result (tape_past self.new ≡ Wrote (tape_past self.old) at count taken.now) }
        ensures err { OnErr result (tape_past self.new ≡ tape_past self.old) }
    {
        let next = overwrite(self.alloc, &self.bytes, at as usize, taken)?;
        let taken = taken.to_vec(self.alloc)?;
        self.calls.push(Call::Write { at, count, taken })?;
        self.bytes = next;
        Ok(())
    }

    /// Records a sync. Without memory nothing changes.
    pub fn sync(&mut self) -> Result<(), AllocError>
        ensures ok { OnOk result (tape_past self.new ≡ Synced (tape_past self.old)) }
        ensures err { OnErr result (tape_past self.new ≡ tape_past self.old) }
    {
        let synced = self.bytes.to_vec(self.alloc)?;
        self.calls.push(Call::Sync)?;
        self.synced = synced;
        Ok(())
    }
}

// Returns the bytes with `taken` written at index `at`, extended if necessary.
fn overwrite(alloc: Global, bytes: &[u8], at: usize, taken: &[u8]) -> Result<Vec<u8>, AllocError>
    requires { at ≤ length bytes.now }
    ensures { IfOk result (λ next. next.items ≡ overwritten bytes.now at taken.now) }
{
    let mut next = bytes[..at].to_vec(alloc)?;
    next.extend_from_slice(taken)?;
    if taken.len() < bytes.len() - at {
        next.extend_from_slice(&bytes[at + taken.len()..])?;
    }
    Ok(next)
}
