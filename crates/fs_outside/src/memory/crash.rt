//! What a crash leaves of a disk in memory.
ghost use Rattle.std.specs.Prelude.{◌≡◌, ◌⊎◌, ◌+◌, ◌<◌, ◌≤◌, ℕ, length, slice_index, IfOk, OnOk};
ghost use Rattle.fs_outside.specs.Replay.{IsFilled};
ghost use Rattle.fs_outside.specs.Past.{IsFilledWith, IsImage, synced_content};
ghost use Rattle.fs_outside.specs.Memory.{tape_past};

use crate::memory::tape::{Call, Tape};
use std::alloc::{AllocError, Global};

// Writes the byte to each index of the range that exists.
fn fill(bytes: &mut [u8], at: u64, count: usize, byte: u8)
    ensures outside { (i : ℕ) → (i < at) ⊎ (at + count ≤ i)
        → slice_index bytes.new i ≡ slice_index bytes.old i }
    ensures inside { (i : ℕ) → at ≤ i → i < at + count → i < length bytes.new
        → slice_index bytes.new i ≡ byte }
{
    let len = bytes.len();
    if at < len as u64 {
        let from = at as usize;
        let end = from + count.min(len - from);
        for i in from..end {
            bytes[i] = byte;
        }
    }
}

// Applies a call: a write fills its range with the byte, and a sync restores the bytes that a read returns.
fn after_call(
    alloc: Global,
    bytes: &[u8],
    image: &mut Vec<u8>,
    call: &Call,
    byte: u8,
) -> Result<(), AllocError>
    ensures { OnOk result (IsFilled bytes.now byte image.old.items call.now image.new.items) }
{
    match call {
        Call::Write { at, count, .. } => fill(image, *at, *count, byte),
        Call::Sync => *image = bytes.to_vec(alloc)?,
    }
    Ok(())
}

/// Returns the bytes that a read returns, but with `byte` in each place that was written since the last sync.
pub fn filled(alloc: Global, tape: &Tape, byte: u8) -> Result<Vec<u8>, AllocError>
    ensures image { IfOk result (λ image. IsImage (tape_past tape.now) image.items) }
    ensures filled { IfOk result (λ image. IsFilledWith (tape_past tape.now) byte image.items) }
{
    let mut image = tape.bytes().to_vec(alloc)?;
    for call in tape.calls() {
        after_call(alloc, tape.bytes(), &mut image, call, byte)?;
    }
    Ok(image)
}

/// Returns the content after a crash that keeps nothing that was not synced.
pub fn kept_synced(alloc: Global, tape: &Tape) -> Result<Vec<u8>, AllocError>
    ensures image { IfOk result (λ image. IsImage (tape_past tape.now) image.items) }
    ensures synced { IfOk result (λ image. image.items ≡ synced_content (tape_past tape.now)) }
{
    Ok(tape.synced().to_vec(alloc)?)
}
