//! Reading bytes and writing answers until GDB has left.
ghost use Rattle.std.specs.Prelude.{◌≡◌, ◌<◌, [], ◌∷◌, length, false, IfErr, IfOk, MatchResult, OnOk};
ghost use Rattle.fs_outside.specs.Faults.{IsCaused};
ghost use Rattle.debugger.specs.Talk.{BrokenOff, IsTalk, Served, TakesByte, TakesNext, is_input, is_output};

use crate::talk::Talk;
use fs_outside::{Failed, Sink, Source, write_whole};

/// The most bytes that one call asks of the input.
const PIECE: usize = 4096;

/// Why a talk is broken off.
#[derive(Clone, Copy)]
pub(crate) enum TalkFailure {
    /// The input could not be read.
    InputFault,
    /// The output could not be written.
    OutputFault,
    NoMemory,
}

// Takes one byte, and writes the answer at once. Once GDB has left, nothing is done.
fn take_byte<O: Sink>(
    talk: &mut Talk,
    byte: u8,
    buffer: &mut Vec<u8>,
    out: &mut O,
) -> Result<(), TalkFailure>
    ensures talk { O.tells → OnOk result (TakesByte talk.old byte talk.new (O.taken out.old) (O.taken out.new)) }
    ensures broken { O.tells → IfErr result (λ why. BrokenOff why talk.old (byte ∷ []) [] (O.taken out.old) (O.taken out.new)) }
    ensures writes { MatchResult result (λ _. O.faults out.new ≡ O.faults out.old) (λ why. IsCaused (is_output why) (O.faults out.old) (O.faults out.new)) }
    ensures input { IfErr result (λ why. is_input why ≡ false) }
{
    if talk.over() {
        return Ok(());
    }
    if talk.hear(byte, buffer).is_err() {
        return Err(TalkFailure::NoMemory);
    }
    match write_whole(out, buffer.as_slice()) {
        Ok(()) => Ok(()),
        Err(Failed) => Err(TalkFailure::OutputFault),
    }
}

// Takes some bytes.
fn take<O: Sink>(
    talk: &mut Talk,
    bytes: &[u8],
    buffer: &mut Vec<u8>,
    out: &mut O,
) -> Result<(), TalkFailure>
    ensures talk { O.tells → OnOk result (Served talk.old talk.new bytes.now (O.taken out.old) (O.taken out.new)) }
    ensures broken { O.tells → IfErr result (λ why. BrokenOff why talk.old bytes.now [] (O.taken out.old) (O.taken out.new)) }
    ensures writes { MatchResult result (λ _. O.faults out.new ≡ O.faults out.old) (λ why. IsCaused (is_output why) (O.faults out.old) (O.faults out.new)) }
    ensures input { IfErr result (λ why. is_input why ≡ false) }
{
    for byte in bytes {
        take_byte(talk, *byte, buffer, out)?;
    }
    Ok(())
}

// Reads the next bytes, and takes them. Returns whether there were any.
fn take_next<S: Source, O: Sink>(
    talk: &mut Talk,
    piece: &mut [u8],
    buffer: &mut Vec<u8>,
    input: &mut S,
    out: &mut O,
) -> Result<bool, TalkFailure>
    requires { 0 < length piece.old }
    ensures talk { S.tells → O.tells
        → IfOk result (λ more. TakesNext talk.old talk.new (S.left input.old) (S.left input.new) (O.taken out.old) (O.taken out.new) more) }
    ensures broken { S.tells → O.tells
        → IfErr result (λ why. BrokenOff why talk.old (S.left input.old) (S.left input.new) (O.taken out.old) (O.taken out.new)) }
    ensures reads { MatchResult result (λ _. S.faults input.new ≡ S.faults input.old)
        (λ why. IsCaused (is_input why) (S.faults input.old) (S.faults input.new)) }
    ensures writes { MatchResult result (λ _. O.faults out.new ≡ O.faults out.old) (λ why. IsCaused (is_output why) (O.faults out.old) (O.faults out.new)) }
{
    let count = match input.read(piece) {
        Ok(count) => count,
        Err(Failed) => return Err(TalkFailure::InputFault),
    };
    take(talk, &piece[..count], buffer, out)?;
    Ok(0 < count)
}

/// Talks until the input ends or GDB has left. `buffer` is for the bytes that are written at once.
///
/// # Errors
///
/// `InputFault` or `OutputFault` if that device failed, and `NoMemory` if memory is refused.
pub(crate) fn serve<S: Source, O: Sink>(
    talk: &mut Talk,
    buffer: &mut Vec<u8>,
    input: &mut S,
    out: &mut O,
) -> Result<(), TalkFailure>
    ensures talk { S.tells → O.tells → OnOk result (IsTalk talk.old talk.new (S.left input.old) (S.left input.new) (O.taken out.old) (O.taken out.new)) }
    ensures broken { S.tells → O.tells
        → IfErr result (λ why. BrokenOff why talk.old (S.left input.old) (S.left input.new) (O.taken out.old) (O.taken out.new)) }
    ensures reads { MatchResult result (λ _. S.faults input.new ≡ S.faults input.old)
        (λ why. IsCaused (is_input why) (S.faults input.old) (S.faults input.new)) }
    ensures writes { MatchResult result (λ _. O.faults out.new ≡ O.faults out.old) (λ why. IsCaused (is_output why) (O.faults out.old) (O.faults out.new)) }
{
    let mut piece = [0; PIECE];
    for _read in 0..u64::MAX {
        let more = take_next(talk, &mut piece, buffer, input, out)?;
        if !more {
            return Ok(());
        }
        if talk.over() {
            return Ok(());
        }
    }
    Ok(())
}
