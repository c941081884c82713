//! Writing texts to a sink that may take them in pieces.
ghost use Rattle.std.specs.Prelude.{◌≡◌, [], IsOk};
ghost use Rattle.std.specs.List.{flat_map};
ghost use Rattle.fs_outside.specs.Faults.{HasCause};
ghost use Rattle.fs_outside.specs.Writing.{Writes};

use crate::{Failed, Sink};

/// Writes a text, and calls the sink until it took the whole. For an empty text it does not call the sink.
///
/// For a sink that tells nothing, the contract only says when the call fails, and that an empty text leaves it
/// unchanged.
///
/// # Errors
///
/// `Failed` if the sink failed. It may have taken a part of the text.
pub fn write_whole<O: Sink>(out: &mut O, text: &[u8]) -> Result<(), Failed>
    ensures bytes { O.tells → Writes (O.taken out.old) (O.taken out.new) text.now result }
    ensures cause { HasCause (O.faults out.old) (O.faults out.new) result }
    ensures empty { text.now ≡ [] → IsOk result × (out.new ≡ out.old) }
{
    let mut at = 0;
    while at < text.len() {
        at += out.write(&text[at..])?;
    }
    Ok(())
}

/// Writes the pieces of a text, one after the other.
///
/// For a sink that tells nothing, the contract only says when the call fails.
///
/// # Errors
///
/// `Failed` if the sink failed. It may have taken a part of the text.
pub fn write_pieces<O: Sink>(out: &mut O, pieces: &[&[u8]]) -> Result<(), Failed>
    ensures bytes { O.tells
        → Writes (O.taken out.old) (O.taken out.new) (flat_map (λ piece. piece.now) pieces.now) result }
    ensures cause { HasCause (O.faults out.old) (O.faults out.new) result }
{
    for piece in pieces {
        write_whole(out, piece)?;
    }
    Ok(())
}
