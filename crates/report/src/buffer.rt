//! A buffer for short texts, so that a sink is called once for many of them.
ghost use Rattle.std.specs.Prelude.{◌≡◌, ◌+◌, ◌≤◌, ◌++◌, [], vec_len, vec_capacity, length};
ghost use Rattle.std.specs.List.{flat_map};
ghost use Rattle.fs_outside.specs.Faults.{HasCause};
ghost use Rattle.fs_outside.specs.Parts.{part_text};
ghost use Rattle.fs_outside.specs.Writing.{Writes};
ghost use Rattle.report.specs.Buffer.{Puts};

use fs_outside::{Failed, Part, Sink, write_whole};
use itoa::Buffer;

/// The size of the buffer in bytes.
pub const PIECE: usize = 65536;

// Appends bytes to the buffer, which has room for them.
fn append(waiting: &mut Vec<u8>, text: &[u8])
    requires { vec_len waiting.old + length text.now ≤ vec_capacity waiting.old }
    ensures { waiting.new.items ≡ waiting.old.items ++ text.now }
{
    match waiting.extend_from_slice(text) {
        Ok(()) => {}
        Err(_) => unreachable!(),
    }
}

/// Writes the content of the buffer.
pub fn flush<O: Sink>(out: &mut O, waiting: &mut Vec<u8>) -> Result<(), Failed>
    ensures bytes { O.tells → Writes (O.taken out.old) (O.taken out.new) waiting.old.items result }
    ensures none { waiting.new.items ≡ [] }
    ensures cause { HasCause (O.faults out.old) (O.faults out.new) result }
{
    let result = write_whole(out, waiting.as_slice());
    waiting.clear();
    result
}

// Writes the content of the buffer, and then a text.
fn flush_and_write<O: Sink>(out: &mut O, waiting: &mut Vec<u8>, text: &[u8]) -> Result<(), Failed>
    ensures bytes { O.tells → Writes (O.taken out.old) (O.taken out.new) (waiting.old.items ++ text.now) result }
    ensures none { waiting.new.items ≡ [] }
    ensures cause { HasCause (O.faults out.old) (O.faults out.new) result }
{
    flush(out, waiting)?;
    write_whole(out, text)
}

/// Appends a text to the buffer. If the buffer has no room, writes its content and the text. Takes no memory.
pub fn put<O: Sink>(out: &mut O, waiting: &mut Vec<u8>, text: &[u8]) -> Result<(), Failed>
    ensures bytes { O.tells → Puts (O.taken out.old) waiting.old.items (O.taken out.new) waiting.new.items text.now result }
    ensures cause { HasCause (O.faults out.old) (O.faults out.new) result }
{
    if text.len() <= waiting.capacity() - waiting.len() {
        append(waiting, text);
        return Ok(());
    }
    flush_and_write(out, waiting, text)
}

/// Puts the pieces of a text, one after the other.
pub fn put_pieces<O: Sink>(
    out: &mut O,
    waiting: &mut Vec<u8>,
    pieces: &[&[u8]],
) -> Result<(), Failed>
    ensures bytes { O.tells → Puts (O.taken out.old) waiting.old.items (O.taken out.new) waiting.new.items
        (flat_map (λ piece. piece.now) pieces.now) result }
    ensures cause { HasCause (O.faults out.old) (O.faults out.new) result }
{
    for piece in pieces {
        put(out, waiting, piece)?;
    }
    Ok(())
}

fn put_part<O: Sink>(out: &mut O, waiting: &mut Vec<u8>, part: Part<'_>) -> Result<(), Failed>
    ensures bytes { O.tells → Puts (O.taken out.old) waiting.old.items (O.taken out.new) waiting.new.items (part_text part.entry) result }
    ensures cause { HasCause (O.faults out.old) (O.faults out.new) result }
{
    match part {
        Part::Text(text) => put(out, waiting, text.as_bytes()),
        Part::Number(number) => {
            let mut digits = Buffer::new();
            put(out, waiting, digits.format(number).as_bytes())
        }
    }
}

/// Puts texts and numbers, one after the other.
pub fn put_parts<O: Sink>(
    out: &mut O,
    waiting: &mut Vec<u8>,
    parts: &[Part<'_>],
) -> Result<(), Failed>
    ensures bytes { O.tells → Puts (O.taken out.old) waiting.old.items (O.taken out.new) waiting.new.items
        (flat_map part_text parts.now) result }
    ensures cause { HasCause (O.faults out.old) (O.faults out.new) result }
{
    for part in parts {
        put_part(out, waiting, *part)?;
    }
    Ok(())
}
