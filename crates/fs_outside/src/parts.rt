//! Writing texts and numbers one after the other, without taking memory.
ghost use Rattle.std.specs.Prelude.{◌≡◌};
ghost use Rattle.std.specs.List.{flat_map};
ghost use Rattle.fs_outside.specs.Faults.{HasCause};
ghost use Rattle.fs_outside.specs.Writing.{Writes};
ghost use Rattle.fs_outside.specs.Parts.{part_text};

use crate::{Failed, Sink, write_whole};
use itoa::Buffer;

/// A text, or a number in decimal digits.
#[derive(Clone, Copy, Debug)]
pub enum Part<'a> {
    Text(&'a str),
    Number(u64),
}

fn write_part<O: Sink>(out: &mut O, part: Part<'_>) -> Result<(), Failed>
    ensures bytes { O.tells → Writes (O.taken out.old) (O.taken out.new) (part_text part.entry) result }
    ensures cause { HasCause (O.faults out.old) (O.faults out.new) result }
{
    match part {
        Part::Text(text) => write_whole(out, text.as_bytes()),
        Part::Number(n) => {
            let mut buffer = Buffer::new();
            write_whole(out, buffer.format(n).as_bytes())
        }
    }
}

/// Writes the parts.
///
/// For a sink that tells nothing, the contract only says when the call fails.
///
/// # Errors
///
/// `Failed` if the sink failed. It may have taken a part of the text.
pub fn write_parts<O: Sink>(out: &mut O, parts: &[Part<'_>]) -> Result<(), Failed>
    ensures bytes { O.tells
        → Writes (O.taken out.old) (O.taken out.new) (flat_map part_text parts.now) result }
    ensures cause { HasCause (O.faults out.old) (O.faults out.new) result }
{
    for part in parts {
        write_part(out, *part)?;
    }
    Ok(())
}
