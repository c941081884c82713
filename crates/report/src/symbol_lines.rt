//! Lines of functions and objects, written without taking memory.

ghost use Rattle.std.specs.Prelude.{◌≡◌, ◌+◌, ◌<◌, ◌&&◌, nat_le, length, map};
ghost use Rattle.fs_model.specs.Outcome.{all_outcomes, total_at};
ghost use Rattle.fs_outside.specs.Faults.{HasCause};
ghost use Rattle.fs_outside.specs.Writing.{Writes};
ghost use Rattle.report.specs.Symbols.{counts_line, counts_text, group_text, is_one, shown};
ghost use Rattle.report.specs.SymbolLines.{counts_in, number_text, numbers_text, one_text, those_text};

use elf_symbols::Symbol;
use fs_model::{Outcome, Totals};
use fs_outside::{Failed, Part, Sink, write_parts, write_pieces, write_whole};

// Returns whether a byte is a visible ASCII character, which is written as it is.
fn is_visible(byte: u8) -> bool
    ensures { result ≡ (nat_le 0x21 byte && nat_le byte 0x7E) }
{
    0x21 <= byte && byte <= 0x7E
}

// Writes a name, with `?` for each byte that is not visible.
fn write_name<O: Sink>(out: &mut O, name: &[u8]) -> Result<(), Failed>
    ensures bytes { O.tells → Writes (O.taken out.old) (O.taken out.new) (map shown name.now) result }
    ensures cause { HasCause (O.faults out.old) (O.faults out.new) result }
{
    let mut from = 0;
    for at in 0..name.len() {
        if !is_visible(name[at]) {
            write_pieces(out, &[&name[from..at], b"?"])?;
            from = at + 1;
        }
    }
    write_whole(out, &name[from..])
}

// Writes a space and a number.
fn write_number<O: Sink>(out: &mut O, number: u64) -> Result<(), Failed>
    ensures bytes { O.tells → Writes (O.taken out.old) (O.taken out.new) (number_text number) result }
    ensures cause { HasCause (O.faults out.old) (O.faults out.new) result }
{
    write_parts(out, &[Part::Text(" "), Part::Number(number)])
}

// Writes a number for each outcome.
fn write_numbers<O: Sink>(out: &mut O, totals: &Totals) -> Result<(), Failed>
    ensures bytes { O.tells → Writes (O.taken out.old) (O.taken out.new) (numbers_text all_outcomes (total_at totals.now)) result }
    ensures cause { HasCause (O.faults out.old) (O.faults out.new) result }
{
    for outcome in Outcome::ALL {
        write_number(out, totals.get(outcome))?;
    }
    Ok(())
}

// Writes a number for each outcome, and ends the line.
fn write_counts<O: Sink>(out: &mut O, totals: &Totals) -> Result<(), Failed>
    ensures bytes { O.tells → Writes (O.taken out.old) (O.taken out.new) (counts_text (total_at totals.now)) result }
    ensures cause { HasCause (O.faults out.old) (O.faults out.new) result }
{
    write_numbers(out, totals)?;
    write_whole(out, b"\n")
}

// Writes a word, a name and the counts.
fn write_line<O: Sink>(out: &mut O, word: &str, name: &[u8], totals: &Totals) -> Result<(), Failed>
    ensures bytes { O.tells → Writes (O.taken out.old) (O.taken out.new) (counts_line word.now name.now (total_at totals.now)) result }
    ensures cause { HasCause (O.faults out.old) (O.faults out.new) result }
{
    write_parts(out, &[Part::Text(word), Part::Text(" ")])?;
    write_name(out, name)?;
    write_counts(out, totals)
}

// Returns whether symbol number `k` is a function, or, if `function` is false, an object.
fn is_one(function: bool, symbols: &[Symbol<'_>], k: usize) -> bool
    requires { k < length symbols.now }
    ensures { result ≡ is_one function symbols.now k }
{
    if function {
        symbols[k].is_function
    } else {
        !symbols[k].is_function
    }
}

// Writes the line of a symbol if it is of the kind asked for: a function or an object.
fn write_one<O: Sink>(
    out: &mut O,
    function: bool,
    word: &str,
    symbols: &[Symbol<'_>],
    totals: &[Totals],
    k: usize,
) -> Result<(), Failed>
    requires inside { k < length symbols.now }
    requires totals { length totals.now ≡ length symbols.now + 2 }
    ensures bytes { O.tells → Writes (O.taken out.old) (O.taken out.new) (one_text function word.now symbols.now (counts_in totals.now) k) result }
    ensures cause { HasCause (O.faults out.old) (O.faults out.new) result }
{
    if is_one(function, symbols, k) {
        write_line(out, word, symbols[k].name.bytes(), &totals[k])
    } else {
        Ok(())
    }
}

// Writes the lines of all functions, or of all objects.
fn write_those<O: Sink>(
    out: &mut O,
    function: bool,
    word: &str,
    symbols: &[Symbol<'_>],
    totals: &[Totals],
) -> Result<(), Failed>
    requires { length totals.now ≡ length symbols.now + 2 }
    ensures bytes { O.tells → Writes (O.taken out.old) (O.taken out.new)
        (those_text function word.now symbols.now (counts_in totals.now) (length symbols.now)) result }
    ensures cause { HasCause (O.faults out.old) (O.faults out.new) result }
{
    for k in 0..symbols.len() {
        write_one(out, function, word, symbols, totals, k)?;
    }
    Ok(())
}

/// Writes the lines of functions or of objects, and the two lines after them.
pub(crate) fn write_group<O: Sink>(
    out: &mut O,
    function: bool,
    word: &str,
    last: &str,
    symbols: &[Symbol<'_>],
    totals: &[Totals],
) -> Result<(), Failed>
    requires { length totals.now ≡ length symbols.now + 2 }
    ensures bytes { O.tells → Writes (O.taken out.old) (O.taken out.new) (group_text function word.now last.now symbols.now (counts_in totals.now)) result }
    ensures cause { HasCause (O.faults out.old) (O.faults out.new) result }
{
    write_those(out, function, word, symbols, totals)?;
    write_line(out, word, b"(none)", &totals[symbols.len()])?;
    write_line(out, word, last.as_bytes(), &totals[symbols.len() + 1])
}
