//! The line of an answer, added to a text in memory.

ghost use Rattle.std.specs.Prelude.{◌≡◌, ◌++◌, [], ◌∷◌, OnOk};
ghost use Rattle.std.specs.List.{flat_map};
ghost use Rattle.hex.specs.Hex.{encode_lower};
ghost use Rattle.fs_outside.specs.Parts.{part_text};
ghost use Rattle.run_answers.specs.Answers.{answer_with, end_by};
ghost use Rattle.run_answers.specs.Line.{bytes_word, end_words, job_words, line_with};

use fs_model::{Event, Job, NoMemory, Outcome};
use fs_outside::Part;
use hex::encode_to_slice;
use itoa::Buffer;

fn add_part(text: &mut Vec<u8>, part: Part<'_>) -> Result<(), NoMemory>
    ensures { OnOk result (text.new.items ≡ text.old.items ++ part_text part.entry) }
{
    match part {
        Part::Text(word) => text.extend_from_slice(word.as_bytes())?,
        Part::Number(number) => {
            let mut digits = Buffer::new();
            text.extend_from_slice(digits.format(number).as_bytes())?;
        }
    }
    Ok(())
}

// Adds texts and numbers, one after the other.
fn add_parts(text: &mut Vec<u8>, parts: &[Part<'_>]) -> Result<(), NoMemory>
    ensures { OnOk result (text.new.items ≡ text.old.items ++ flat_map part_text parts.now) }
{
    for part in parts {
        add_part(text, *part)?;
    }
    Ok(())
}

fn add_job(text: &mut Vec<u8>, job: &Job, outcome: Outcome) -> Result<(), NoMemory>
    ensures { OnOk result (text.new.items ≡ text.old.items ++ job_words job.now outcome) }
{
    add_parts(
        text,
        &[
            Part::Number(job.cycle as u64),
            Part::Text(" "),
            Part::Number(job.cell as u64),
            Part::Text(" "),
            Part::Number(job.bit as u64),
            Part::Text(" "),
            Part::Number(job.weight as u64),
            Part::Text(" "),
            Part::Text(outcome.word()),
            Part::Text(" "),
        ],
    )
}

fn hex_byte(byte: u8) -> [u8; 2]
    ensures { result ≡ encode_lower (byte ∷ []) }
{
    let mut digits = [0; 2];
    match encode_to_slice([byte], &mut digits) {
        Ok(()) => {}
        Err(_) => unreachable!(),
    }
    digits
}

// Adds two hexadecimal digits for each byte.
fn add_digits(text: &mut Vec<u8>, bytes: &[u8]) -> Result<(), NoMemory>
    ensures { OnOk result (text.new.items ≡ text.old.items ++ encode_lower bytes.now) }
{
    for byte in bytes {
        text.extend_from_slice(&hex_byte(*byte))?;
    }
    Ok(())
}

fn add_bytes(text: &mut Vec<u8>, bytes: &[u8]) -> Result<(), NoMemory>
    ensures { OnOk result (text.new.items ≡ text.old.items ++ bytes_word bytes.now) }
{
    if bytes.is_empty() {
        text.extend_from_slice(b"-")?;
        return Ok(());
    }
    add_digits(text, bytes)
}

// Adds the words that say how a run with this last event ended.
fn add_end(text: &mut Vec<u8>, last: Event) -> Result<(), NoMemory>
    ensures { OnOk result (text.new.items ≡ text.old.items ++ end_words (end_by last)) }
{
    match last {
        Event::Halted(value) => add_parts(
            text,
            &[Part::Text("halted "), Part::Number(value as u64)],
        ),
        Event::Detected => add_part(text, Part::Text("detected")),
        Event::Trapped(_) => add_part(text, Part::Text("trapped")),
        Event::Went | Event::Out(_) => add_part(text, Part::Text("limit")),
    }
}

/// Adds the line of a job with this outcome, whose run sent these bytes and had this last event.
pub(crate) fn add_line(
    text: &mut Vec<u8>,
    job: &Job,
    outcome: Outcome,
    output: &[u8],
    last: Event,
) -> Result<(), NoMemory>
    ensures { OnOk result (text.new.items ≡ text.old.items ++ line_with job.now outcome (answer_with output.now last)) }
{
    add_job(text, job, outcome)?;
    add_bytes(text, output)?;
    add_part(text, Part::Text(" "))?;
    add_end(text, last)?;
    add_part(text, Part::Text("\n"))
}
