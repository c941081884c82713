//! The lines of a run: for an instruction, for what was sent, and for the end.
ghost use Rattle.std.specs.Prelude.{◌≡◌, ◌||◌, [], ◌∷◌, IfOk};
ghost use Rattle.fs_model.specs.Leg.{sent};
ghost use Rattle.fs_outside.specs.Faults.{HasCause};
ghost use Rattle.hex.specs.Hex.{encode_lower};
ghost use Rattle.report.specs.Buffer.{Puts};
ghost use Rattle.plain_commands.specs.Sent.{sent_from};
ghost use Rattle.plain_commands.specs.Trace.{hex_word, word_text, instruction_text};
ghost use Rattle.plain_commands.specs.Walk.{end_text, sends, is_some_byte, output_end};

use fs_model::Event;
use fs_outside::{Failed, Part, Sink};
use hex::encode_to_slice;
use itoa::Buffer;
use report::{put, put_parts, put_pieces};
use rv_machine::Machine;

fn hex_word(n: u32) -> [u8; 8]
    ensures { result ≡ hex_word n }
{
    let mut digits = [0; 8];
    match encode_to_slice(n.to_be_bytes(), &mut digits) {
        Ok(()) => {}
        Err(_) => unreachable!(),
    }
    digits
}

fn hex_byte(byte: u8) -> [u8; 2]
    ensures { result ≡ encode_lower (byte ∷ []) }
{
    let mut digits = [0; 2];
    match encode_to_slice([byte], &mut digits) {
        Ok(()) => {}
        Err(_) => unreachable!(),
    }
    digits
}

/// Returns what follows the bytes of the output, or replaces them if there are none.
pub fn output_end(any: bool) -> &'static [u8]
    ensures { result.now ≡ output_end any }
{
    if any { b"\n" } else { b"-\n" }
}

fn word_text(word: Option<u32>) -> [u8; 8]
    ensures { result ≡ word_text word }
{
    match word {
        Some(word) => hex_word(word),
        None => *b"--------",
    }
}

/// Puts the line of the next instruction.
pub fn put_instruction<O: Sink>(
    out: &mut O,
    waiting: &mut Vec<u8>,
    cycle: u32,
    pc: u32,
    word: Option<u32>,
) -> Result<(), Failed>
    ensures bytes { O.tells → Puts (O.taken out.old) waiting.old.items (O.taken out.new) waiting.new.items (instruction_text cycle pc word) result }
    ensures cause { HasCause (O.faults out.old) (O.faults out.new) result }
{
    let mut buffer = Buffer::new();
    let pc = hex_word(pc);
    let word = word_text(word);
    put_pieces(
        out,
        waiting,
        &[
            buffer.format(cycle).as_bytes(),
            b" ",
            &pc,
            b" ",
            &word,
            b"\n",
        ],
    )
}

// Puts what an event sends, and returns whether it sends anything.
fn put_sent<O: Sink>(out: &mut O, waiting: &mut Vec<u8>, event: Event) -> Result<bool, Failed>
    ensures sends { IfOk result (λ any. any ≡ sends event) }
    ensures bytes { O.tells → Puts (O.taken out.old) waiting.old.items (O.taken out.new) waiting.new.items (encode_lower (sent [] event)) result }
    ensures cause { HasCause (O.faults out.old) (O.faults out.new) result }
{
    match event {
        Event::Out(byte) => {
            put(out, waiting, &hex_byte(byte))?;
            Ok(true)
        }
        Event::Went | Event::Halted(_) | Event::Detected | Event::Trapped(_) => Ok(false),
    }
}

fn either(a: bool, b: bool) -> bool
    ensures { result ≡ (a || b) }
{
    a || b
}

/// Puts the bytes that the machine sends in `steps` steps, and returns whether there are any.
pub fn put_bytes<O: Sink>(
    out: &mut O,
    waiting: &mut Vec<u8>,
    machine: &mut Machine,
    steps: u32,
) -> Result<bool, Failed>
    ensures some { IfOk result (λ any. any ≡ is_some_byte (sent_from machine.old.case machine.old.core steps)) }
    ensures bytes { O.tells → Puts (O.taken out.old) waiting.old.items (O.taken out.new) waiting.new.items
        (encode_lower (sent_from machine.old.case machine.old.core steps)) result }
    ensures case { machine.new.case ≡ machine.old.case }
    ensures cause { HasCause (O.faults out.old) (O.faults out.new) result }
{
    let mut any = false;
    let mut left = steps as u64;
    while left > 0 {
        let (event, taken) = machine.run(left);
        left -= taken;
        let some = put_sent(out, waiting, event)?;
        any = either(any, some);
    }
    Ok(any)
}

/// Puts the line that says how a run ended.
pub fn put_end<O: Sink>(out: &mut O, waiting: &mut Vec<u8>, last: Event) -> Result<(), Failed>
    ensures bytes { O.tells → Puts (O.taken out.old) waiting.old.items (O.taken out.new) waiting.new.items (end_text last) result }
    ensures cause { HasCause (O.faults out.old) (O.faults out.new) result }
{
    match last {
        Event::Halted(value) => put_parts(
            out,
            waiting,
            &[
                Part::Text("end halted "),
                Part::Number(value as u64),
                Part::Text("\n"),
            ],
        ),
        Event::Detected => put(out, waiting, b"end detected\n"),
        Event::Trapped(_) => put(out, waiting, b"end trapped\n"),
        Event::Went | Event::Out(_) => put(out, waiting, b"end limit\n"),
    }
}
