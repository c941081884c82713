//! Which instructions wrote a register last, in words.
ghost use Rattle.std.specs.Prelude.{◌≡◌, ◌++◌, IfOk};
ghost use Rattle.debug_session.specs.LastWrites as spec;

use crate::replies::put;
use crate::words::{put_address, put_number};
use fs_model::NoMemory;
use timeline::Timeline;

// Returns the instruction that wrote the register last before this place: its number and its address.
fn write_before(run: &mut Timeline<'_>, register: u32) -> Option<(u32, u32)>
    ensures found { result ≡ spec.write_before run.old.case run.old.flip register run.old.place }
    ensures same { run.new ≡ run.old }
{
    let place = run.place();
    match run.last_write(register) {
        Some(number) => {
            run.go_to(number);
            let pc = run.machine().pc();
            run.go_to(place);
            Some((number, pc))
        }
        None => None,
    }
}

// Returns what the register holds at this place.
fn register_value(run: &Timeline<'_>, register: u32) -> u32
    ensures { result ≡ spec.register_value run.now.case run.now.flip register run.now.place }
{
    let registers = run.machine().registers();
    registers.get(register as usize).copied().unwrap_or(0)
}

fn put_instruction(text: &mut Vec<u8>, number: u32) -> Result<(), NoMemory>
    ensures { IfOk result (λ _. text.new.items ≡ text.old.items ++ spec.instruction_words number) }
{
    put(text, b", written by instruction ")?;
    put_number(text, number)
}

fn put_place(text: &mut Vec<u8>, pc: u32) -> Result<(), NoMemory>
    ensures { IfOk result (λ _. text.new.items ≡ text.old.items ++ spec.at_words pc) }
{
    put(text, b" at ")?;
    put_address(text, pc)?;
    put(text, b"\n")
}

// Appends an instruction by its number and its address.
fn put_found(text: &mut Vec<u8>, number: u32, pc: u32) -> Result<(), NoMemory>
    ensures { IfOk result (λ _. text.new.items ≡ text.old.items ++ (spec.instruction_words number ++ spec.at_words pc)) }
{
    put_instruction(text, number)?;
    put_place(text, pc)
}

fn put_writer(text: &mut Vec<u8>, writer: Option<(u32, u32)>) -> Result<(), NoMemory>
    ensures { IfOk result (λ _. text.new.items ≡ text.old.items ++ spec.writer_words writer) }
{
    match writer {
        Some((number, pc)) => put_found(text, number, pc),
        None => put(text, b", not written before\n"),
    }
}

fn put_write(
    text: &mut Vec<u8>,
    name: &[u8],
    register: u32,
    value: u32,
    writer: Option<(u32, u32)>,
) -> Result<(), NoMemory>
    ensures { IfOk result (λ _. text.new.items ≡ text.old.items ++ spec.write_words name.now register value writer) }
{
    put(text, name)?;
    put(text, b"x")?;
    put_number(text, register)?;
    put(text, b" is ")?;
    put_address(text, value)?;
    put_writer(text, writer)
}

/// Appends what the register holds in a run, and which instruction wrote it last.
pub(crate) fn put_run(
    text: &mut Vec<u8>,
    name: &[u8],
    run: &mut Timeline<'_>,
    register: u32,
) -> Result<(), NoMemory>
    ensures same { run.new ≡ run.old }
    ensures text { IfOk result (λ _. text.new.items ≡ text.old.items
        ++ spec.run_words name.now run.old.case run.old.flip register run.old.place) }
{
    let value = register_value(run, register);
    let writer = write_before(run, register);
    put_write(text, name, register, value, writer)
}
