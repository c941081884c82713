//! The data of the answers.
ghost use Rattle.std.specs.Prelude.{ℕ, ◌≡◌, ◌++◌, [], ◌∷◌, IfOk, length, ◌≤◌, ◌+◌, ◌-◌, ◌<◌, ◌^◌};
ghost use Rattle.std.specs.List.{flat_map};
ghost use Rattle.hex.specs.Hex.{encode_lower};
ghost use Rattle.debug_session.specs.Texts as spec;

use crate::commands::Fixed;
use crate::numbers::{address_bytes, register_bytes};
use fs_model::{Case, Event, NoMemory, TrapKind};
use gdb_packets::push_hex;
use itoa::Buffer;
use rv_machine::Machine;
use timeline::{Watch, WatchKind};

/// The most bytes of memory in one answer, half the most data of a packet.
const MEMORY: u32 = 2048;
/// The number of registers, and that of the pc.
const REGISTERS: u32 = 32;

/// Why a run stands still.
#[derive(Clone, Copy)]
pub(crate) enum Stop {
    /// It went one instruction, or back to the flip.
    Moved,
    AtBreakpoint,
    /// An instruction touched its bytes.
    AtWatchpoint(Watch),
    /// It cannot go back.
    AtBegin,
    /// The next instruction halts.
    AtEnd,
    /// And it touches the bytes of this watchpoint.
    AtWatchedEnd(Watch),
    /// It halted with this value.
    Exited(u8),
    /// It ended by this signal.
    Signalled(u8),
}

/// Appends a text.
pub(crate) fn put(text: &mut Vec<u8>, more: &[u8]) -> Result<(), NoMemory>
    ensures { IfOk result (λ _. text.new.items ≡ text.old.items ++ more.now) }
{
    text.extend_from_slice(more)?;
    Ok(())
}

/// Returns the answer of a request that has the same answer whatever the state.
pub(crate) fn fixed_text(fixed: Fixed) -> &'static [u8]
    ensures { result.now ≡ spec.fixed_text fixed }
{
    match fixed {
        Fixed::WhyStopped => b"T05",
        Fixed::Accepted => b"OK",
        Fixed::Refused => b"E.fail_debug shows the two runs and changes neither",
        Fixed::Malformed => b"E02",
        Fixed::Supported => {
            b"PacketSize=1000;QStartNoAckMode+;swbreak+;ReverseStep+;ReverseContinue+;qXfer:features:read+;vContSupported+"
        }
        Fixed::Actions => b"vCont;c;C;s;S",
        Fixed::CurrentThread => b"QC1",
        Fixed::FirstThreads => b"m1",
        Fixed::OtherThreads => b"l",
        Fixed::Attached => b"1",
        Fixed::Unknown => b"",
    }
}

/// Appends why a run stands still.
pub(crate) fn put_stop(text: &mut Vec<u8>, stop: Stop) -> Result<(), NoMemory>
    ensures { IfOk result (λ _. text.new.items ≡ text.old.items ++ spec.stop_text stop) }
{
    match stop {
        Stop::Moved => put(text, b"T05"),
        Stop::AtBreakpoint => put(text, b"T05swbreak:;"),
        Stop::AtWatchpoint(watch) => put_watch(text, watch),
        Stop::AtBegin => put(text, b"T05replaylog:begin;"),
        Stop::AtEnd => put(text, b"T05replaylog:end;"),
        Stop::AtWatchedEnd(watch) => {
            put_watch(text, watch)?;
            put(text, b"replaylog:end;")
        }
        Stop::Exited(value) => put_coded(text, b"W", value),
        Stop::Signalled(signal) => put_coded(text, b"T", signal),
    }
}

fn kind_text(kind: WatchKind) -> &'static [u8]
    ensures { result.now ≡ spec.kind_text kind }
{
    match kind {
        WatchKind::Write => b"watch:",
        WatchKind::Read => b"rwatch:",
        WatchKind::Access => b"awatch:",
    }
}

// Appends that a watchpoint stopped a run, with its address in eight digits.
fn put_watch(text: &mut Vec<u8>, watch: Watch) -> Result<(), NoMemory>
    ensures { IfOk result (λ _. text.new.items ≡ text.old.items ++ spec.watch_text watch) }
{
    put(text, b"T05")?;
    put(text, kind_text(watch.kind))?;
    push_hex(text, &address_bytes(watch.address))?;
    put(text, b";")
}

// Appends a letter and a byte in two digits.
fn put_coded(text: &mut Vec<u8>, letter: &[u8], code: u8) -> Result<(), NoMemory>
    ensures { IfOk result (λ _. text.new.items ≡ text.old.items ++ (letter.now ++ encode_lower (code ∷ []))) }
{
    put(text, letter)?;
    push_hex(text, &[code])
}

fn trap_signal(kind: TrapKind) -> u8
    ensures { result ≡ spec.trap_signal kind }
{
    match kind {
        TrapKind::Illegal => 4,
        TrapKind::Address => 11,
        TrapKind::Misaligned => 10,
    }
}

/// Returns how a run ends by an event, or at the limit.
pub(crate) fn ended(event: Event) -> Stop
    ensures { result ≡ spec.stop_at_end event }
{
    match event {
        Event::Went | Event::Out(_) => Stop::Signalled(24),
        Event::Halted(value) => Stop::Exited((value % 256) as u8),
        Event::Detected => Stop::Signalled(6),
        Event::Trapped(kind) => Stop::Signalled(trap_signal(kind)),
    }
}

/// Returns why a run stands still that came to its end: one that would halt stops before that first.
pub(crate) fn arrival(stop: Stop) -> Stop
    ensures { result ≡ spec.arrival stop }
{
    match stop {
        Stop::Exited(_) => Stop::AtEnd,
        other => other,
    }
}

/// Appends where the two runs differ first.
pub(crate) fn put_first(text: &mut Vec<u8>, first: Option<u32>) -> Result<(), NoMemory>
    requires { text.old.items ≡ [] }
    ensures { IfOk result (λ _. text.new.items ≡ spec.first_text first) }
{
    match first {
        Some(place) => {
            let mut buffer = Buffer::new();
            push_hex(text, b"the runs differ after ")?;
            push_hex(text, buffer.format(place).as_bytes())?;
            push_hex(text, b" instructions\n")
        }
        None => push_hex(text, b"the runs do not differ in the pc or the output\n"),
    }
}

fn put_word(text: &mut Vec<u8>, word: u32) -> Result<(), NoMemory>
    ensures { IfOk result (λ _. text.new.items ≡ text.old.items ++ spec.word_hex word) }
{
    push_hex(text, &register_bytes(word))
}

/// Appends the registers x0 to x31 and the pc.
pub(crate) fn put_registers(text: &mut Vec<u8>, machine: &Machine) -> Result<(), NoMemory>
    ensures { IfOk result (λ _. text.new.items ≡ text.old.items ++ spec.registers_text machine.now.core) }
{
    let registers = machine.registers();
    put_words(text, registers)?;
    put_word(text, machine.pc())
}

fn put_words(text: &mut Vec<u8>, words: &[u32]) -> Result<(), NoMemory>
    ensures { IfOk result (λ _. text.new.items ≡ text.old.items ++ flat_map spec.word_hex words.now) }
{
    for word in words {
        put_word(text, *word)?;
    }
    Ok(())
}

/// Appends a register.
pub(crate) fn put_register(
    text: &mut Vec<u8>,
    machine: &Machine,
    number: u32,
) -> Result<(), NoMemory>
    ensures { IfOk result (λ _. text.new.items ≡ text.old.items ++ spec.register_text machine.now.core number) }
{
    if number < REGISTERS {
        put_word(text, machine.registers()[number as usize])
    } else if number == REGISTERS {
        put_word(text, machine.pc())
    } else {
        put(text, b"E02")
    }
}

fn byte_in(base: u32, bytes: &[u8], at: u64) -> Option<u8>
    ensures { result ≡ spec.byte_in base bytes.now at }
{
    if at < base as u64 {
        return None;
    }
    bytes.get((at - base as u64) as usize).copied()
}

fn byte_at(case: &Case, ram: &[u8], at: u64) -> Option<u8>
    ensures { result ≡ spec.byte_at case.now ram.now at }
{
    match byte_in(case.rom_base(), case.rom(), at) {
        Some(byte) => Some(byte),
        None => byte_in(case.ram_base(), ram, at),
    }
}

// Appends the bytes from an address on, in digits, up to the first that is not in memory.
fn put_readable(
    text: &mut Vec<u8>,
    case: &Case,
    ram: &[u8],
    at: u32,
    count: u32,
) -> Result<(), NoMemory>
    ensures { IfOk result (λ _. text.new.items ≡ text.old.items ++ encode_lower (spec.readable case.now ram.now at count)) }
{
    for place in 0..count {
        match byte_at(case, ram, at as u64 + place as u64) {
            Some(byte) => push_hex(text, &[byte])?,
            None => return Ok(()),
        }
    }
    Ok(())
}

/// Appends the bytes from an address on.
pub(crate) fn put_memory(
    text: &mut Vec<u8>,
    case: &Case,
    machine: &Machine,
    at: u32,
    count: u32,
) -> Result<(), NoMemory>
    requires { text.old.items ≡ [] }
    ensures { IfOk result (λ _. text.new.items ≡ spec.memory_text case.now machine.now.core at count) }
{
    put_readable(text, case, machine.ram(), at, u32::min(count, MEMORY))?;
    or_error(text)
}

// Puts an error in place of no text.
fn or_error(text: &mut Vec<u8>) -> Result<(), NoMemory>
    ensures { IfOk result (λ _. text.new.items ≡ spec.or_error text.old.items) }
{
    if text.is_empty() {
        text.clear();
        put(text, b"E02")
    } else {
        Ok(())
    }
}

/// Appends a part of a text.
pub(crate) fn put_part(text: &mut Vec<u8>, all: &[u8], at: u32, most: u32) -> Result<(), NoMemory>
    ensures { IfOk result (λ _. text.new.items ≡ text.old.items ++ spec.read_part all.now at most) }
{
    let begin = usize::min(at as usize, all.len());
    if at as usize + (most as usize) < all.len() {
        text.push(b'm')?;
        put(text, &all[begin..begin + most as usize])
    } else {
        text.push(b'l')?;
        put(text, &all[begin..])
    }
}
