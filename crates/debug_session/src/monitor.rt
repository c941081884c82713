//! What a person asks by `monitor`.
ghost use Rattle.std.specs.Prelude.{◌≡◌, IfOk};
ghost use Rattle.hex.specs.Hex.{decode_of};
ghost use Rattle.debug_session.specs.Parse as spec;

use crate::commands::{Advice, Command, Go, Shown, Tell};
use crate::parse::{begins, behind, is};
use fs_model::NoMemory;
use gdb_packets::number_in;
use hex::{FromHexError, decode};
use std::alloc::Global;

/// The base of the numbers that a person types.
const DECIMAL: u32 = 10;

/// The number of registers.
const REGISTERS: u32 = 32;

fn go_to(word: &[u8]) -> Command
    ensures { result ≡ spec.go_to word.now }
{
    match number_in(DECIMAL, behind(5, word)) {
        Some(place) => Command::Go(Go::To(place)),
        None => Command::Tell(Tell::Advice(Advice::NoNumber)),
    }
}

fn register_asked(word: &[u8]) -> Command
    ensures { result ≡ spec.register_asked word.now }
{
    match number_in(DECIMAL, behind(12, word)) {
        Some(register) if register < REGISTERS => Command::Tell(Tell::LastWrite(register)),
        _ => Command::Tell(Tell::Advice(Advice::NoRegister)),
    }
}

// Returns what a person asks that takes no number.
fn plain_word(word: &[u8]) -> Command
    ensures { result ≡ spec.plain_word word.now }
{
    if is(word, b"golden") {
        Command::Go(Go::Show(Shown::Golden))
    } else if is(word, b"injected") {
        Command::Go(Go::Show(Shown::Injected))
    } else if is(word, b"first") {
        Command::Go(Go::First)
    } else if is(word, b"site") {
        Command::Tell(Tell::Site)
    } else if is(word, b"diff") {
        Command::Tell(Tell::Differences)
    } else if is(word, b"output") {
        Command::Tell(Tell::Output)
    } else if is(word, b"help") {
        Command::Tell(Tell::Advice(Advice::Commands))
    } else {
        Command::Tell(Tell::Advice(Advice::NoCommand))
    }
}

fn monitor_word(word: &[u8]) -> Command
    ensures { result ≡ spec.monitor_word word.now }
{
    if begins(word, b"goto ") {
        go_to(word)
    } else if begins(word, b"last-write x") {
        register_asked(word)
    } else if begins(word, b"last-write") {
        Command::Tell(Tell::Advice(Advice::NoRegister))
    } else {
        plain_word(word)
    }
}

/// Returns what a person asks, in hexadecimal digits.
///
/// # Errors
///
/// `NoMemory` if memory is refused.
pub(crate) fn monitor(alloc: Global, digits: &[u8]) -> Result<Command, NoMemory>
    ensures { IfOk result (λ k. k ≡ spec.monitor_of (decode_of digits.now)) }
{
    match decode(alloc, digits) {
        Ok(word) => Ok(monitor_word(word.as_slice())),
        Err(FromHexError::OutOfMemory) => Err(NoMemory),
        Err(_) => Ok(Command::Tell(Tell::Advice(Advice::NoCommand))),
    }
}
