//! A reader that is fed byte by byte.
ghost use Rattle.std.specs.Prelude.{◌≡◌, ◌-◌, ◌≤◌, [], ◌∷◌, ◌++◌, IfOk, false, length, take};
ghost use Rattle.gdb_packets.specs.Reading.{data_in, fed, heard_byte, heard_between, heard_in, is_full, is_right, is_whole_packet};

use crate::frames::checksum;
use crate::numbers::number_in;
use fs_model::NoMemory;
use std::alloc::Global;
use std::marker::Model;

/// The most bytes of data in a packet, as `qSupported` states it: hexadecimal 1000.
pub const PACKET_SIZE: usize = 4096;

// The bytes that follow the data: `#` and two digits.
const END: usize = 3;

/// What a byte told.
#[derive(Clone, Copy, Debug, PartialEq, Eq)]
pub enum Heard {
    /// Nothing yet.
    Nothing,
    /// A packet with a right checksum.
    Packet,
    /// A packet with a wrong checksum, or one that is too long.
    Broken,
    /// The interrupt byte, between packets.
    Interrupt,
    /// The request to send the last packet again, between packets.
    Again,
}

/// A reader of packets. It takes its memory when it is made.
#[derive(Drop)]
pub struct Reader {
    reading: bool,
    raw: Vec<u8>,
}

impl Model for Reader {
    ghost use Rattle.gdb_packets.specs.Reading.{ReaderData};

    ghost Value = { ReaderData };

    ghost view = { λ r. record { reading = r.reading; raw = r.raw.items } };
}

// Returns whether the bytes after a `$` end with `#` and two more bytes.
fn is_whole(raw: &[u8]) -> bool
    ensures { result ≡ is_whole_packet raw.now }
{
    raw.len() >= END && raw[raw.len() - END] == b'#'
}

fn is_full(raw: &[u8]) -> bool
    ensures { result ≡ is_full raw.now }
{
    raw.len() >= PACKET_SIZE + END
}

fn data_in(raw: &[u8]) -> &[u8]
    ensures { result.now ≡ data_in raw.entry.now }
{
    &raw[..raw.len().saturating_sub(END)]
}

// Returns whether the two digits write the checksum.
fn is_right(raw: &[u8]) -> bool
    requires { 3 ≤ length raw.now }
    ensures { result ≡ is_right raw.now }
{
    match number_in(16, &raw[raw.len() - 2..]) {
        Some(sum) => sum == checksum(data_in(raw)) as u32,
        None => false,
    }
}

fn heard_in(raw: &[u8]) -> Heard
    ensures { result ≡ heard_in raw.now }
{
    if is_whole(raw) {
        if is_right(raw) {
            Heard::Packet
        } else {
            Heard::Broken
        }
    } else if is_full(raw) {
        Heard::Broken
    } else {
        Heard::Nothing
    }
}

fn heard_between(byte: u8) -> Heard
    ensures { result ≡ heard_between byte }
{
    if byte == 3 {
        Heard::Interrupt
    } else if byte == b'-' {
        Heard::Again
    } else {
        Heard::Nothing
    }
}

impl Reader {
    /// Returns a reader between packets.
    ///
    /// # Errors
    ///
    /// `NoMemory` if memory is refused.
    pub fn new(alloc: Global) -> Result<Reader, NoMemory>
        ensures { IfOk result (λ r. r ≡ record { reading = false; raw = [] }) }
    {
        Ok(Reader {
            reading: false,
            raw: Vec::with_capacity(alloc, PACKET_SIZE + END)?,
        })
    }

    /// Takes one byte, and returns what it told.
    ///
    /// # Errors
    ///
    /// `NoMemory` if memory is refused.
    pub fn feed(&mut self, byte: u8) -> Result<Heard, NoMemory>
        ensures heard { IfOk result (λ told. told ≡ heard_byte self.old byte) }
        ensures reader { IfOk result (λ _. self.new ≡ fed self.old byte) }
    {
        if byte == b'$' {
            self.raw.clear();
            self.reading = true;
            return Ok(Heard::Nothing);
        }
        if !self.reading {
            return Ok(heard_between(byte));
        }
        self.raw.push(byte)?;
        let raw = self.raw.as_slice();
        self.reading = !(is_whole(raw) || is_full(raw));
        Ok(heard_in(raw))
    }

    /// Returns the data of the packet that was read last, with its escapes.
    pub fn data(&self) -> &[u8]
        ensures { result.now ≡ data_in self.now.raw }
    {
        data_in(self.raw.as_slice())
    }
}
