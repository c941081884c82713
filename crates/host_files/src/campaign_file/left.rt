//! The state in which a command left the campaign file that it writes to. Before each write the file must still
//! be in it.
use super::read_again;
use byteorder::{ByteOrder, LittleEndian};
use gate_search::ClosedGate;
use keep_format::{CARD_START, CLOSED, OPEN};
use std::fs::File;
use std::io::{self, ErrorKind};

// The offset of the card's length.
const CARD_LEN_AT: u64 = 9;

// The longest front that is read: more than a header and the card of the largest memories need.
const MOST_FRONT: u64 = 524_288;

// The bytes of the front that are read at a time.
const PIECE: usize = 4096;

// The length of a batch's count of rows, which follows its gate.
const COUNT_LEN: usize = 2;

// The bytes that the hash takes at a time.
const WORD: usize = 8;

// The offset basis and the prime of the 64-bit hash FNV-1a, here over words in place of bytes.
const BASIS: u64 = 0xcbf2_9ce4_8422_2325;

const PRIME: u64 = 0x0000_0100_0000_01b3;

/// What is known of a file.
#[derive(Clone, Copy)]
pub(super) struct Left {
    len: u64,
    front: Front,
    // The closed gate after which the next batch is written.
    gate: Option<ClosedGate>,
    // The closed gate at the end of what is written after that one.
    next: Option<ClosedGate>,
    // The number of rows written there.
    rows: u32,
    // The number of rows after gates that this command opened.
    opened: u64,
}

// The header and the whole card, compared by a hash, which is made before each write. A change within one word of eight
// bytes changes the hash.
#[derive(Clone, Copy, PartialEq, Eq)]
struct Front {
    len: u64,
    hash: u64,
}

impl Left {
    /// Returns the present state of a file.
    pub(super) fn of(file: &File) -> io::Result<Left> {
        let len = file.metadata()?.len();
        Ok(Left {
            len,
            front: Front::of(file, len)?,
            gate: None,
            next: None,
            rows: 0,
            opened: 0,
        })
    }

    /// Returns the length in bytes.
    pub(super) fn len(&self) -> u64 {
        self.len
    }

    /// Returns the number of rows that this command has put after gates that it opened.
    pub(super) fn opened(&self) -> u64 {
        self.opened
    }

    /// Announces that rows will be added after this gate.
    pub(super) fn grow_behind(&mut self, gate: Option<ClosedGate>) {
        self.gate = gate;
    }

    /// Returns an error if the file is not as it was left: its length, its header and card, and the gate after
    /// which rows are added.
    pub(super) fn see(&self, file: &File) -> io::Result<()> {
        let same = file.metadata()?.len() == self.len
            && Front::of(file, self.len)? == self.front
            && has_gate(file, self.gate)?;
        if same {
            Ok(())
        } else {
            Err(io::Error::from(ErrorKind::ResourceBusy))
        }
    }

    /// Records that these bytes were written.
    pub(super) fn note(&mut self, file: &File, at: u64, bytes: &[u8]) -> io::Result<()> {
        let end = at.saturating_add(bytes.len() as u64);
        self.len = self.len.max(end);
        if at < self.front.len.max(CARD_START) {
            self.front = Front::of(file, self.len)?;
        }
        match bytes {
            [CLOSED] => self.gate = Some(ClosedGate {
                place: at,
                byte: CLOSED,
            }),
            [OPEN] => {
                self.gate = self.next.take();
                self.opened = self.opened.saturating_add(self.rows.into());
                self.rows = 0;
            }
            [low, high, .., last] => {
                self.next = Some(ClosedGate {
                    place: end - 1,
                    byte: *last,
                });
                self.rows = rows_in(at, *low, *high);
            }
            _ => {}
        }
        Ok(())
    }
}

// Returns the number of rows written after a gate: for a batch its count, and for the front of a file 0.
fn rows_in(at: u64, low: u8, high: u8) -> u32 {
    if at < CARD_START {
        0
    } else {
        LittleEndian::read_u16(&[low, high]).into()
    }
}

impl Front {
    // Returns the front of a file of `len` bytes.
    fn of(file: &File, len: u64) -> io::Result<Front> {
        let mut card_len = [0; 4];
        read_again(file, CARD_LEN_AT, &mut card_len)?;
        let end = CARD_START + u64::from(LittleEndian::read_u32(&card_len));
        let len = len.min(end).min(MOST_FRONT);
        Ok(Front {
            len,
            hash: hash_of(file, len)?,
        })
    }
}

// Returns a word of the hash: these bytes, at most eight, the first one as the lowest.
fn word_of(bytes: &[u8]) -> u64 {
    let mut word = [0; WORD];
    for (place, byte) in word.iter_mut().zip(bytes) {
        *place = *byte;
    }
    LittleEndian::read_u64(&word)
}

// Returns how many of `count` bytes that were read the hash takes, if `left` bytes are left: whole words, unless the
// last bytes are among them. So a read that is cut off does not change the hash.
fn taken_of(count: u64, left: u64) -> u64 {
    if count >= left {
        left
    } else {
        count - count % WORD as u64
    }
}

// Returns the hash of the first `len` bytes of a file, or of all if there are fewer.
fn hash_of(file: &File, len: u64) -> io::Result<u64> {
    let mut hash = BASIS;
    let mut at = 0;
    let mut piece = [0; PIECE];
    for _ in 0..len {
        let count = read_again(file, at, &mut piece)?;
        let taken = taken_of(count as u64, len.saturating_sub(at));
        let Some(bytes) = piece.get(..taken as usize) else {
            return Err(io::Error::from(ErrorKind::InvalidData));
        };
        if bytes.is_empty() {
            break;
        }
        for word in bytes.chunks(WORD) {
            hash = (hash ^ word_of(word)).wrapping_mul(PRIME);
        }
        at = at.saturating_add(taken);
    }
    Ok(hash)
}

// Returns whether a file has this gate, if one is known.
fn has_gate(file: &File, gate: Option<ClosedGate>) -> io::Result<bool> {
    let Some(gate) = gate else { return Ok(true) };
    let mut found = [0; 1];
    let count = read_again(file, gate.place, &mut found)?;
    Ok(count == 1 && found == [gate.byte])
}
