//! Offsets and lengths of the parts of a campaign file.

/// An open gate: what follows it counts. Any other byte is a closed gate.
pub const OPEN: u8 = 0xA5;

/// A closed gate, as it is written.
pub const CLOSED: u8 = 0;

/// The version of the format.
pub(crate) const VERSION: u8 = 1;

/// The offset of the version, after the gate and the name.
pub(crate) const VERSION_AT: u64 = 8;

/// The offset of the card's length, after the gate, the name and the version.
pub(crate) const CARD_LEN_AT: usize = 9;

/// The offset of the card.
pub const CARD_START: u64 = 13;

/// The length of a batch's gate and count.
pub const BATCH_HEAD: usize = 3;

/// The length of a row.
pub const ROW_LEN: usize = 10;

/// The last byte of an old row: a trap of unknown kind.
pub(crate) const OLD_TRAP: u8 = 3;

/// The greatest last byte that has a meaning.
pub(crate) const LAST_BYTE: u8 = 7;
