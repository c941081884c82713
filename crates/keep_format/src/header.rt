//! Reading the header of a campaign file.
ghost use Rattle.std.specs.Prelude.{◌≡◌, ◌≤◌, length, min};
ghost use Rattle.keep_format.specs.KeepFile.{header_in, header_of};

use crate::fault::FormatFault;
use crate::layout::{CARD_LEN_AT, CARD_START, VERSION, VERSION_AT};
use crate::numbers::word_at;

/// The header before the batches. Places are offsets in the file.
#[derive(Clone, Copy, PartialEq, Eq, Debug)]
pub struct Header {
    pub card_start: u64,
    /// The length of the card in bytes.
    pub card_len: u32,
    /// The offset of the first batch's gate.
    pub gate: u64,
}

/// Returns the header of a file of `len` bytes, or its first fault. `front` has the bytes before the card, or
/// all bytes. The file has the whole card and the first gate.
pub fn header_by_front(front: &[u8], len: u64) -> Result<Header, FormatFault>
    requires { min 13 len ≤ length front.now }
    ensures { result ≡ header_in front.now len }
{
    match front {
        [0xA5, 0x46, 0x41, 0x49, 0x4C, 0x43, 0x4D, 0x50, ..] => {}
        _ => return Err(FormatFault::NotACampaign),
    }
    if VERSION_AT < len && front[VERSION_AT as usize] != VERSION {
        return Err(FormatFault::Version);
    }
    if len < CARD_START {
        return Err(FormatFault::Cut);
    }
    let card_len = word_at(front, CARD_LEN_AT);
    let gate = CARD_START + card_len as u64;
    if len <= gate {
        return Err(FormatFault::Cut);
    }
    Ok(Header {
        card_start: CARD_START,
        card_len,
        gate,
    })
}

/// Returns the header of a file, or its first fault. The file has the whole card and the first gate.
pub fn read_header(file: &[u8]) -> Result<Header, FormatFault>
    ensures { result ≡ header_of file.now }
{
    header_by_front(file, file.len() as u64)
}
