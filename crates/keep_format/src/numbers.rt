//! Little-endian numbers in the file.
ghost use Rattle.std.specs.Prelude.{◌≡◌, ◌+◌, ◌<◌, ◌≤◌, length};
ghost use Rattle.fs_model.specs.declared.instructions.Size.TheVariants.{Half, Word};
ghost use Rattle.fs_model.specs.Card.{four_bytes};
ghost use Rattle.keep_format.specs.KeepFile.{two_bytes};
ghost use Rattle.fs_model.specs.Memory.{number_at};

use byteorder::{ByteOrder, LittleEndian};

/// Returns the number in the two bytes at an offset.
pub(crate) fn half_at(bytes: &[u8], at: usize) -> u16
    requires { at + 2 ≤ length bytes.now }
    ensures { result ≡ number_at Half bytes.now at }
{
    LittleEndian::read_u16(&bytes[at..])
}

/// Returns the number in the four bytes at an offset.
pub(crate) fn word_at(bytes: &[u8], at: usize) -> u32
    requires { at + 4 ≤ length bytes.now }
    ensures { result ≡ number_at Word bytes.now at }
{
    LittleEndian::read_u32(&bytes[at..])
}

pub(crate) fn bytes_of_half(number: u16) -> [u8; 2]
    ensures { result ≡ two_bytes number }
{
    let mut bytes = [0; 2];
    LittleEndian::write_u16(&mut bytes, number);
    bytes
}

pub(crate) fn bytes_of_word(number: u32) -> [u8; 4]
    ensures { result ≡ four_bytes number }
{
    let mut bytes = [0; 4];
    LittleEndian::write_u32(&mut bytes, number);
    bytes
}
