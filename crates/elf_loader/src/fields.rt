//! Little-endian fields of a file.
ghost use Rattle.std.specs.Prelude.{◌≡◌, ◌+◌, ◌≤◌, length};
ghost use Rattle.byteorder.specs.Endian.{little_bytes};
ghost use Rattle.elf_loader.specs.Image.{half_at, word_at};

use byteorder::{ByteOrder, LittleEndian};

/// Returns the number in the two bytes at an offset (Elf32_Half).
#[tactic(auto, unfolding(crate::specs::Image::half_at))]
pub fn half_at(file: &[u8], p: usize) -> u16
    requires { p + 2 ≤ length file.now }
    ensures { result ≡ half_at file.now p }
{
    LittleEndian::read_u16(&file[p..])
}

/// Returns the number in the four bytes at an offset (Elf32_Word, Elf32_Addr, Elf32_Off).
#[tactic(auto, unfolding(crate::specs::Image::word_at))]
pub fn word_at(file: &[u8], p: usize) -> u32
    requires { p + 4 ≤ length file.now }
    ensures { result ≡ word_at file.now p }
{
    LittleEndian::read_u32(&file[p..])
}

/// Returns the four bytes of a number (Elf32_Word, Elf32_Addr, Elf32_Off, an instruction).
pub fn bytes_of_word(number: u32) -> [u8; 4]
    ensures { result ≡ little_bytes 4 number }
{
    let mut bytes = [0; 4];
    LittleEndian::write_u32(&mut bytes, number);
    bytes
}
