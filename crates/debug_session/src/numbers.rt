//! The bytes of a number, in the order in which GDB wants them.
ghost use Rattle.std.specs.Prelude.{◌≡◌};
ghost use Rattle.std.specs.Int.{w32, to_be_bytes, to_le_bytes};

use byteorder::{BigEndian, ByteOrder, LittleEndian};

/// Returns the bytes of an address, which GDB writes with its highest digit first.
pub(crate) fn address_bytes(number: u32) -> [u8; 4]
    ensures { result ≡ to_be_bytes w32 number }
{
    let mut bytes = [0; 4];
    BigEndian::write_u32(&mut bytes, number);
    bytes
}

/// Returns the bytes of a register, in the order of the target's memory.
pub(crate) fn register_bytes(number: u32) -> [u8; 4]
    ensures { result ≡ to_le_bytes w32 number }
{
    let mut bytes = [0; 4];
    LittleEndian::write_u32(&mut bytes, number);
    bytes
}
