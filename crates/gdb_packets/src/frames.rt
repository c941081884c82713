//! The bytes of a packet that is sent, and the data of one that was received.
ghost use Rattle.std.specs.Prelude.{◌≡◌, ◌++◌, [], ◌∷◌, IfOk};
ghost use Rattle.std.specs.List.{flat_map};
ghost use Rattle.hex.specs.Hex.{encode_lower};
ghost use Rattle.gdb_packets.specs.Frames.{checksum, console, frame, unescaped};

use fs_model::NoMemory;
use hex::encode_to_slice;

/// The byte that announces an escaped byte, and the bits in which that byte differs from the meant one.
const ESCAPE: u8 = b'}';

const ESCAPED_BITS: u8 = 0x20;

/// Returns the checksum of the data of a packet.
pub(crate) fn checksum(payload: &[u8]) -> u8
    ensures { result ≡ checksum payload.now }
{
    let mut sum: u8 = 0;
    for byte in payload {
        sum = sum.wrapping_add(*byte);
    }
    sum
}

fn hex_byte(byte: u8) -> [u8; 2]
    ensures { result ≡ encode_lower (byte ∷ []) }
{
    let mut digits = [0; 2];
    match encode_to_slice([byte], &mut digits) {
        Ok(()) => {}
        Err(_) => unreachable!(),
    }
    digits
}

/// Appends two hexadecimal digits for each byte.
///
/// # Errors
///
/// `NoMemory` if memory is refused.
#[tactic(auto, unfolding(hex::specs::Hex::encode_with))]
pub fn push_hex(out: &mut Vec<u8>, bytes: &[u8]) -> Result<(), NoMemory>
    ensures { IfOk result (λ _. out.new.items ≡ out.old.items ++ encode_lower bytes.now) }
{
    for byte in bytes {
        out.extend_from_slice(&hex_byte(*byte))?;
    }
    Ok(())
}

/// Appends the packet with this data.
///
/// # Errors
///
/// `NoMemory` if memory is refused.
pub fn push_frame(out: &mut Vec<u8>, payload: &[u8]) -> Result<(), NoMemory>
    ensures { IfOk result (λ _. out.new.items ≡ out.old.items ++ frame payload.now) }
{
    out.push(b'$')?;
    out.extend_from_slice(payload)?;
    out.push(b'#')?;
    push_hex(out, &[checksum(payload)])
}

// Returns the data of the packet that shows a byte of the program's output.
#[tactic(auto, unfolding(hex::specs::Hex::encode_with))]
fn console_data(byte: u8) -> [u8; 3]
    ensures { result ≡ 79 ∷ encode_lower (byte ∷ []) }
{
    let digits = hex_byte(byte);
    [b'O', digits[0], digits[1]]
}

/// Appends a packet for each byte of the program's output, which shows it.
///
/// # Errors
///
/// `NoMemory` if memory is refused.
pub fn push_console(out: &mut Vec<u8>, bytes: &[u8]) -> Result<(), NoMemory>
    ensures { IfOk result (λ _. out.new.items ≡ out.old.items ++ flat_map console bytes.now) }
{
    for byte in bytes {
        push_frame(out, &console_data(*byte))?;
    }
    Ok(())
}

/// Appends the bytes that received data mean.
///
/// # Errors
///
/// `NoMemory` if memory is refused.
pub fn push_unescaped(out: &mut Vec<u8>, payload: &[u8]) -> Result<(), NoMemory>
    ensures { IfOk result (λ _. out.new.items ≡ out.old.items ++ unescaped payload.now) }
{
    let mut escaped = false;
    for byte in payload {
        if escaped {
            out.push(*byte ^ ESCAPED_BITS)?;
            escaped = false;
        } else if *byte == ESCAPE {
            escaped = true;
        } else {
            out.push(*byte)?;
        }
    }
    Ok(())
}
