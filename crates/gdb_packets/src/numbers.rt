//! Numbers in packets.
ghost use Rattle.std.specs.Prelude.{◌≡◌, ◌≤◌};
ghost use Rattle.hex.specs.Hex.{hex_digit_value};
ghost use Rattle.gdb_packets.specs.Frames as spec;

fn digit_value(byte: u8) -> Option<u8>
    ensures { result ≡ hex_digit_value byte }
{
    match byte {
        b'0'..=b'9' => Some(byte - b'0'),
        b'a'..=b'f' => Some(byte - b'a' + 10),
        b'A'..=b'F' => Some(byte - b'A' + 10),
        _ => None,
    }
}

// Returns the number with one more digit.
fn with_digit(base: u32, number: u32, digit: u8) -> Option<u32>
    requires { base ≤ 16 }
    ensures { result ≡ spec.with_digit base number digit }
{
    let more = number as u64 * base as u64 + digit as u64;
    if (digit as u32) < base && more <= u32::MAX as u64 {
        Some(more as u32)
    } else {
        None
    }
}

/// Returns the number that one or more digits write in this base, if it fits 32 bits.
pub fn number_in(base: u32, digits: &[u8]) -> Option<u32>
    requires { base ≤ 16 }
    ensures { result ≡ spec.number base digits.now }
{
    if digits.is_empty() {
        return None;
    }
    let mut number: u32 = 0;
    for byte in digits {
        number = with_digit(base, number, digit_value(*byte)?)?;
    }
    Some(number)
}
