//! Numbers on the command line.
ghost use Rattle.std.specs.Prelude.{◌≡◌, ◌≤◌, ◌^◌, ◌-◌, None, MatchOption, ◌∷◌, ◌<◌, option_map};
ghost use Rattle.command_line.specs.Number.{after_x, decimal, hex_digits, number, numeral, within};

// Returns the number that 1 to `most` digits write in this base, if it fits 64 bits.
fn read_numeral(base: u32, most: usize, digits: &str) -> Option<u64>
    requires least { 2 ≤ base }
    requires most { base ≤ 36 }
    ensures { result ≡ within 0 (2 ^ 64 - 1) (numeral base most digits.now) }
{
    if digits.len() > most || digits.starts_with('+') {
        return None;
    }
    u64::from_str_radix(digits, base).ok()
}

// Returns what follows a leading `x` or `X`.
fn after_x_of(rest: &str) -> Option<&str>
    ensures { option_map (λ s. s.now) result ≡ after_x rest.now }
{
    match rest.strip_prefix('x') {
        Some(digits) => Some(digits),
        None => rest.strip_prefix('X'),
    }
}

// Returns what follows a leading `0x` or `0X`.
fn hex_digits_of(text: &str) -> Option<&str>
    ensures { option_map (λ s. s.now) result ≡ hex_digits text.now }
{
    after_x_of(text.strip_prefix('0')?)
}

// Returns the number that the decimal digits of the text write, if it fits 64 bits.
fn read_decimal(text: &str) -> Option<u64>
    ensures { result ≡ within 0 (2 ^ 64 - 1) (decimal text.now) }
{
    read_numeral(10, 20, text)
}

// Returns the number that the text writes, if it fits 64 bits.
fn read_number(text: &str) -> Option<u64>
    ensures { result ≡ within 0 (2 ^ 64 - 1) (number text.now) }
{
    match hex_digits_of(text) {
        Some(digits) => read_numeral(16, 16, digits),
        None => read_decimal(text),
    }
}

// Returns the number that was read, if it lies in the range.
fn within_range(least: u64, most: u64, read: Option<u64>) -> Option<u64>
    ensures { result ≡ within least most read }
{
    match read {
        Some(found) if least <= found && found <= most => Some(found),
        _ => None,
    }
}

/// Returns the number that the text writes, in decimal or hexadecimal digits, if it lies in the range.
#[tactic(auto, using(crate::proofs::NumberLemmas::within_wider))]
pub fn number_in(least: u64, most: u64, text: &str) -> Option<u64>
    ensures { result ≡ within least most (number text.now) }
{
    within_range(least, most, read_number(text))
}

/// Returns the number that the text writes in decimal digits, if it lies in the range.
pub(crate) fn decimal_in(least: u64, most: u64, text: &str) -> Option<u64>
    ensures { result ≡ within least most (decimal text.now) }
{
    within_range(least, most, read_decimal(text))
}
