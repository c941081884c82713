//! Arithmetic on words of 32 bits, as defined by RV32I and the M extension.

ghost use Rattle.std.specs.Prelude.{◌≡◌, ◌+◌, ◌-◌, ◌^◌, ◌<◌, ◌≤◌, ◌≤ℤ◌, ◌<ℤ◌, pos, negsuc};
ghost use Rattle.fs_model.specs.Word.{signed, shift_right_signed, one_if, less_signed, high_signed, high_mixed};
ghost use Rattle.fs_model.specs.Word.{high_unsigned, quotient_signed, remainder_signed, quotient, remainder};
ghost use Rattle.std.specs.Int.{w32, cast_unsigned, int_shr};

#[inline(always)]
pub(crate) fn one_if(test: bool) -> u32
    ensures { result ≡ one_if test }
{
    if test { 1 } else { 0 }
}

#[inline(always)]
pub(crate) fn less_signed(a: u32, b: u32) -> bool
    ensures { result ≡ less_signed a b }
{
    a.cast_signed() < b.cast_signed()
}

#[inline(always)]
pub(crate) fn shift_right_signed(a: u32, count: u32) -> u32
    ensures { result ≡ shift_right_signed a count }
{
    a.cast_signed().wrapping_shr(count).cast_unsigned()
}

// Returns the upper 32 bits.
#[inline(always)]
fn high_half(product: i64) -> u32
    ensures { result ≡ cast_unsigned w32 (int_shr product 32) }
{
    ((product >> 32) as i32).cast_unsigned()
}

#[inline(always)]
pub(crate) fn high_signed(a: u32, b: u32) -> u32
    ensures { result ≡ high_signed a b }
{
    high_half(a.cast_signed() as i64 * b.cast_signed() as i64)
}

// Returns the word as a signed number. With a cast, the compiler would compute one that MULH and MULHSU share
// before every instruction.
#[inline(always)]
fn signed(a: u32) -> i64
    ensures value { result ≡ signed a }
    ensures low { negsuc (2 ^ 31 - 1) ≤ℤ result }
    ensures high { result <ℤ pos (2 ^ 31) }
{
    if a < 0x8000_0000 {
        a as i64
    } else {
        a as i64 - 0x1_0000_0000
    }
}

#[inline(always)]
pub(crate) fn high_mixed(a: u32, b: u32) -> u32
    ensures { result ≡ high_mixed a b }
{
    high_half(signed(a) * b as i64)
}

#[inline(always)]
pub(crate) fn high_unsigned(a: u32, b: u32) -> u32
    ensures { result ≡ high_unsigned a b }
{
    ((a as u64 * b as u64) >> 32) as u32
}

#[inline(always)]
pub(crate) fn quotient_signed(a: u32, b: u32) -> u32
    ensures { result ≡ quotient_signed a b }
{
    if b == 0 {
        u32::MAX
    } else {
        a.cast_signed()
            .wrapping_div(b.cast_signed())
            .cast_unsigned()
    }
}

#[inline(always)]
pub(crate) fn remainder_signed(a: u32, b: u32) -> u32
    ensures { result ≡ remainder_signed a b }
{
    if b == 0 {
        a
    } else {
        a.cast_signed()
            .wrapping_rem(b.cast_signed())
            .cast_unsigned()
    }
}

#[inline(always)]
pub(crate) fn quotient(a: u32, b: u32) -> u32
    ensures { result ≡ quotient a b }
{
    if b == 0 { u32::MAX } else { a / b }
}

#[inline(always)]
pub(crate) fn remainder(a: u32, b: u32) -> u32
    ensures { result ≡ remainder a b }
{
    if b == 0 { a } else { a % b }
}
