//! Loads and stores whose address is good in every round.

ghost use Rattle.std.specs.Prelude.{ℕ, true, ◌≡◌, ◌+◌, ◌%◌, ◌⊎◌, ◌^◌, ◌<◌, ◌≤◌};
ghost use Rattle.fs_model.specs.Memory.{count_of};
ghost use Rattle.counting_loops.specs.Paces.{MovedBy};
ghost use Rattle.counting_loops.specs.Steps.{IsInRange, IsReadable, IsStorable};

use crate::paces::{Moving, Pace};
use fs_model::{Case, Size};

/// Returns the number of bytes of an access.
pub(crate) fn count_of(size: Size) -> u32
    ensures { result ≡ count_of size }
{
    match size {
        Size::Byte => 1,
        Size::Half => 2,
        Size::Word => 4,
    }
}

// Returns whether a number is a multiple of `count` in every round.
fn stays_aligned(at: Moving, count: u32) -> bool
    requires { (count ≡ 1) ⊎ ((count ≡ 2) ⊎ (count ≡ 4)) }
    ensures { result ≡ true → (i x : ℕ) → MovedBy at.pace i at.first x → x % count ≡ 0 }
{
    match at.pace {
        Pace::By(step) => at.first % count == 0 && step % count == 0,
        Pace::Unknown => false,
    }
}

// Returns whether the `count` bytes from an address on lie in a region in every round up to `last`.
fn stays_within(base: u32, len: usize, at: Moving, count: u32, last: u32) -> bool
    requires count { (1 ≤ count) × (count ≤ 4) }
    requires end { base + len ≤ 2 ^ 32 }
    ensures { result ≡ true → (i x : ℕ) → i ≤ last → MovedBy at.pace i at.first x → IsInRange base len count x }
{
    match at.range(last) {
        Some(range) => {
            base <= range.least && range.most as u64 + count as u64 <= base as u64 + len as u64
        }
        None => false,
    }
}

/// Returns whether every round up to `last` stores at the address of the first one, or at one in RAM.
pub(crate) fn stays_writable(case: &Case, at: Moving, size: Size, last: u32) -> bool
    ensures { result ≡ true → (i x : ℕ) → i ≤ last → MovedBy at.pace i at.first x → (x ≡ at.first) ⊎ IsStorable case.now size x }
{
    case.facts();
    let count = count_of(size);
    at.is_fixed()
        || stays_aligned(at, count)
            && stays_within(case.ram_base(), case.ram().len(), at, count, last)
}

/// Returns whether every round up to `last` loads from the address of the first one, or from one in RAM or ROM.
pub(crate) fn stays_readable(case: &Case, at: Moving, size: Size, last: u32) -> bool
    ensures { result ≡ true → (i x : ℕ) → i ≤ last → MovedBy at.pace i at.first x → (x ≡ at.first) ⊎ IsReadable case.now size x }
{
    case.facts();
    let count = count_of(size);
    at.is_fixed()
        || stays_aligned(at, count)
            && (stays_within(case.ram_base(), case.ram().len(), at, count, last)
                || stays_within(case.rom_base(), case.rom().len(), at, count, last))
}
