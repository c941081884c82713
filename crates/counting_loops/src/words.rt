//! Words of RAM at fixed addresses, which move from round to round as registers do.

ghost use Rattle.std.specs.Prelude.{ℕ, true, ◌≡◌, ◌≢◌, ◌+◌, ◌*◌, ◌^◌, ◌<◌, ◌≤◌, ◌⊎◌, length, slice_index_or, IfSome};
ghost use Rattle.fs_model.specs.Memory.{count_of};
ghost use Rattle.counting_loops.specs.Paces.{MovedBy};
ghost use Rattle.counting_loops.specs.Words.{ram_word, word_pace, IsOutsideRam, IsKnownLoad, Forgets, IsForgotten, IsPutAt, AfterStore};

use crate::accesses::count_of;
use crate::paces::{Moving, Pace, Range};
use fs_model::{Case, Size};

/// The number of words whose paces are known at most.
pub(crate) const WORDS: usize = 64;

/// A word of RAM, by its number, and how it moves from round to round.
#[derive(Clone, Copy, Debug)]
pub(crate) struct Held {
    pub(crate) word: u32,
    pub(crate) pace: Pace,
}

/// Nothing is known of any word.
pub(crate) const NO_WORD: Held = Held {
    word: 0,
    pace: Pace::Unknown,
};

/// Returns the pace of word `k`.
pub(crate) fn pace_of(held: &[Held; WORDS], k: u32) -> Pace
    ensures { result ≡ word_pace held.now k }
{
    let entry = held[k as usize % WORDS];
    if entry.word == k {
        entry.pace
    } else {
        Pace::Unknown
    }
}

/// Makes this the pace of word `k`. That of the word that was in its entry is then unknown.
pub(crate) fn put(held: &mut [Held; WORDS], k: u32, pace: Pace)
    ensures own { word_pace held.new k ≡ pace }
    ensures others { (j : ℕ) → j ≢ k → (word_pace held.new j ≡ Pace.Unknown) ⊎ (word_pace held.new j ≡ word_pace held.old j) }
{
    held[k as usize % WORDS] = Held { word: k, pace };
}

/// Returns word `k` of RAM, if there is one.
pub(crate) fn word_of(ram: &[u8], k: u32) -> Option<u32>
    ensures { IfSome result (λ v. v ≡ ram_word ram.now k) }
{
    let at = k as usize * 4;
    if at + 4 > ram.len() {
        return None;
    }
    Some(
        ram[at] as u32
            + ram[at + 1] as u32 * 256
            + ram[at + 2] as u32 * 65536
            + ram[at + 3] as u32 * 16777216,
    )
}

// Returns whether the four bytes from an address on are no bytes of RAM.
fn is_apart(case: &Case, at: u32) -> bool
    ensures { result ≡ true → IsOutsideRam case.now at }
{
    at as u64 + 4 <= case.ram_base() as u64
        || case.ram_base() as u64 + case.ram().len() as u64 <= at as u64
}

/// Returns the number of the word of RAM that the `count` bytes from an address on are in.
pub(crate) fn word_around(case: &Case, at: u32, count: u32) -> Option<u32>
    requires { count ≤ 4 }
    ensures around { IfSome result (λ k. (case.now.ram_base + 4 * k ≤ at) × (at + count ≤ case.now.ram_base + 4 * k + 4)) }
    ensures within { IfSome result (λ k. 4 * k + 4 ≤ length case.now.ram) }
{
    let place = at.checked_sub(case.ram_base())?;
    let k = place / 4;
    if place % 4 + count <= 4 && k as usize * 4 + 4 <= case.ram().len() {
        Some(k)
    } else {
        None
    }
}

/// Returns the pace of what a load from a fixed address gives.
pub(crate) fn loaded_pace(case: &Case, held: &[Held; WORDS], at: u32, size: Size) -> Pace
    ensures { (result ≡ Pace.Unknown) ⊎ IsKnownLoad case.now held.now size at result }
{
    if is_apart(case, at) {
        return Pace::By(0);
    }
    match (size, word_around(case, at, 4)) {
        (Size::Word, Some(k)) => pace_of(held, k),
        _ => Pace::Unknown,
    }
}

// Takes into account a store at a fixed address, of a number of this pace. Returns whether that is possible.
fn store_at(held: &mut [Held; WORDS], case: &Case, at: u32, size: Size, stored: Pace) -> bool
    ensures { result ≡ true → (k : ℕ) → 4 * k + 4 ≤ length case.now.ram
        → IsPutAt case.now size at stored k (word_pace held.old k) (word_pace held.new k) }
{
    if is_apart(case, at) {
        return true;
    }
    let Some(k) = word_around(case, at, count_of(size)) else {
        return false;
    };
    let pace = match size {
        Size::Word => stored,
        _ => Pace::Unknown,
    };
    put(held, k, pace);
    true
}

// Returns an entry, with an unknown pace if `count` bytes from an address in the range on may be in its word.
fn forgotten(entry: Held, base: u32, range: Range, count: u32) -> Held
    ensures { IsForgotten base count range entry result }
{
    let start = base as u64 + entry.word as u64 * 4;
    if start < range.most as u64 + count as u64 && (range.least as u64) < start + 4 {
        Held {
            word: entry.word,
            pace: Pace::Unknown,
        }
    } else {
        entry
    }
}

// Makes the paces of all words unknown in which `count` bytes from an address in the range on may be.
fn forget(held: &mut [Held; WORDS], base: u32, range: Range, count: u32)
    ensures { (k : ℕ) → Forgets base count range k (word_pace held.old k) (word_pace held.new k) }
{
    for j in 0..WORDS {
        held[j] = forgotten(held[j], base, range, count);
    }
}

/// Takes into account what the rounds up to `last` store, a number of this pace each. Returns whether that is possible.
pub(crate) fn store_in(
    held: &mut [Held; WORDS],
    case: &Case,
    at: Moving,
    size: Size,
    stored: Pace,
    last: u32,
) -> bool
    ensures { result ≡ true → (i x v w k : ℕ) → i ≤ last → MovedBy at.pace i at.first x → MovedBy stored i v w
        → 4 * k + 4 ≤ length case.now.ram → AfterStore case.now size i at.first x v w k (word_pace held.old k) (word_pace held.new k) }
{
    if at.is_fixed() {
        return store_at(held, case, at.first, size, stored);
    }
    match at.range(last) {
        Some(range) => {
            forget(held, case.ram_base(), range, count_of(size));
            true
        }
        None => false,
    }
}
