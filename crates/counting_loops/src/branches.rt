//! Branches that turn the same way in every round.

ghost use Rattle.std.specs.Prelude.{ℕ, true, ◌≡◌, ◌==◌, ◌≤◌};
ghost use Rattle.fs_model.specs.Word.{less, less_signed};
ghost use Rattle.counting_loops.specs.Paces.{MovedBy};

use crate::paces::{Moving, Pace, difference};

// The number that turns signed order into unsigned order when it is added.
const SIGN: u32 = 0x8000_0000;

/// Returns whether two numbers are equal in every round up to `last`, or in none, as in the first one. The result
/// `false` means nothing.
pub(crate) fn equality_stays(a: Moving, b: Moving, last: u32) -> bool
    ensures { result ≡ true → (i x y : ℕ) → i ≤ last → MovedBy a.pace i a.first x → MovedBy b.pace i b.first y → (x == y) ≡ (a.first == b.first) }
{
    let (Pace::By(_), Pace::By(_)) = (a.pace, b.pace) else {
        return false;
    };
    let gap = Moving {
        first: a.first.wrapping_sub(b.first),
        pace: difference(a.pace, b.pace),
    };
    if gap.is_fixed() {
        return true;
    }
    match gap.range(last) {
        Some(range) => range.least > 0,
        None => false,
    }
}

/// Returns whether `a` is less than `b` in every round up to `last`, or in none, as in the first one. The result
/// `false` means nothing.
pub(crate) fn order_stays(a: Moving, b: Moving, last: u32) -> bool
    ensures { result ≡ true → (i x y : ℕ) → i ≤ last → MovedBy a.pace i a.first x → MovedBy b.pace i b.first y → less x y ≡ less a.first b.first }
{
    if a.is_fixed() && b.is_fixed() {
        return true;
    }
    match (a.range(last), b.range(last)) {
        (Some(low), Some(high)) => low.most < high.least || high.most <= low.least,
        _ => false,
    }
}

/// Does the same for signed numbers.
pub(crate) fn signed_order_stays(a: Moving, b: Moving, last: u32) -> bool
    ensures { result ≡ true → (i x y : ℕ) → i ≤ last → MovedBy a.pace i a.first x → MovedBy b.pace i b.first y → less_signed x y ≡ less_signed a.first b.first }
{
    let (Pace::By(_), Pace::By(_)) = (a.pace, b.pace) else {
        return false;
    };
    order_stays(a.plus(SIGN), b.plus(SIGN), last)
}
