//! How registers move from round to round of a loop.

ghost use Rattle.std.specs.Prelude.{ℕ, true, ◌≡◌, ◌+◌, ◌-◌, ◌*◌, ◌%◌, ◌⊎◌, ◌^◌, ◌<◌, ◌≤◌, IfSome, bit_and};
ghost use Rattle.fs_model.specs.Word.{plus, minus, shift_left};
ghost use Rattle.counting_loops.specs.Paces.{MovedBy, IsBetween};

/// How a register at one place of a loop moves from round to round.
#[derive(Clone, Copy, PartialEq, Eq, Debug)]
pub(crate) enum Pace {
    /// By this number each round, modulo 2^32.
    By(u32),
    Unknown,
}

/// What a register holds at one place of a loop: a number in the first round, and its pace from there on.
#[derive(Clone, Copy, Debug)]
pub(crate) struct Moving {
    pub(crate) first: u32,
    pub(crate) pace: Pace,
}

/// The least and the greatest of some numbers.
#[derive(Clone, Copy, Debug)]
pub(crate) struct Range {
    pub(crate) least: u32,
    pub(crate) most: u32,
}

/// Returns the pace of a sum.
pub(crate) fn sum(a: Pace, b: Pace) -> Pace
    ensures { (i p q x y : ℕ) → MovedBy a i p x → MovedBy b i q y → MovedBy result i (plus p q) (plus x y) }
{
    match (a, b) {
        (Pace::By(d), Pace::By(e)) => Pace::By(d.wrapping_add(e)),
        _ => Pace::Unknown,
    }
}

/// Returns the pace of a difference.
pub(crate) fn difference(a: Pace, b: Pace) -> Pace
    ensures { (i p q x y : ℕ) → q < 2 ^ 32 → MovedBy a i p x → MovedBy b i q y → MovedBy result i (minus p q) (minus x y) }
{
    match (a, b) {
        (Pace::By(d), Pace::By(e)) => Pace::By(d.wrapping_sub(e)),
        _ => Pace::Unknown,
    }
}

/// Returns the pace of a register that is shifted left.
pub(crate) fn shifted(a: Pace, count: u32) -> Pace
    ensures { (i p x : ℕ) → MovedBy a i p x → MovedBy result i (shift_left p count) (shift_left x count) }
{
    match a {
        Pace::By(d) => Pace::By(d.wrapping_shl(count)),
        Pace::Unknown => Pace::Unknown,
    }
}

/// Returns a number that is the same in every round.
pub(crate) fn fixed(number: u32) -> Moving
    ensures first { result.first ≡ number }
    ensures each { (i : ℕ) → MovedBy result.pace i result.first number }
{
    Moving {
        first: number,
        pace: Pace::By(0),
    }
}

/// Returns the pace of the bits of a number that a mask has: they are fixed if the mask has only low bits, and the
/// number moves by a multiple of the next one.
pub(crate) fn masked(a: Moving, mask: u32) -> Pace
    ensures { (result ≡ Pace.Unknown) ⊎ ((result ≡ Pace.By 0) × ((i x : ℕ) → MovedBy a.pace i a.first x → bit_and x mask ≡ bit_and a.first mask)) }
{
    let Pace::By(step) = a.pace else {
        return Pace::Unknown;
    };
    if step == 0 {
        return Pace::By(0);
    }
    let count = mask.trailing_ones();
    if count < 32 && is_low_mask(mask, step, count) {
        Pace::By(0)
    } else {
        Pace::Unknown
    }
}

// Returns whether the mask has just the lowest `count` bits, and the step is a multiple of the next one.
fn is_low_mask(mask: u32, step: u32, count: u32) -> bool
    requires { count < 32 }
    ensures mask { result ≡ true → mask ≡ 2 ^ count - 1 }
    ensures step { result ≡ true → step % 2 ^ count ≡ 0 }
{
    let next = 1u32 << count;
    mask == next - 1 && step % next == 0
}

impl Moving {
    /// Returns whether every round has the same number.
    pub(crate) fn is_fixed(self) -> bool
        ensures { result ≡ true → (i x : ℕ) → MovedBy self.pace i self.first x → x ≡ self.first }
    {
        match self.pace {
            Pace::By(step) => step == 0,
            Pace::Unknown => false,
        }
    }

    /// Returns the number after a fixed one is added.
    pub(crate) fn plus(self, other: u32) -> Moving
        ensures first { result.first ≡ plus self.first other }
        ensures each { (i x : ℕ) → MovedBy self.pace i self.first x → MovedBy result.pace i result.first (plus x other) }
    {
        Moving {
            first: self.first.wrapping_add(other),
            pace: self.pace,
        }
    }

    /// Returns the least and the greatest number in the rounds up to `last`, unless the number wraps on the way.
    pub(crate) fn range(self, last: u32) -> Option<Range>
        ensures { IfSome result (λ r. (i x : ℕ) → i ≤ last → MovedBy self.pace i self.first x → IsBetween r x) }
    {
        let Pace::By(step) = self.pace else {
            return None;
        };
        if step < 0x8000_0000 {
            rising(self.first, step, last)
        } else {
            falling(self.first, step, last)
        }
    }
}

// Returns the range of a number that rises by `step`.
fn rising(first: u32, step: u32, last: u32) -> Option<Range>
    ensures { IfSome result (λ r. (i x : ℕ) → i ≤ last → MovedBy (Pace.By step) i first x → IsBetween r x) }
{
    let way = step as u64 * last as u64;
    if way <= (u32::MAX - first) as u64 {
        Some(Range {
            least: first,
            most: first + way as u32,
        })
    } else {
        None
    }
}

// Returns the range of a number that falls, by 2^32 less `step`.
fn falling(first: u32, step: u32, last: u32) -> Option<Range>
    requires { 0 < step }
    ensures { IfSome result (λ r. (i x : ℕ) → i ≤ last → MovedBy (Pace.By step) i first x → IsBetween r x) }
{
    let fall = u32::MAX - step + 1;
    let way = fall as u64 * last as u64;
    if way <= first as u64 {
        Some(Range {
            least: first - way as u32,
            most: first,
        })
    } else {
        None
    }
}
