//! The bytes in which a memory differs from another.

ghost use Rattle.std.specs.Prelude.{◌≡◌, ◌-◌, ◌^◌, ◌≤◌, length, true};
ghost use Rattle.known_states.specs.Changes.{IsAdded, IsChanged};

/// A byte, and its offset.
#[derive(Clone, Copy, PartialEq, Eq, Drop)]
pub struct Change {
    pub place: u32,
    pub byte: u8,
}

// Adds the change of a byte if it differs. Returns false if there is no room.
fn add(changes: &mut Vec<Change>, place: u32, old: u8, byte: u8) -> bool
    ensures { result ≡ true → IsAdded place old byte changes.old.items changes.new.items }
{
    if old == byte {
        return true;
    }
    if changes.len() == changes.capacity() {
        return false;
    }
    changes.push(Change { place, byte }).is_ok()
}

// The number of bytes that are compared as one first.
const BLOCK: usize = 64;

// The number of bytes of a block that are compared as one, where a block differs.
const GROUP: usize = 8;

// Adds the changes of the bytes from `at` on, before `end`, one by one if any differs. Returns false if there is
// no room.
fn add_group(changes: &mut Vec<Change>, base: &[u8], now: &[u8], at: usize, end: usize) -> bool
    requires order { at ≤ end }
    requires end { end ≤ length now.now }
    requires same { length base.now ≡ length now.now }
    requires few { length now.now ≤ 2 ^ 32 - 1 }
    requires before { IsChanged base.now now.now changes.old.items at }
    ensures { result ≡ true → IsChanged base.now now.now changes.new.items end }
{
    if base[at..end] == now[at..end] {
        return true;
    }
    let mut place = at;
    while place < end {
        if !add(changes, place as u32, base[place], now[place]) {
            return false;
        }
        place += 1;
    }
    true
}

// Adds the changes of the bytes from `at` on, before `end`, group by group if any differs. Returns false if
// there is no room.
fn add_block(changes: &mut Vec<Change>, base: &[u8], now: &[u8], at: usize, end: usize) -> bool
    requires order { at ≤ end }
    requires end { end ≤ length now.now }
    requires same { length base.now ≡ length now.now }
    requires few { length now.now ≤ 2 ^ 32 - 1 }
    requires before { IsChanged base.now now.now changes.old.items at }
    ensures { result ≡ true → IsChanged base.now now.now changes.new.items end }
{
    if base[at..end] == now[at..end] {
        return true;
    }
    let mut from = at;
    while from < end {
        let next = usize::min(from + GROUP, end);
        if !add_group(changes, base, now, from, next) {
            return false;
        }
        from = next;
    }
    true
}

/// Adds the changes of the bytes from `at` on, before `end`, after those of all bytes below. Returns false if
/// there are more than the vector has room for.
pub(crate) fn add_changes(
    changes: &mut Vec<Change>,
    base: &[u8],
    now: &[u8],
    at: usize,
    end: usize,
) -> bool
    requires order { at ≤ end }
    requires end { end ≤ length now.now }
    requires same { length base.now ≡ length now.now }
    requires few { length now.now ≤ 2 ^ 32 - 1 }
    requires before { IsChanged base.now now.now changes.old.items at }
    ensures { result ≡ true → IsChanged base.now now.now changes.new.items end }
{
    // Most ranges are the same as a whole, which one comparison tells.
    if base[at..end] == now[at..end] {
        return true;
    }
    let mut from = at;
    while from < end {
        let next = usize::min(from + BLOCK, end);
        if !add_block(changes, base, now, from, next) {
            return false;
        }
        from = next;
    }
    true
}

/// Returns whether two lists of changes are equal.
pub(crate) fn same_changes(some: &[Change], others: &[Change]) -> bool
    ensures { result ≡ true → some.now ≡ others.now }
{
    some == others
}
