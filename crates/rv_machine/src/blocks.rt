//! The blocks in which a machine's RAM is copied. A block is marked when it is written after RAM was as the case
//! has it; all others are still so. So two RAMs of a case differ only in blocks that one of them has marked, and
//! only those are copied when one takes over the other.

ghost use Rattle.std.specs.Prelude.{ℕ, ◌≡◌, ◌+◌, ◌*◌, ◌/◌, ◌%◌, ◌^◌, ◌<◌, ◌≤◌, ◌↔◌, IsTrue, List, length, true, false, slice_index, slice_set};
ghost use Rattle.fs_model.specs.Memory.{count_of, with_number};
ghost use Rattle.fs_model.specs.Map.{max_ram};
ghost use Rattle.rv_machine.specs.Blocks.{HasMarks, IsPart};

use crate::memory::put_number;
use fs_model::Size;

/// The size of a block in bytes.
pub const BLOCK: usize = 512;

/// The number of blocks of the largest RAM.
pub(crate) const BLOCKS: usize = 128;

/// Marks the block of an offset in RAM.
#[inline(always)]
pub(crate) fn mark(marks: &mut [bool; BLOCKS], place: usize)
    requires { place < max_ram }
    ensures { marks.new ≡ slice_set marks.old (place / 512) true }
{
    marks[place / BLOCK] = true;
}

/// Stores the low bytes of the value at an aligned offset, and marks its block.
#[inline(always)]
pub(crate) fn put_marked(
    size: Size,
    ram: &mut [u8],
    marks: &mut [bool; BLOCKS],
    place: usize,
    value: u32,
)
    requires within { place + count_of size ≤ length ram.old }
    requires aligned { place % count_of size ≡ 0 }
    requires most { length ram.old ≤ max_ram }
    ensures ram { ram.new ≡ with_number size ram.old place value }
    ensures marks { (first : List ℕ) → HasMarks first ram.old marks.old → HasMarks first ram.new marks.new }
{
    mark(marks, place);
    put_number(size, ram, place, value);
}

// Copies the bytes from `at` on, before `end`.
fn copy_part(ram: &mut [u8], from: &[u8], at: usize, end: usize)
    requires order { at ≤ end }
    requires end { end ≤ length from.now }
    requires same { length ram.old ≡ length from.now }
    ensures length { length ram.new ≡ length ram.old }
    ensures part { IsPart ram.old from.now at end ram.new }
{
    ram[at..end].copy_from_slice(&from[at..end]);
}

/// Copies the bytes and marks of another RAM of the same case, whose initial bytes were `first`.
pub(crate) fn take_over(
    first: &[u8],
    ram: &mut [u8],
    marks: &mut [bool; BLOCKS],
    from: &[u8],
    from_marks: &[bool; BLOCKS],
)
    requires ram { HasMarks first.now ram.old marks.old }
    requires from { HasMarks first.now from.now from_marks.now }
    ensures ram { ram.new ≡ from.now }
    ensures marks { marks.new ≡ from_marks.now }
{
    let _ = first;
    let mut at = 0;
    while at < ram.len() {
        let end = usize::min(at + BLOCK, ram.len());
        if marks[at / BLOCK] || from_marks[at / BLOCK] {
            copy_part(ram, from, at, end);
        }
        at += BLOCK;
    }
    *marks = *from_marks;
}

/// Returns whether the block that begins at `at` was written in neither of two RAMs of the same case, and so is
/// equal.
#[inline(always)]
pub(crate) fn is_untouched(
    first: &[u8],
    ram: &[u8],
    marks: &[bool; BLOCKS],
    other: &[u8],
    other_marks: &[bool; BLOCKS],
    at: usize,
) -> bool
    requires ram { HasMarks first.now ram.now marks.now }
    requires other { HasMarks first.now other.now other_marks.now }
    requires start { at % 512 ≡ 0 }
    requires within { at < length ram.now }
    ensures { result ≡ true → (p : ℕ) → at ≤ p → p < at + 512 → p < length ram.now → slice_index ram.now p ≡ slice_index other.now p }
{
    let _ = first;
    let _ = ram;
    let _ = other;
    !marks[at / BLOCK] && !other_marks[at / BLOCK]
}

// Returns whether the bytes from a block's start to its end are the same.
fn same_block(
    first: &[u8],
    ram: &[u8],
    marks: &[bool; BLOCKS],
    other: &[u8],
    other_marks: &[bool; BLOCKS],
    at: usize,
    end: usize,
) -> bool
    requires ram { HasMarks first.now ram.now marks.now }
    requires other { HasMarks first.now other.now other_marks.now }
    requires start { at % 512 ≡ 0 }
    requires some { at < end }
    requires most { end ≤ at + 512 }
    requires within { end ≤ length ram.now }
    ensures yes { result ≡ true → (p : ℕ) → at ≤ p → p < end → slice_index ram.now p ≡ slice_index other.now p }
    ensures no { result ≡ false → ram.now ≡ other.now → ⊥ }
{
    if is_untouched(first, ram, marks, other, other_marks, at) {
        return true;
    }
    ram[at..end] == other[at..end]
}

/// Returns whether the RAMs of two machines of the same case are equal. Does not read blocks that neither has
/// written.
pub(crate) fn same_ram(
    first: &[u8],
    ram: &[u8],
    marks: &[bool; BLOCKS],
    other: &[u8],
    other_marks: &[bool; BLOCKS],
) -> bool
    requires ram { HasMarks first.now ram.now marks.now }
    requires other { HasMarks first.now other.now other_marks.now }
    ensures { IsTrue result ↔ (ram.now ≡ other.now) }
{
    let mut at = 0;
    while at < ram.len() {
        let end = usize::min(at + BLOCK, ram.len());
        if !same_block(first, ram, marks, other, other_marks, at, end) {
            return false;
        }
        at += BLOCK;
    }
    true
}
