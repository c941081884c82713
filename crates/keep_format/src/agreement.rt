//! Agreement of rows with the same name.
ghost use Rattle.std.specs.Prelude.{◌≡◌};
ghost use Rattle.keep_format.specs.KeepFile.{agree, is_trap};
ghost use Rattle.keep_format.specs.Marks.{apart_in, marked};

use crate::layout::OLD_TRAP;

/// A row of a name: its offset and its last byte.
#[derive(Clone, Copy)]
pub(crate) struct Mark {
    pub(crate) at: u64,
    pub(crate) byte: u8,
}

/// The first row of a name, and the first of that name with another byte.
#[derive(Clone, Copy)]
pub(crate) struct Marks {
    pub(crate) first: Mark,
    pub(crate) other: Option<Mark>,
}

fn is_trap(byte: u8) -> bool
    ensures { result ≡ is_trap byte }
{
    byte == 5 || byte == 6 || byte == 7
}

/// Returns whether two rows of one name agree: their bytes are equal, or one row is old and the other a trap.
pub(crate) fn agree(a: u8, b: u8) -> bool
    ensures { result ≡ agree a b }
{
    a == b || a == OLD_TRAP && is_trap(b) || b == OLD_TRAP && is_trap(a)
}

/// Returns the offset of the first row that disagrees with a byte.
pub(crate) fn apart_in(marks: Option<Marks>, byte: u8) -> Option<u64>
    ensures { result ≡ apart_in marks byte }
{
    let marks = marks?;
    if !agree(marks.first.byte, byte) {
        return Some(marks.first.at);
    }
    let other = marks.other?;
    if agree(other.byte, byte) {
        return None;
    }
    Some(other.at)
}

/// Returns the marks of a name after one more row, which agrees with the earlier ones.
pub(crate) fn marked(marks: Option<Marks>, row: Mark) -> Marks
    ensures { result ≡ marked marks row }
{
    match marks {
        None => Marks {
            first: row,
            other: None,
        },
        Some(marks) => {
            if marks.first.byte == row.byte || marks.other.is_some() {
                marks
            } else {
                Marks {
                    first: marks.first,
                    other: Some(row),
                }
            }
        }
    }
}
