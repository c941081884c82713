//! Names, and the string tables that have them.
ghost use Rattle.std.specs.Prelude.{◌≡◌, ◌≤◌, length};
ghost use Rattle.std.specs.List.{position_or_len};
ghost use Rattle.elf_symbols.specs.Names.{IsNameEnd, is_zero, name_at};

use std::marker::Model;

/// The name of a symbol: a part of the file's bytes, and not a copy.
#[derive(Drop)]
pub struct Name<'a> {
    // The bytes of the string table from the name on.
    from: &'a [u8],
}

impl<'a> Model for Name<'a> {
    ghost use Rattle.std.specs.Prelude.{ℕ, List};

    ghost Value = { List ℕ };

    ghost use Rattle.elf_symbols.specs.Names.{before_zero};

    ghost view = { λ n. before_zero n.from.now };
}

impl<'a> Name<'a> {
    /// Returns the bytes of the name, before the first 0 byte.
    pub fn bytes(&self) -> &'a [u8]
        ensures { result.now ≡ self.now }
    {
        let from = self.from;
        &from[..first_zero(from)]
    }
}

/// The bytes of a string table, and the offset after its last 0 byte.
#[derive(Drop)]
pub struct Strings<'a> {
    bytes: &'a [u8],
    end: usize,
}

impl<'a> Model for Strings<'a> {
    ghost use Rattle.std.specs.Prelude.{ℕ, List};
    ghost use Rattle.elf_symbols.specs.Names.{IsNameEnd};

    ghost Value = { List ℕ };

    ghost view = { λ s. s.bytes.now };

    ghost invariant = { λ s. IsNameEnd s.bytes.now s.end };
}

impl<'a> Strings<'a> {
    /// Returns the string table with these bytes. It reads them once, so that no name must be read to know that
    /// it ends.
    pub fn new(bytes: &'a [u8]) -> Strings<'a>
        ensures { result ≡ bytes.now }
    {
        Strings {
            bytes,
            end: end_of_last(bytes),
        }
    }

    /// Returns the name at an offset, if it begins and ends in the table.
    #[tactic(auto, unfolding(crate::specs::Names::name_at))]
    pub fn name_at(&self, place: u32) -> Option<Name<'a>>
        ensures { result ≡ name_at self.now place }
    {
        let bytes = self.bytes;
        let place = place as usize;
        if place < self.end {
            Some(Name {
                from: &bytes[place..],
            })
        } else {
            None
        }
    }
}

// Returns the number of bytes before the first 0 byte.
fn first_zero(bytes: &[u8]) -> usize
    ensures within { result ≤ length bytes.now }
    ensures first { result ≡ position_or_len is_zero bytes.now }
{
    for (place, byte) in bytes.iter().enumerate() {
        if *byte == 0 {
            return place;
        }
    }
    bytes.len()
}

// Returns the offset after the last 0 byte.
fn end_of_last(bytes: &[u8]) -> usize
    ensures { IsNameEnd bytes.now result }
{
    let mut end = bytes.len();
    while end > 0 {
        if bytes[end - 1] == 0 {
            return end;
        }
        end -= 1;
    }
    end
}
