//! The entries of a symbol table, as in the ELF specification's chapter "Symbol Table".
ghost use Rattle.std.specs.Prelude.{◌≡◌, ◌+◌, ◌≤◌, length};
ghost use Rattle.elf_symbols.specs.Symbols.{symbol_entry, is_chosen, is_function};

use elf_loader::{half_at, word_at};

// Values of the low four bits of st_info.
const STT_OBJECT: u8 = 1;

const STT_FUNC: u8 = 2;

/// The length of an entry in bytes.
pub const SYMBOL_SIZE: u32 = 16;

// The section of a symbol that the image does not define.
const SHN_UNDEF: u16 = 0;

/// The fields of an entry (Elf32_Sym) that are used.
#[derive(Clone, Copy)]
pub struct SymbolEntry {
    pub st_name: u32,
    pub st_value: u32,
    pub st_size: u32,
    pub st_info: u8,
    pub st_shndx: u16,
}

/// Returns the entry of 16 bytes at offset `at`.
#[tactic(auto, unfolding(crate::specs::Symbols::symbol_entry))]
pub fn symbol_entry(file: &[u8], at: usize) -> SymbolEntry
    requires { at + 16 ≤ length file.now }
    ensures { result ≡ symbol_entry file.now at }
{
    SymbolEntry {
        st_name: word_at(file, at),
        st_value: word_at(file, at + 4),
        st_size: word_at(file, at + 8),
        st_info: file[at + 12],
        st_shndx: half_at(file, at + 14),
    }
}

impl SymbolEntry {
    /// Returns whether it is a function rather than an object.
    pub fn is_function(&self) -> bool
        ensures { result ≡ is_function self.now }
    {
        self.st_info & 0xF == STT_FUNC
    }

    /// Returns whether it is an object or a function, has bytes, and is defined in the image.
    #[tactic(auto, unfolding(crate::specs::Symbols::is_chosen))]
    pub fn is_chosen(&self) -> bool
        ensures { result ≡ is_chosen self.now }
    {
        (self.st_info & 0xF == STT_OBJECT || self.is_function())
            && self.st_size != 0
            && self.st_shndx != SHN_UNDEF
    }
}
