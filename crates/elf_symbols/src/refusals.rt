//! Why the symbols of an image cannot be read.
ghost use Rattle.elf_symbols.specs.declared.refusals.SymbolRefusal.TheVariants.{NoMemory};

use std::alloc::AllocFailed;

/// Why the symbols of an image cannot be read. The fields are named as in the ELF specification's chapters "ELF
/// Header", "Sections" and "Symbol Table".
#[derive(Clone, Copy, PartialEq, Eq, Debug)]
pub enum SymbolRefusal {
    /// There are sections, and e_shentsize is not 40 or their headers end past the file; or the symbol table has
    /// entries whose size is not 16, or ends past the file; or it is linked to no section, or to one that is not
    /// a string table within the file.
    BadSections,
    /// The name of a function or an object begins outside the string table, or does not end in it.
    BadName,
    /// Memory for the list was refused.
    NoMemory,
}

impl<T: Drop> From<AllocFailed<T>> for SymbolRefusal {
    ghost use Rattle.std.specs.Prelude.{◌≡◌};

    ghost from_gives = { λ _ e. e ≡ NoMemory };

    fn from(_error: AllocFailed<T>) -> SymbolRefusal {
        SymbolRefusal::NoMemory
    }
}
