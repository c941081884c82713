//! Laws about lists of symbols, each the contract of a call that does nothing.
ghost use Rattle.std.specs.Prelude.{Bool, List};
ghost use Rattle.elf_symbols.specs.declared.tables.Symbol.{Symbol};
ghost use Rattle.elf_symbols.specs.Owners.{owner, IsOwner};

/// Among the symbols that pass a test, the owner is the first of those with the greatest value.
pub fn owners()
    ensures { (p : Symbol → Bool) (symbols : List Symbol) → IsOwner p symbols (owner p symbols) }
{}
