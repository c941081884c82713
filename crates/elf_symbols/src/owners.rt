//! The symbol that an address belongs to.
ghost use Rattle.std.specs.Prelude.{◌≡◌, ◌+◌, ◌<◌, length, slice_index_or};
ghost use Rattle.elf_symbols.specs.Owners.{has, no_symbol, owner, owner_from, value_at, IsOwner};

use crate::tables::Symbol;

// Returns whether symbol number `i` is a function, or, if `function` is false, an object, and has the address.
#[tactic(auto, unfolding(crate::specs::Owners::has))]
fn has(symbols: &[Symbol], i: usize, function: bool, at: u32) -> bool
    requires { i < length symbols.now }
    ensures { result ≡ has function at (slice_index_or symbols.now i no_symbol) }
{
    let symbol = &symbols[i];
    let is_one = if function {
        symbol.is_function
    } else {
        !symbol.is_function
    };
    is_one && symbol.value <= at && (at as u64) < symbol.value as u64 + symbol.size as u64
}

/// Returns the number of the function, or of the object, that an address belongs to: of all that have the
/// address, the first of those with the greatest value.
pub fn owner_of(symbols: &[Symbol], function: bool, at: u32) -> Option<usize>
    ensures value { result ≡ owner (has function at) symbols.now }
    ensures greatest { IsOwner (has function at) symbols.now result }
{
    let mut best: Option<usize> = None;
    for i in (0..symbols.len()).rev() {
        best = step(symbols, function, at, i, best);
    }
    best
}

// Returns the value of symbol number `i`.
fn value_of(symbols: &[Symbol], i: usize) -> u32
    requires { i < length symbols.now }
    ensures { result ≡ value_at symbols.now i }
{
    symbols[i].value
}

// Takes one more symbol into account, before those that were.
fn step(symbols: &[Symbol], function: bool, at: u32, i: usize, best: Option<usize>) -> Option<usize>
    requires inside { i < length symbols.now }
    requires best { best ≡ owner_from (has function at) symbols.now (i + 1) }
    ensures { result ≡ owner_from (has function at) symbols.now i }
{
    let here = has(symbols, i, function, at);
    if here {
        match best {
            None => Some(i),
            Some(other) => {
                if value_of(symbols, other) <= value_of(symbols, i) {
                    Some(i)
                } else {
                    Some(other)
                }
            }
        }
    } else {
        best
    }
}
