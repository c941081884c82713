//! The functions of an image that have a name.
ghost use Rattle.std.specs.Prelude.{◌≡◌, IfOk, filter, map};
ghost use Rattle.std.specs.List.{list_any};
ghost use Rattle.window_parts.specs.Members.{is_named};
ghost use Rattle.window_parts.specs.Spans.{has_address, span_of};

use elf_symbols::Symbol;
use fs_model::NoMemory;
use std::alloc::Global;

/// The addresses of a function.
#[derive(Clone, Copy)]
pub(crate) struct Span {
    first: u32,
    size: u32,
}

// Returns whether a symbol is a function with this name.
fn is_named(symbol: &Symbol<'_>, name: &str) -> bool
    ensures { result ≡ is_named name.now symbol.now }
{
    symbol.is_function && symbol.name.bytes() == name.as_bytes()
}

/// Returns whether one of the symbols is a function with this name.
pub(crate) fn any_is_named(symbols: &[Symbol<'_>], name: &str) -> bool
    ensures { result ≡ list_any (is_named name.now) symbols.now }
{
    symbols.iter().any(|symbol| is_named(symbol, name))
}

/// Returns whether one of the symbols is a function.
pub(crate) fn any_is_function(symbols: &[Symbol<'_>]) -> bool
    ensures { result ≡ list_any (λ symbol. symbol.is_function) symbols.now }
{
    symbols.iter().any(|symbol| symbol.is_function)
}

// Returns whether an address is among these.
fn has_address(span: Span, at: u32) -> bool
    ensures { result ≡ has_address at span }
{
    span.first <= at && at - span.first < span.size
}

/// Returns whether an address is in one of these functions.
pub(crate) fn any_has(spans: &[Span], at: u32) -> bool
    ensures { result ≡ list_any (has_address at) spans.now }
{
    spans.iter().any(|span| has_address(*span, at))
}

/// Returns the addresses of each function with this name.
pub(crate) fn spans_of(
    alloc: Global,
    symbols: &[Symbol<'_>],
    name: &str,
) -> Result<Vec<Span>, NoMemory>
    ensures { IfOk result (λ spans. spans.items ≡ map span_of (filter (is_named name.now) symbols.now)) }
{
    let mut spans = Vec::new(alloc);
    for symbol in symbols {
        if is_named(symbol, name) {
            spans.push(Span {
                first: symbol.value,
                size: symbol.size,
            })?;
        }
    }
    Ok(spans)
}
