//! The lines of consecutive addresses. The symbols are searched once for each run of addresses with the same
//! line.

ghost use Rattle.std.specs.Prelude.{◌≡◌, ◌+◌, ◌*◌, ◌<◌, ◌≤◌, ◌^◌, IfOk, length};
ghost use Rattle.report.specs.Symbols.{owner_line};
ghost use Rattle.report.specs.SymbolTables.{AreLines, IsEdge, IsRun};

use elf_symbols::{Symbol, owner_of};
use fs_model::NoMemory;
use std::alloc::Global;

/// The number of addresses.
const ADDRESSES: u64 = 0x1_0000_0000;

// A line, and the end of the run of addresses that belong to it.
#[derive(Clone, Copy)]
struct Run {
    line: u32,
    end: u64,
}

/// Returns the line of the function or of the object that an address belongs to.
#[tactic(auto, unfolding(crate::specs::Symbols::owner_line))]
pub(crate) fn line_of(symbols: &[Symbol<'_>], function: bool, at: u32) -> u32
    requires { length symbols.now + 2 < 2 ^ 32 }
    ensures { result ≡ owner_line function symbols.now at }
{
    match owner_of(symbols, function, at) {
        Some(number) => number as u32,
        None => symbols.len() as u32,
    }
}

// Returns a place if it is after an address and not after the edge, and the edge otherwise.
fn nearer(place: u64, at: u32, edge: u64) -> u64
    ensures behind { at < edge → at < result }
    ensures near { result ≤ edge }
    ensures place { at < place → result ≤ place }
{
    if (at as u64) < place && place < edge {
        place
    } else {
        edge
    }
}

// Returns the first place after an address at which a symbol begins or ends.
fn next_edge(symbols: &[Symbol<'_>], at: u32) -> u64
    ensures { IsEdge symbols.now (length symbols.now) at result }
{
    let mut edge = ADDRESSES;
    for i in 0..symbols.len() {
        let begin = symbols[i].value as u64;
        let end = begin + symbols[i].size as u64;
        edge = nearer(end, at, nearer(begin, at, edge));
    }
    edge
}

// Returns the run that an address is in: the one before, unless it has ended.
fn run_at(symbols: &[Symbol<'_>], function: bool, before: Run, at: u32) -> Run
    requires few { length symbols.now + 2 < 2 ^ 32 }
    requires before { IsRun function symbols.now at before }
    ensures line { result.line ≡ owner_line function symbols.now at }
    ensures run { IsRun function symbols.now at result }
{
    if (at as u64) < before.end {
        before
    } else {
        Run {
            line: line_of(symbols, function, at),
            end: next_edge(symbols, at),
        }
    }
}

/// Returns the lines of `count` addresses that begin with one and are `step` bytes apart.
pub(crate) fn lines_from(
    alloc: Global,
    symbols: &[Symbol<'_>],
    function: bool,
    base: u32,
    step: u32,
    count: u32,
) -> Result<Vec<u32>, NoMemory>
    requires few { length symbols.now + 2 < 2 ^ 32 }
    requires step { step ≤ 4 }
    requires within { base + step * count ≤ 2 ^ 32 }
    ensures count { IfOk result (λ lines. length lines.items ≡ count) }
    ensures lines { IfOk result (λ lines. AreLines function symbols.now base step lines.items) }
{
    let mut lines = Vec::with_capacity(alloc, count as usize)?;
    let mut run = Run {
        line: 0,
        end: base as u64,
    };
    for i in 0..count {
        run = run_at(symbols, function, run, base + step * i);
        lines.push(run.line)?;
    }
    Ok(lines)
}
