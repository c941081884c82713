//! The line of each instruction of a run, by its function, and of each cell, by its object.

ghost use Rattle.std.specs.Prelude.{◌≡◌, ◌+◌, ◌*◌, ◌<◌, ◌≤◌, ◌^◌, IfOk, length, true};
ghost use Rattle.report.specs.Symbols.{owner_line};
ghost use Rattle.report.specs.SymbolTables.{AreCellLines, AreLines, AreLinesOf, IsTableEntry};

use crate::symbol_runs::{line_of, lines_from};
use elf_symbols::Symbol;
use fs_model::{Case, FIRST_BYTE, NoMemory};
use std::alloc::Global;

/// The length of an instruction in bytes.
const WORD: u32 = 4;

// The lines of the words of a region.
#[derive(Drop)]
struct Words {
    base: u32,
    lines: Vec<u32>,
}

// Returns the lines of the words of a region.
fn words_of(alloc: Global, symbols: &[Symbol<'_>], base: u32, size: u32) -> Result<Words, NoMemory>
    requires few { length symbols.now + 2 < 2 ^ 32 }
    requires within { base + size ≤ 2 ^ 32 }
    ensures { IfOk result (λ words. AreLines true symbols.now words.base 4 words.lines.items) }
{
    let lines = lines_from(alloc, symbols, true, base, WORD, size / WORD)?;
    Ok(Words { base, lines })
}

// Returns the line of an address, if it is that of one of these words.
fn entry_of(words: &Words, at: u32) -> Option<u32>
    ensures { IsTableEntry words.now.base words.now.lines.items at result }
{
    if at < words.base || (at - words.base) % WORD != 0 {
        return None;
    }
    let place = ((at - words.base) / WORD) as usize;
    if place < words.lines.len() {
        Some(words.lines[place])
    } else {
        None
    }
}

// Returns the line of an instruction by its address. Only an address outside ROM and RAM is searched among the
// symbols.
fn line_at(symbols: &[Symbol<'_>], rom: &Words, ram: &Words, at: u32) -> u32
    requires few { length symbols.now + 2 < 2 ^ 32 }
    requires rom { AreLines true symbols.now rom.now.base 4 rom.now.lines.items }
    requires ram { AreLines true symbols.now ram.now.base 4 ram.now.lines.items }
    ensures { result ≡ owner_line true symbols.now at }
{
    if let Some(line) = entry_of(rom, at) {
        return line;
    }
    match entry_of(ram, at) {
        Some(line) => line,
        None => line_of(symbols, true, at),
    }
}

/// Returns the line of each of these addresses, by its function.
pub(crate) fn function_lines(
    alloc: Global,
    case: &Case,
    pcs: &[u32],
    symbols: &[Symbol<'_>],
) -> Result<Vec<u32>, NoMemory>
    requires { length symbols.now + 2 < 2 ^ 32 }
    ensures { IfOk result (λ lines. AreLinesOf symbols.now pcs.now lines.items) }
{
    let map = case.map();
    map.facts();
    let rom = words_of(alloc, symbols, map.rom_base(), map.rom_size())?;
    let ram = words_of(alloc, symbols, map.ram_base(), map.ram_size())?;
    let mut lines = Vec::with_capacity(alloc, pcs.len())?;
    for pc in pcs {
        lines.push(line_at(symbols, &rom, &ram, *pc))?;
    }
    Ok(lines)
}

/// Returns the line of each cell: for a byte of RAM by its object, and for all others the last line.
pub(crate) fn cell_lines(
    alloc: Global,
    case: &Case,
    symbols: &[Symbol<'_>],
) -> Result<Vec<u32>, NoMemory>
    requires { length symbols.now + 2 < 2 ^ 32 }
    ensures { IfOk result (λ lines. AreCellLines case.now symbols.now lines.items) }
{
    let map = case.map();
    map.facts();
    let bytes = lines_from(alloc, symbols, false, map.ram_base(), 1, map.ram_size())?;
    let mut lines = vec![in alloc; symbols.len() as u32 + 1; FIRST_BYTE as usize]?;
    lines.extend_from_slice(&bytes)?;
    Ok(lines)
}
