//! The functions and objects of a symbol table.
ghost use Rattle.std.specs.Prelude.{◌≡◌, ◌+◌, ◌*◌, ◌≤◌, length, filter, Ok, IfOk, IfErr};
ghost use Rattle.elf_symbols.specs.Sections.{e_shoff, e_shnum};
ghost use Rattle.elf_symbols.specs.Symbols.{entries, is_chosen, named, symbols_of, symbols, RefusesSymbols};

use crate::entries::{SYMBOL_SIZE, symbol_entry};
use crate::names::{Name, Strings};
use crate::refusals::SymbolRefusal;
use crate::sections::{
    SectionHeader, first_symbol_table, has_section_headers, is_string_table, is_symbol_table,
    section, section_count,
};
use std::alloc::Global;

/// A function or an object of an image.
#[derive(Drop)]
pub struct Symbol<'a> {
    /// The name.
    pub name: Name<'a>,
    /// The address of its first byte.
    pub value: u32,
    /// The size in bytes, at least 1.
    pub size: u32,
    /// Whether it is a function; otherwise it is an object.
    pub is_function: bool,
}

// Returns the chosen entries of a symbol table, with their names.
fn chosen<'a>(
    alloc: Global,
    bytes: &'a [u8],
    table: &SectionHeader,
    strings: &Strings<'a>,
) -> Result<Vec<Symbol<'a>>, SymbolRefusal>
    requires { table.now.sh_offset + table.now.sh_size ≤ length bytes.now }
    ensures ok { IfOk result (λ list. named strings.now (filter is_chosen (entries bytes.now table.now)) ≡ Ok list.items) }
    ensures err { IfErr result (λ refusal. RefusesSymbols refusal (named strings.now (filter is_chosen (entries bytes.now table.now)))) }
{
    let mut list = Vec::new(alloc);
    let count = (table.sh_size / SYMBOL_SIZE) as usize;
    for k in 0..count {
        let entry = symbol_entry(bytes, table.sh_offset as usize + SYMBOL_SIZE as usize * k);
        if entry.is_chosen() {
            match strings.name_at(entry.st_name) {
                Some(name) => list.push(Symbol {
                    name,
                    value: entry.st_value,
                    size: entry.st_size,
                    is_function: entry.is_function(),
                })?,
                None => return Err(SymbolRefusal::BadName),
            }
        }
    }
    Ok(list)
}

// Returns the chosen symbols of a symbol table, if there is one.
#[tactic(auto, unfolding(crate::specs::Symbols::symbols_of))]
fn symbols_of<'a>(
    alloc: Global,
    bytes: &'a [u8],
    found: Option<SectionHeader>,
) -> Result<Vec<Symbol<'a>>, SymbolRefusal>
    requires size { 52 ≤ length bytes.now }
    requires within { e_shoff bytes.now + 40 * e_shnum bytes.now ≤ length bytes.now }
    ensures ok { IfOk result (λ list. symbols_of bytes.now found ≡ Ok list.items) }
    ensures err { IfErr result (λ refusal. RefusesSymbols refusal (symbols_of bytes.now found)) }
{
    let table = match found {
        Some(table) => table,
        None => return Ok(Vec::new(alloc)),
    };
    if !is_symbol_table(bytes, &table) {
        return Err(SymbolRefusal::BadSections);
    }
    let linked = section(bytes, table.sh_link as usize);
    if !is_string_table(bytes, &linked) {
        return Err(SymbolRefusal::BadSections);
    }
    let start = linked.sh_offset as usize;
    let strings = Strings::new(&bytes[start..start + linked.sh_size as usize]);
    chosen(alloc, bytes, &table, &strings)
}

/// Returns the functions and objects of an image that have bytes and are defined in it, in the order of its
/// first symbol table.
///
/// # Errors
///
/// `BadSections` if its sections, its symbol table or the string table of the names cannot be read. Otherwise
/// `BadName` if the name of such a symbol cannot be read. `NoMemory` if memory for the list is refused.
#[tactic(auto, unfolding(crate::specs::Symbols::symbols))]
pub fn symbols<'a>(alloc: Global, bytes: &'a [u8]) -> Result<Vec<Symbol<'a>>, SymbolRefusal>
    requires { 52 ≤ length bytes.now }
    ensures ok { IfOk result (λ list. symbols bytes.now ≡ Ok list.items) }
    ensures err { IfErr result (λ refusal. RefusesSymbols refusal (symbols bytes.now)) }
{
    if section_count(bytes) == 0 {
        return Ok(Vec::new(alloc));
    }
    if !has_section_headers(bytes) {
        return Err(SymbolRefusal::BadSections);
    }
    symbols_of(alloc, bytes, first_symbol_table(bytes))
}
