//! The section headers of an ELF image, as in the ELF specification's chapters "ELF Header" and "Sections".
ghost use Rattle.std.specs.Prelude.{◌≡◌, ◌+◌, ◌*◌, ◌<◌, ◌≤◌, length};
ghost use Rattle.std.specs.Bool.{OnTrue};
ghost use Rattle.elf_symbols.specs.Sections.{e_shnum, e_shoff, section, section_header, has_section_headers};
ghost use Rattle.elf_symbols.specs.Sections.{first_symbol_table, is_symbol_table, is_string_table, is_within};

use crate::entries::SYMBOL_SIZE;
use elf_loader::{half_at, word_at};

// Values of sh_type.
const SHT_SYMTAB: u32 = 2;

const SHT_STRTAB: u32 = 3;

// The length of a section header in bytes.
const SECTION_HEADER_SIZE: u16 = 40;

/// The fields of a section header (Elf32_Shdr) that are used.
#[derive(Clone, Copy)]
pub struct SectionHeader {
    pub sh_type: u32,
    pub sh_offset: u32,
    pub sh_size: u32,
    pub sh_link: u32,
    pub sh_entsize: u32,
}

/// Returns the number of sections.
pub fn section_count(file: &[u8]) -> u16
    requires { 52 ≤ length file.now }
    ensures { result ≡ e_shnum file.now }
{
    half_at(file, 48)
}

/// Returns whether the headers of the sections can be read.
#[tactic(auto, unfolding(crate::specs::Sections::has_section_headers))]
pub fn has_section_headers(file: &[u8]) -> bool
    requires { 52 ≤ length file.now }
    ensures value { result ≡ has_section_headers file.now }
    ensures within { OnTrue result (e_shoff file.now + 40 * e_shnum file.now ≤ length file.now) }
{
    let e_shoff = word_at(file, 32);
    let e_shentsize = half_at(file, 46);
    e_shentsize == SECTION_HEADER_SIZE
        && e_shoff as usize + 40 * section_count(file) as usize <= file.len()
}

// Returns the section header of 40 bytes at an offset.
#[tactic(auto, unfolding(crate::specs::Sections::section_header))]
fn section_header(file: &[u8], at: usize) -> SectionHeader
    requires { at + 40 ≤ length file.now }
    ensures { result ≡ section_header file.now at }
{
    SectionHeader {
        sh_type: word_at(file, at + 4),
        sh_offset: word_at(file, at + 16),
        sh_size: word_at(file, at + 20),
        sh_link: word_at(file, at + 24),
        sh_entsize: word_at(file, at + 36),
    }
}

/// Returns the header of section number `index`.
pub fn section(file: &[u8], index: usize) -> SectionHeader
    requires size { 52 ≤ length file.now }
    requires inside { index < e_shnum file.now }
    requires within { e_shoff file.now + 40 * e_shnum file.now ≤ length file.now }
    ensures { result ≡ section file.now index }
{
    section_header(file, word_at(file, 32) as usize + 40 * index)
}

/// Returns the header of the first section that is a symbol table.
#[tactic(auto, unfolding(crate::specs::Sections::first_symbol_table))]
pub fn first_symbol_table(file: &[u8]) -> Option<SectionHeader>
    requires size { 52 ≤ length file.now }
    requires within { e_shoff file.now + 40 * e_shnum file.now ≤ length file.now }
    ensures { result ≡ first_symbol_table file.now }
{
    let count = section_count(file) as usize;
    for index in 0..count {
        let header = section(file, index);
        if header.sh_type == SHT_SYMTAB {
            return Some(header);
        }
    }
    None
}

// Returns whether a section's bytes end within the file.
#[tactic(auto, unfolding(crate::specs::Sections::is_within))]
fn is_within(file: &[u8], header: &SectionHeader) -> bool
    ensures value { result ≡ is_within file.now header.now }
    ensures within { OnTrue result (header.now.sh_offset + header.now.sh_size ≤ length file.now) }
{
    header.sh_offset as usize + header.sh_size as usize <= file.len()
}

/// Returns whether the symbols of a symbol table can be read.
#[tactic(auto, unfolding(crate::specs::Sections::is_symbol_table))]
pub fn is_symbol_table(file: &[u8], header: &SectionHeader) -> bool
    requires { 52 ≤ length file.now }
    ensures value { result ≡ is_symbol_table file.now header.now }
    ensures within { OnTrue result (header.now.sh_offset + header.now.sh_size ≤ length file.now) }
    ensures link { OnTrue result (header.now.sh_link < e_shnum file.now) }
{
    header.sh_entsize == SYMBOL_SIZE
        && header.sh_size % SYMBOL_SIZE == 0
        && is_within(file, header)
        && header.sh_link < section_count(file) as u32
}

/// Returns whether a section is a string table that can be read.
#[tactic(auto, unfolding(crate::specs::Sections::is_string_table))]
pub fn is_string_table(file: &[u8], header: &SectionHeader) -> bool
    ensures value { result ≡ is_string_table file.now header.now }
    ensures within { OnTrue result (header.now.sh_offset + header.now.sh_size ≤ length file.now) }
{
    header.sh_type == SHT_STRTAB && is_within(file, header)
}
