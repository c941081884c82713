//! The case of a program.
ghost use Rattle.std.specs.Prelude.{◌≡◌, false, IfOk, length};

use crate::images::code;
use fs_model::{Case, Map, NoMemory};
use std::alloc::{AllocError, Global};

/// The start of ROM. `RAM` is that of RAM.
pub const ROM: u32 = 0x2000_0000;

pub const RAM: u32 = 0x8000_0000;

/// The greatest limit of a case.
const MAX_LIMIT: u32 = 16_777_216;

/// Why the case cannot be made.
#[derive(Clone, Copy, PartialEq, Eq, Debug)]
pub enum NoCase {
    /// No case has this map or limit, or ROM has no room for the words.
    NotPossible,
    /// There is not enough memory.
    NoMemory,
}

impl From<NoMemory> for NoCase {
    fn from(_error: NoMemory) -> NoCase {
        NoCase::NoMemory
    }
}

impl From<AllocError> for NoCase {
    fn from(_error: AllocError) -> NoCase {
        NoCase::NoMemory
    }
}

/// Returns the map with 64 bytes of ROM and 16 of RAM.
pub fn small_map() -> Result<Map, NoCase>
    ensures { IfOk result (λ map. map ≡ record { rom_base = 0x20000000; rom_size = 64; ram_base = 0x80000000; ram_size = 16 }) }
{
    match Map::new(ROM, 64, RAM, 16) {
        Ok(map) => Ok(map),
        Err(_) => Err(NoCase::NotPossible),
    }
}

/// Returns the case of these words at the start of ROM, with this entry. The rest of ROM is 0, and so is RAM.
pub fn case_in(
    alloc: Global,
    map: &Map,
    entry: u32,
    words: &[u32],
    limit: u32,
) -> Result<Case, NoCase>
    ensures entry { IfOk result (λ case. case.entry ≡ entry) }
    ensures limit { IfOk result (λ case. case.limit ≡ limit) }
    ensures bases { IfOk result (λ case. (case.rom_base ≡ map.now.rom_base) × (case.ram_base ≡ map.now.ram_base)) }
    ensures ram { IfOk result (λ case. length case.ram ≡ map.now.ram_size) }
    ensures flags { IfOk result (λ case. (case.pc_cell ≡ false) × (case.ram_code ≡ false)) }
{
    if limit < 1 || limit > MAX_LIMIT {
        return Err(NoCase::NotPossible);
    }
    let mut case = Case::blank(alloc, map, entry, limit)?;
    let code = code(alloc, words)?;
    if code.len() > case.rom().len() || !case.covers(map.rom_base(), code.len()) {
        return Err(NoCase::NotPossible);
    }
    case.fill(map.rom_base(), code.as_slice());
    Ok(case)
}

/// Returns the case of these words in ROM of 64 bytes, with RAM of 16.
pub fn case_of(alloc: Global, words: &[u32], limit: u32) -> Result<Case, NoCase>
    ensures entry { IfOk result (λ case. case.entry ≡ 0x20000000) }
    ensures limit { IfOk result (λ case. case.limit ≡ limit) }
    ensures ram { IfOk result (λ case. length case.ram ≡ 16) }
    ensures flags { IfOk result (λ case. (case.pc_cell ≡ false) × (case.ram_code ≡ false)) }
{
    let map = small_map()?;
    case_in(alloc, &map, ROM, words, limit)
}
