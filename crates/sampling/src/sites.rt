//! The sites of a case by number.

ghost use Rattle.std.specs.Prelude.{◌≡◌, ℕ, ◌<◌, ◌/◌, length, slice_get, Some};
ghost use Rattle.fs_model.specs.Cell.{IsCell, bits};
ghost use Rattle.fs_model.specs.Laws.{bits_of_all};
ghost use Rattle.fs_model.specs.Site.{sites};

use fs_model::{BYTE_BITS, Case, FIRST_BYTE, Site, WORD_BITS, byte_cell, first_cell};

/// Returns the site with this number, among all sites in the order cycle, cell, bit.
pub fn site_at(index: u64, case: &Case) -> Site
    // Its cycle is before the limit.
    requires { index / bits_of_all (length case.now.ram) case.now.pc_cell < case.now.limit }
    // For every number of cycles whose sites include the index.
    ensures listed { (cycles : ℕ) → index < length (sites cycles (length case.now.ram) case.now.pc_cell)
        → slice_get (sites cycles (length case.now.ram) case.now.pc_cell) index ≡ Some result }
    ensures cycle { result.cycle ≡ index / bits_of_all (length case.now.ram) case.now.pc_cell }
    ensures cell { IsCell case.now result.cell }
    ensures bit { result.bit < bits result.cell }
{
    case.facts();
    let word = WORD_BITS as u64;
    let byte = BYTE_BITS as u64;
    let first = first_cell(case.pc_cell()) as u64;
    let registers = word * (FIRST_BYTE as u64 - first);
    let whole = registers + byte * case.ram().len() as u64;
    let cycle = (index / whole) as u32;
    let rest = index % whole;
    if rest < registers {
        Site {
            cycle,
            cell: (first + rest / word) as u32,
            bit: (rest % word) as u8,
        }
    } else {
        let behind = rest - registers;
        Site {
            cycle,
            cell: byte_cell((behind / byte) as u32),
            bit: (behind % byte) as u8,
        }
    }
}
