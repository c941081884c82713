//! The case of a table.
//!
//! Of a value under a lock only what its type says is known, so the case is in the type.
ghost use Rattle.std.specs.Prelude.{[], false};
ghost use Rattle.fs_model.specs.Case.{CaseData};

use std::marker::Brand;

/// Says which case a table is of. Each call of a program picks it.
pub trait KnownCase {
    ghost case: { CaseData };
}

impl KnownCase for Brand {
    ghost case = { record { entry = 0; limit = 1; rom_base = 0; rom = []; ram_base = 0; ram = []; pc_cell = false; ram_code = false } };
}
