//! The masks of the live registers.

ghost use Rattle.std.specs.Prelude.{◌≡◌, ◌*◌, IfOk, length, vec_len};
ghost use Rattle.dead_cells.specs.Live.{IsLiveness};
ghost use Rattle.live_registers.specs.Masks.{live_of, mask_at};

use crate::fixpoint::{is_settled, settle};
use crate::words::mask_at;
use fs_model::{Case, NoMemory};
use std::alloc::Global;
use std::marker::Model;

/// For each word of ROM a mask of the registers that are live there: bit `k` for register `k`. All registers are
/// live elsewhere.
#[derive(Drop)]
pub struct LiveRegisters {
    base: u32,
    masks: Vec<u32>,
}

impl Model for LiveRegisters {
    ghost use Rattle.live_registers.specs.Masks.{LiveData};

    ghost Value = { LiveData };

    ghost view = { λ l. record { base = l.base; masks = l.masks.items } };
}

impl LiveRegisters {
    // Returns the live registers that the masks tell, if a check allows them, and else that all are live.
    fn checked(alloc: Global, case: &Case, masks: Vec<u32>) -> LiveRegisters
        requires { 4 * vec_len masks ≡ length case.now.rom }
        ensures { IsLiveness case.now (live_of result) }
    {
        let base = case.rom_base();
        if is_settled(case, masks.as_slice()) {
            LiveRegisters { base, masks }
        } else {
            let none = Vec::new(alloc);
            LiveRegisters { base, masks: none }
        }
    }

    /// Finds the live registers of a case. Takes 4 bytes for each word of ROM, and a bounded number of passes over
    /// ROM. If these are too few, all registers are live.
    ///
    /// # Errors
    ///
    /// `NoMemory` if memory is refused.
    pub fn new(alloc: Global, case: &Case) -> Result<LiveRegisters, NoMemory>
        ensures { IfOk result (λ l. IsLiveness case.now (live_of l)) }
    {
        case.facts();
        let mut masks: Vec<u32> = vec![in alloc; 0; case.rom().len() / 4]?;
        settle(case, &mut masks);
        Ok(LiveRegisters::checked(alloc, case, masks))
    }

    /// Returns the mask of the registers that are live at `pc`. Bit 0 means nothing.
    #[inline]
    pub fn mask(&self, pc: u32) -> u32
        ensures { result ≡ mask_at self.now pc }
    {
        mask_at(self.base, &self.masks, pc)
    }
}
