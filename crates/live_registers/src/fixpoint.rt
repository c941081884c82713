//! Finding the masks, and checking them.

ghost use Rattle.std.specs.Prelude.{◌≡◌, ◌*◌, ◌≤◌, true, length};
ghost use Rattle.dead_cells.specs.Live.{IsRomLiveness};
ghost use Rattle.live_registers.specs.Masks.{live_of};

use crate::words::live_at_word;
use fs_model::Case;

// The most passes over ROM. A program needs about one for each loop around a loop, and one more.
const PASSES: usize = 64;

// Takes one pass over ROM, from its end to its start, which adds to each mask what the word needs. Returns whether
// a mask changed.
fn pass(case: &Case, masks: &mut [u32]) -> bool
    requires { 4 * length masks.old ≤ length case.now.rom }
{
    let mut changed = false;
    let count = masks.len();
    for done in 0..count {
        let j = count - 1 - done;
        let mask = masks[j] | live_at_word(case, masks, j);
        if mask != masks[j] {
            masks[j] = mask;
            changed = true;
        }
    }
    changed
}

/// Takes passes over ROM until no mask changes. Gives up after some passes, and then the check fails.
pub(crate) fn settle(case: &Case, masks: &mut [u32])
    requires { 4 * length masks.old ≤ length case.now.rom }
{
    for _pass in 0..PASSES {
        if !pass(case, masks) {
            return;
        }
    }
}

/// Checks that each mask has the registers that must be live at its word.
pub(crate) fn is_settled(case: &Case, masks: &[u32]) -> bool
    requires { 4 * length masks.now ≡ length case.now.rom }
    ensures { result ≡ true → IsRomLiveness case.now (live_of (record { base = case.now.rom_base; masks = masks.now })) }
{
    case.facts();
    for j in 0..masks.len() {
        let mask = masks[j];
        if mask | live_at_word(case, masks, j) != mask {
            return false;
        }
    }
    true
}
