//! The bytes in which the RAM of two machines of a case differs.

ghost use Rattle.std.specs.Prelude.{◌≡◌, ◌+◌, ◌%◌, ◌<◌, ◌≤◌, length, true};
ghost use Rattle.known_states.specs.Changes.{IsChanged, changed};

use crate::changes::{Change, add_changes};
use rv_machine::{BLOCK, Machine};

// Adds the bytes that differ in a block. Returns `false` if there is no room.
fn add_block(
    base: &Machine,
    machine: &Machine,
    changes: &mut Vec<Change>,
    at: usize,
    end: usize,
) -> bool
    requires case { machine.now.case ≡ base.now.case }
    requires start { at % 512 ≡ 0 }
    requires some { at < end }
    requires most { end ≤ at + 512 }
    requires within { end ≤ length machine.now.core.ram }
    requires before { IsChanged base.now.core.ram machine.now.core.ram changes.old.items at }
    ensures { result ≡ true → IsChanged base.now.core.ram machine.now.core.ram changes.new.items end }
{
    machine.untouched(base, at) || add_changes(changes, base.ram(), machine.ram(), at, end)
}

/// Replaces the changes by the bytes of the machine's RAM that differ from those of `base`. Returns `false` if
/// there are more than the vector has room for. Skips blocks that neither machine has written.
pub(crate) fn changes_since(base: &Machine, machine: &Machine, changes: &mut Vec<Change>) -> bool
    requires { machine.now.case ≡ base.now.case }
    ensures { result ≡ true → changed base.now.core.ram changes.new.items ≡ machine.now.core.ram }
{
    changes.clear();
    let size = machine.ram().len();
    let _ = base.ram();
    let mut at = 0;
    while at < size {
        let end = usize::min(at + BLOCK, size);
        if !add_block(base, machine, changes, at, end) {
            return false;
        }
        at = end;
    }
    true
}
