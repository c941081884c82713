//! The two synced writes by which a file grows.
ghost use Rattle.std.specs.Prelude.{◌≡◌, ◌+◌, ◌^◌, ◌<◌, [], ◌∷◌, length, OnOk};
ghost use Rattle.fs_outside.specs.Faults.{HasCause};
ghost use Rattle.fs_outside.specs.Past.{content, overwritten, IsSynced, LeavesOnly};
ghost use Rattle.result_keeper.specs.Keep.{IsBodyOrGate};

use fs_outside::{Disk, Failed, write_synced};
use keep_format::OPEN;

/// Writes a body after a closed gate, syncs, opens the gate, and syncs again.
pub(crate) fn write_behind<D: Disk>(disk: &mut D, gate: u64, body: &[u8]) -> Result<(), Failed>
    requires small { gate < 2 ^ 63 + 2 ^ 36 }
    requires synced { D.tells → IsSynced (D.past disk.old) }
    requires within { D.tells → gate < length (content (D.past disk.old)) }

    ensures synced { D.tells → OnOk result (IsSynced (D.past disk.new)) }
    ensures written { D.tells → OnOk result (content (D.past disk.new)
        ≡ overwritten (overwritten (content (D.past disk.old)) (gate + 1) body.now) gate (0xA5 ∷ [])) }
    ensures any_moment { D.tells → LeavesOnly (D.past disk.old) (D.past disk.new)
        (IsBodyOrGate (content (D.past disk.old)) gate body.now) }
    ensures given { D.tells → D.given disk.new ≡ D.given disk.old }
    ensures cause { HasCause (D.faults disk.old) (D.faults disk.new) result }
{
    write_synced(disk, gate + 1, body)?;
    write_synced(disk, gate, &[OPEN])?;
    Ok(())
}
