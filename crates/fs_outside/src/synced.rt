//! A write with a sync after it.
ghost use Rattle.std.specs.Prelude.{◌≡◌, ◌≤◌, length, OnOk};
ghost use Rattle.fs_outside.specs.Faults.{HasCause};
ghost use Rattle.fs_outside.specs.Past.{content, overwritten, IsSynced, LeavesOnly, Torn};

use crate::{Disk, Failed};

/// Writes to a disk on which everything is synced, and syncs. A crash at any moment leaves the bytes outside the
/// range as they were, and the file no longer than the write makes it.
///
/// For a disk that tells nothing, the contract only says when the call fails.
///
/// # Errors
///
/// `Failed` if a write or the sync failed. A part of the bytes may be written.
pub fn write_synced<D: Disk>(disk: &mut D, at: u64, bytes: &[u8]) -> Result<(), Failed>
    requires synced { D.tells → IsSynced (D.past disk.old) }
    requires within { D.tells → at ≤ length (content (D.past disk.old)) }

    ensures synced { D.tells → OnOk result (IsSynced (D.past disk.new)) }
    ensures written { D.tells → OnOk result (content (D.past disk.new)
        ≡ overwritten (content (D.past disk.old)) at bytes.now) }
    ensures any_moment { D.tells → LeavesOnly (D.past disk.old) (D.past disk.new)
        (Torn (content (D.past disk.old)) at (length bytes.now)) }
    ensures given { D.tells → D.given disk.new ≡ D.given disk.old }
    ensures cause { HasCause (D.faults disk.old) (D.faults disk.new) result }
{
    disk.write_at(at, bytes)?;
    disk.sync()?;
    Ok(())
}
