//! Finding the first closed gate.
ghost use Rattle.std.specs.Prelude.{◌≡◌, ◌+◌, ◌^◌, ◌<◌, IfOk, IfSome, Some, slice_get};
ghost use Rattle.std.specs.Option.{option_map};
ghost use Rattle.fs_outside.specs.Faults.{HasCause};
ghost use Rattle.fs_outside.specs.Past.{content};
ghost use Rattle.keep_format.specs.KeepFile.{batches_of};
ghost use Rattle.keep_format.specs.Reading.{gate_of};
ghost use Rattle.gate_search.specs.Windows.{IsCount, IsOf};

use crate::window::Window;
use byteorder::{ByteOrder, LittleEndian};
use fs_outside::{Disk, Failed};
use keep_format::{BATCH_HEAD, OPEN, ROW_LEN};

/// A closed gate of a campaign file, at which its rows end.
#[derive(Clone, Copy, Debug, PartialEq, Eq)]
pub struct ClosedGate {
    /// The offset in the file.
    pub place: u64,
    /// The gate itself, any byte but that of an open gate.
    pub byte: u8,
}

// Returns the number of rows of a batch whose gate is at a place, if its count is there.
fn rows_at<D: Disk>(window: &mut Window, disk: &mut D, gate: u64) -> Result<Option<u16>, Failed>
    requires room { gate + 2 < 2 ^ 64 }
    requires window { D.tells → IsOf (content (D.past disk.old)) window.old }
    ensures window { D.tells → IsOf (content (D.past disk.old)) window.new }
    ensures rows { D.tells → IfOk result (λ rows. IsCount (content (D.past disk.old)) gate rows) }
    ensures same { D.tells → D.past disk.new ≡ D.past disk.old }
    ensures cause { HasCause (D.faults disk.old) (D.faults disk.new) result }
{
    let low = window.byte(disk, gate + 1)?;
    let high = window.byte(disk, gate + 2)?;
    match (low, high) {
        (Some(low), Some(high)) => Ok(Some(LittleEndian::read_u16(&[low, high]))),
        _ => Ok(None),
    }
}

/// Returns the closed gate after the batches whose first gate is at `first`, or `None` if the file ends before.
///
/// Of each batch it reads the gate and the count of rows, and no row.
///
/// # Errors
///
/// `Failed` if the disk failed.
pub fn closed_gate<D: Disk>(disk: &mut D, first: u64) -> Result<Option<ClosedGate>, Failed>
    ensures place { D.tells → IfOk result (λ found. option_map (λ gate. gate.place) found ≡ gate_of (batches_of (content (D.past disk.old)) first)) }
    ensures byte { D.tells → IfOk result (λ found. IfSome found (λ gate. slice_get (content (D.past disk.old)) gate.place ≡ Some gate.byte)) }
    ensures same { D.tells → D.past disk.new ≡ D.past disk.old }
    ensures cause { HasCause (D.faults disk.old) (D.faults disk.new) result }
{
    let len = disk.len()?;
    let mut window = Window::new();
    let mut place = first;
    'gates: while place < len {
        let Some(byte) = window.byte(disk, place)? else {
            return Ok(None);
        };
        if byte != OPEN {
            return Ok(Some(ClosedGate { place, byte }));
        }
        let left = len - place;
        if left < BATCH_HEAD as u64 {
            return Ok(None);
        }
        let Some(rows) = rows_at(&mut window, disk, place)? else {
            return Ok(None);
        };
        let batch = BATCH_HEAD as u64 + ROW_LEN as u64 * rows as u64;
        if left < batch {
            return Ok(None);
        }
        place += batch;
    }
    Ok(None)
}
