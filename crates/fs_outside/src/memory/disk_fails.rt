//! Looking up a call in the list of those that are to fail.
ghost use Rattle.std.specs.Prelude.{◌≡◌};
ghost use Rattle.fs_outside.specs.DiskPlans.{fail_named, named_now};

use crate::memory::disk_plan::{DiskCall, DiskFail};

// Returns the number of bytes that the call may write before it fails, if the list names the call.
fn find(fails: &[DiskFail], call: DiskCall, number: u64) -> Option<u32>
    ensures { result ≡ fail_named fails.now call number }
{
    for fail in fails {
        if fail.call as u8 == call as u8 && fail.number == number {
            return Some(fail.taken);
        }
    }
    None
}

/// Returns the number of bytes that the call may write before it fails, if the list names it or the fuse covers
/// it. With a fuse, call number `fuse` of any kind and all later ones fail.
pub fn find_now(
    fails: &[DiskFail],
    fuse: Option<u64>,
    calls: u64,
    call: DiskCall,
    number: u64,
) -> Option<u32>
    ensures { result ≡ named_now fails.now fuse calls call number }
{
    match fuse {
        Some(first) if first <= calls => Some(0),
        _ => find(fails, call, number),
    }
}
