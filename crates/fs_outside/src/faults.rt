//! Failures of a device, and how they are counted.
ghost use Rattle.std.specs.Prelude.{◌≡◌};
ghost use Rattle.fs_outside.specs.Faults.{one_more, and_more, Rises};

/// The value at which a count of faults saturates.
pub const MAX_FAULTS: u64 = u64::MAX;

/// A device failed in this call. Its count of faults rose, or was saturated.
#[derive(Clone, Copy, Debug, PartialEq, Eq)]
pub struct Failed;

/// Returns the count plus 1, saturating.
pub fn rise(count: u64) -> u64
    ensures value { result ≡ one_more count }
    ensures rises { Rises count result }
{
    count.saturating_add(1)
}

/// Returns the count plus `more`, saturating.
pub(crate) fn rise_by(count: u64, more: u64) -> u64
    ensures { result ≡ and_more count more }
{
    count.saturating_add(more)
}
