//! States of the golden run for known runs, closer to each other than those by which the steps of jobs are
//! counted, so that runs are compared sooner.
ghost use Rattle.std.specs.Prelude.{◌≡◌, ◌%◌, ◌≤◌, IfSome, length};
ghost use Rattle.worker_pool.specs.Workers.{IsNear, nearest_of};

use fs_model::Case;
use golden_trace::Golden;
use snapshot_store::Snaps;
use std::alloc::Global;

// The most bytes that all these states take together, about, for all workers.
const MOST_BYTES: u64 = 4 * 1024 * 1024;

// The bytes that a state takes besides its RAM, about.
const BYTES_BESIDE: u64 = 2560;

// Returns whether the states at this distance fit.
fn is_small(distance: u32, count: u32, ram: usize) -> bool
    requires { 1 ≤ distance }
{
    let states = count as u64 / distance as u64 + 1;
    states.saturating_mul((ram as u64).saturating_add(BYTES_BESIDE)) <= MOST_BYTES
}

// Returns a quarter of the distance, or a half, if that is a whole number and the states fit.
fn distance(spacing: u32, count: u32, ram: usize) -> Option<u32>
    ensures { IfSome result (λ distance. (1 ≤ distance) × (spacing % distance ≡ 0)) }
{
    let fourth = spacing / 4;
    if fourth >= 1 && spacing % fourth == 0 && is_small(fourth, count, ram) {
        return Some(fourth);
    }
    let half = spacing / 2;
    if half >= 1 && spacing % half == 0 && is_small(half, count, ram) {
        return Some(half);
    }
    None
}

/// Returns the states, if there is memory for them.
pub(crate) fn near_states<'a>(
    alloc: Global,
    case: &'a Case,
    golden: &Golden,
    snaps: &Snaps,
) -> Option<Snaps<'a>>
    ensures { IfSome result (λ near. IsNear case.now (length golden.now.touches) snaps.now.spacing near) }
{
    let count = golden.count();
    let distance = distance(snaps.spacing(), count, case.ram().len())?;
    Snaps::take(alloc, case, count, distance).ok()
}

/// Returns these states, or the others if there are none.
pub(crate) fn nearest<'r, 'a>(near: &'r Option<Snaps<'a>>, snaps: &'r Snaps<'a>) -> &'r Snaps<'a>
    ensures { result.now ≡ nearest_of near.now snaps.now }
{
    match near {
        Some(near) => near,
        None => snaps,
    }
}
