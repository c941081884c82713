//! An injected run that ends early in the golden run's state at the same cycle: the rest of both runs is the same.

ghost use Rattle.std.specs.Prelude.{◌≡◌, ℕ, ◌+◌, ◌-◌, ◌&&◌, ◌<◌, ◌≤◌, List, MatchOption, length};
ghost use Rattle.fs_model.specs.Run.{Ended, Halt, State, ending, after};
ghost use Rattle.fs_model.specs.Outcome.{compare};
ghost use Rattle.outcome_class.specs.Seen.{watching, going};
ghost use Rattle.snapshot_store.specs.Along.{Rose};
ghost use Rattle.snapshot_store.specs.Stored.{is_kept};
ghost use Rattle.experiment.specs.Steps.{begun};
ghost use Rattle.experiment.specs.Jobs.{same_state, steps_until};
ghost use Rattle.experiment.specs.UnderWay.{HasEnded, IsShortLeg, IsUnderWay};

use crate::plain::watch_after;
use crate::reference::Reference;
use fs_model::Outcome;
use outcome_class::Watch;
use rv_machine::Machine;

// Returns whether the run is at a stored cycle, in the golden run's state there. A machine compares its registers
// before its RAM.
fn rejoined(reference: &Reference<'_, '_>, machine: &Machine, watch: &Watch<'_>, cycle: u32) -> bool
    requires machine { machine.now.case ≡ reference.now.case.now }
    requires watch { watch.now.golden ≡ reference.now.golden.now.output }
    ensures { (exit : ℕ) (output : List ℕ) → watch.now ≡ watching exit reference.now.golden.now.output (going output)
        → result ≡ (is_kept reference.now.snaps.now.spacing reference.now.snaps.now.count cycle
        && same_state (record { core = machine.now.core; output = output }) (after reference.now.case.now cycle)) }
{
    match reference.snaps.at(cycle) {
        Some(snap) => watch.agrees(snap.sent()) && machine.stands_as(snap.machine()),
        None => false,
    }
}

/// Continues a run from the cycle `at` until it sends a byte, but for at most `most` steps, and moves `at` to the
/// cycle that it reaches. Returns the outcome if the run has ended or is in the golden run's state there.
#[inline(always)]
pub(crate) fn leg(
    reference: &Reference<'_, '_>,
    machine: &mut Machine,
    watch: &mut Watch<'_>,
    at: &mut u32,
    most: u32,
) -> Option<Outcome>
    requires machine { machine.old.case ≡ reference.now.case.now }
    requires watch { watch.old.golden ≡ reference.now.golden.now.output }
    requires some { 1 ≤ most }
    requires within { most ≤ reference.now.case.now.limit - at.old }
    requires short { IsShortLeg reference.now.snaps.now.spacing reference.now.snaps.now.count at.old most }
    ensures further { at.old + 1 ≤ at.new }
    ensures run { (cycle before : ℕ) (s : State) → IsUnderWay reference.now cycle before s at.old machine.old watch.old
        → MatchOption result (IsUnderWay reference.now cycle before s at.new machine.new watch.new)
        (λ outcome. HasEnded reference.now cycle before s outcome machine.new) }
{
    // These calls give the proof that the spacing is at least 1, and that the limit is a number of 32 bits.
    let _ = reference.snaps.spacing();
    let _ = reference.case.limit();
    let (event, taken) = machine.run(most as u64);
    *at += taken as u32;
    watch.see(event);
    if !event.goes_on() {
        return Some(watch.outcome());
    }
    if rejoined(reference, machine, watch, *at) {
        return Some(Outcome::NoEffect);
    }
    None
}

/// Continues a run that is at this cycle and has sent the first `sent` golden bytes, and returns the outcome. The
/// machine stops if a byte is sent, at each stored cycle, and at the end of the run.
pub(crate) fn run_until(
    reference: &Reference<'_, '_>,
    machine: &mut Machine,
    sent: usize,
    cycle: u32,
) -> Outcome
    requires machine { machine.old.case ≡ reference.now.case.now }
    requires cycle { cycle < length reference.now.golden.now.touches }
    requires sent { sent ≤ length reference.now.golden.now.output }
    ensures outcome { (n : ℕ) → result ≡ compare (Ended (Halt reference.now.golden.now.exit) n reference.now.golden.now.output)
        (ending reference.now.case.now (reference.now.case.now.limit - cycle) (begun machine.old.core reference.now.golden.now.output sent)) }
    ensures taken { Rose machine.old.taken (steps_until reference.now.case.now reference.now.snaps.now.spacing reference.now.snaps.now.count cycle
        (begun machine.old.core reference.now.golden.now.output sent)) machine.new.taken }
    ensures case { machine.new.case ≡ machine.old.case }
{
    // This call gives the proof the bound of the count.
    let _ = machine.taken();
    let mut watch = watch_after(reference.golden, sent);
    let spacing = reference.snaps.spacing();
    let limit = reference.case.limit();
    let mut at = cycle;
    while at < limit {
        let most = u32::min(limit - at, spacing - at % spacing);
        if let Some(outcome) = leg(reference, machine, &mut watch, &mut at, most) {
            return outcome;
        }
    }
    watch.outcome()
}
