//! An injected run that also ends early if its outcome is known: in a state that an earlier run of the case had at the
//! same cycle, in that of a later site, or in a loop.

ghost use Rattle.std.specs.Prelude.{◌≡◌, ℕ, ◌-◌, ◌<◌, ◌≤◌, [], All, length};
ghost use Rattle.fs_model.specs.Run.{Ended, Halt, ending};
ghost use Rattle.fs_model.specs.Outcome.{compare, outcome};
ghost use Rattle.known_states.specs.Known.{IsKnown, stands_for};
ghost use Rattle.experiment.specs.Steps.{begun};
ghost use Rattle.experiment.specs.Jobs.{RoseWithin, steps_until};
ghost use Rattle.experiment.specs.UnderWay.{IsShortLeg};

use crate::early::leg;
use crate::learned::Learned;
use crate::plain::watch_after;
use crate::reference::Reference;
use crate::shortcuts::Shortcuts;
use fs_model::Outcome;
use rv_machine::Machine;
use shared_sites::KnownCase;

// Returns how far a run that was flipped at `from` goes before the next look: one step after the flip, then to the
// next stored cycle, or, above the golden run, which stores no state there, to the next cycle that may be a look at
// the run's age.
fn leg_length(reference: &Reference<'_, '_>, at: u32, from: u32) -> u32
    requires order { from ≤ at }
    requires below { at < reference.now.case.now.limit }
    ensures some { 1 ≤ result }
    ensures within { result ≤ reference.now.case.now.limit - at }
    ensures short { IsShortLeg reference.now.snaps.now.spacing reference.now.snaps.now.count at result }
{
    let spacing = reference.snaps.spacing();
    if at == from {
        return 1;
    }
    let left = reference.case.limit() - at;
    if at < reference.golden.count() {
        return u32::min(left, spacing - at % spacing);
    }
    let turns = ((at - from) / spacing).max(1);
    let power = 1u32.checked_shl(turns.ilog2()).unwrap_or(1);
    let stride = spacing.saturating_mul(power).max(1);
    u32::min(left, stride - at % stride)
}

/// Continues the run that the shortcuts are in hand of, from its flip, and returns the outcome. The machine stops after
/// its first step, if a byte is sent, at each stored cycle, at the end of the run, and if its outcome is known. The
/// shortcuts get the keys that the run noted: each represents states with this outcome.
pub(crate) fn run_until_known<K: KnownCase>(
    reference: &Reference<'_, '_>,
    learned: &Learned<'_, K>,
    shortcuts: &mut Shortcuts,
    machine: &mut Machine,
    sent: usize,
) -> Outcome
    requires machine { machine.old.case ≡ reference.now.case.now }
    requires cycle { shortcuts.old.own.cycle < length reference.now.golden.now.touches }
    requires sent { sent ≤ length reference.now.golden.now.output }
    requires learned_snaps { learned.now.snaps ≡ reference.now.snaps.now }
    requires learned_golden { learned.now.golden ≡ reference.now.golden.now }
    requires case { shortcuts.old.case ≡ reference.now.case.now }
    requires keys { shortcuts.old.keys ≡ [] }
    requires own { (n : ℕ) → outcome reference.now.case.now shortcuts.old.own
        ≡ compare (Ended (Halt reference.now.golden.now.exit) n reference.now.golden.now.output)
        (ending reference.now.case.now (reference.now.case.now.limit - shortcuts.old.own.cycle)
        (begun machine.old.core reference.now.golden.now.output sent)) }
    ensures outcome { result ≡ outcome reference.now.case.now shortcuts.old.own }
    ensures taken { RoseWithin 1 machine.old.taken (steps_until reference.now.case.now reference.now.snaps.now.spacing
        reference.now.snaps.now.count shortcuts.old.own.cycle (begun machine.old.core reference.now.golden.now.output sent)) machine.new.taken }
    ensures case { machine.new.case ≡ machine.old.case }
    ensures same { (shortcuts.new.case ≡ shortcuts.old.case) × (shortcuts.new.own ≡ shortcuts.old.own) }
    ensures known { All (λ key. IsKnown reference.now.case.now reference.now.golden.now
        (stands_for reference.now.snaps.now key) result) shortcuts.new.keys }
{
    // This call gives the proof the bound of the count.
    let _ = machine.taken();
    let cycle = shortcuts.cycle();
    let limit = reference.case.limit();
    let mut watch = watch_after(reference.golden, sent);
    let mut at = cycle;
    while at < limit {
        let most = leg_length(reference, at, cycle);
        if let Some(found) = leg(reference, machine, &mut watch, &mut at, most) {
            return found;
        }
        if let Some(known) = shortcuts.outcome_here(reference, learned, machine, &watch, at) {
            return known;
        }
    }
    watch.outcome()
}
