//! A state of the golden run that moves forward from job to job, so that no step of the golden run is taken twice.

ghost use Rattle.std.specs.Prelude.{◌≡◌, ◌-◌, ◌<◌, ◌≤◌};
ghost use Rattle.snapshot_store.specs.Along.{IsAt};
ghost use Rattle.snapshot_store.specs.Stored.{IsSnap, kept_below};
ghost use Rattle.experiment.specs.Jobs.{RoseWithin};

use rv_machine::Machine;
use snapshot_store::{Snap, Snaps, advance};

// Moves the front to the stored state below a cycle, if that is nearer to the cycle.
fn bring_near(front: &mut Snap, snaps: &Snaps, cycle: u32)
    requires cycle { cycle < snaps.now.count }
    requires front { IsSnap snaps.now.case front.old.cycle front.old }
    ensures front { IsSnap snaps.now.case front.new.cycle front.new }
    ensures low { kept_below snaps.now.spacing cycle ≤ front.new.cycle }
    ensures high { front.new.cycle ≤ cycle }
{
    let snap = snaps.nearest(cycle);
    if cycle < front.cycle() || front.cycle() < snap.cycle() {
        front.set(snap.machine(), snap.cycle(), snap.sent());
    }
}

/// Takes the machine and the front to a cycle of the golden run, and returns the number of bytes sent by then.
pub(crate) fn go_to(front: &mut Snap, snaps: &Snaps, machine: &mut Machine, cycle: u32) -> usize
    requires cycle { cycle < snaps.now.count }
    requires front { IsSnap snaps.now.case front.old.cycle front.old }
    requires machine { machine.old.case ≡ snaps.now.case }
    ensures at { IsAt snaps.now.case cycle machine.new result }
    ensures taken { RoseWithin 0 machine.old.taken (cycle - kept_below snaps.now.spacing cycle) machine.new.taken }
    ensures front { IsSnap snaps.now.case front.new.cycle front.new }
{
    // This call gives the proof the bound of the count.
    let _ = machine.taken();
    bring_near(front, snaps, cycle);
    machine.copy_from(front.machine());
    let sent = advance(machine, front.sent(), front.cycle(), cycle);
    if front.cycle() < cycle {
        front.set(machine, cycle, sent);
    }
    sent
}
