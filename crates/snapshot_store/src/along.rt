//! Moving a machine along the golden run.

ghost use Rattle.std.specs.Prelude.{◌≡◌, ◌-◌, ◌≤◌};
ghost use Rattle.snapshot_store.specs.Along.{IsAt, Rose, sent_by};

use fs_model::Event;
use rv_machine::Machine;

// Returns the number of bytes that an event sends.
fn sent_by(event: Event) -> usize
    ensures { result ≡ sent_by event }
{
    match event {
        Event::Out(_) => 1,
        Event::Went | Event::Halted(_) | Event::Detected | Event::Trapped(_) => 0,
    }
}

/// Moves the machine from one cycle of the golden run to a later one. Returns the number of bytes that the run
/// has sent by then, given the number `sent` before.
pub fn advance(machine: &mut Machine, sent: usize, from: u32, to: u32) -> usize
    requires order { from ≤ to }
    requires at { IsAt machine.old.case from machine.old sent }
    ensures at { IsAt machine.old.case to machine.new result }
    ensures taken { Rose machine.old.taken (to - from) machine.new.taken }
{
    // This call gives the proof the bound of the count.
    let _ = machine.taken();
    let mut sent = sent;
    let mut left = (to - from) as u64;
    while left > 0 {
        let (event, taken) = machine.run(left);
        left -= taken;
        sent += sent_by(event);
    }
    sent
}
