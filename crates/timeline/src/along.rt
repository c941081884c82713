//! Moving a machine along a run with an optional flip.
ghost use Rattle.std.specs.Prelude.{◌≡◌, ◌-◌, ◌<◌, ◌≤◌, Some, length};
ghost use Rattle.fs_model.specs.Cell.{IsCell, bits};
ghost use Rattle.snapshot_store.specs.Along.{sent_by};
ghost use Rattle.timeline.specs.Places.{IsFlip, IsHere, IsOn};

use fs_model::{Event, Site};
use rv_machine::Machine;
use snapshot_store::advance;

fn sent_by(event: Event) -> usize
    ensures { result ≡ sent_by event }
{
    match event {
        Event::Out(_) => 1,
        Event::Went | Event::Halted(_) | Event::Detected | Event::Trapped(_) => 0,
    }
}

// Moves the machine from one place after the flip to a later one. Returns the number of bytes that the run has sent
// by then.
fn advance_on(machine: &mut Machine, sent: usize, site: Site, from: u32, to: u32) -> usize
    requires order { from ≤ to }
    requires flipped { site.cycle ≤ from }
    requires at { IsOn machine.old.case site (from - site.cycle) machine.old sent }
    ensures { IsOn machine.old.case site (to - site.cycle) machine.new result }
{
    let mut sent = sent;
    let mut left = (to - from) as u64;
    while left > 0 {
        let (event, taken) = machine.run(left);
        left -= taken;
        sent += sent_by(event);
    }
    sent
}

// Moves the machine of a run with a flip.
fn walk_site(machine: &mut Machine, sent: usize, site: Site, from: u32, to: u32) -> usize
    requires order { from ≤ to }
    requires cell { IsCell machine.old.case site.cell }
    requires bit { site.bit < bits site.cell }
    requires here { IsHere machine.old.case (Some site) from machine.old sent }
    ensures { IsHere machine.old.case (Some site) to machine.new result }
{
    if to < site.cycle {
        return advance(machine, sent, from, to);
    }
    if from >= site.cycle {
        return advance_on(machine, sent, site, from, to);
    }
    let sent = advance(machine, sent, from, site.cycle);
    machine.flip(site.cell, site.bit);
    advance_on(machine, sent, site, site.cycle, to)
}

/// Moves the machine from one place of the run to a later one. Returns the number of bytes that the run has sent by
/// then, given the number `sent` before.
pub(crate) fn walk(
    machine: &mut Machine,
    sent: usize,
    flip: Option<Site>,
    from: u32,
    to: u32,
) -> usize
    requires order { from ≤ to }
    requires flips { IsFlip machine.old.case flip }
    requires here { IsHere machine.old.case flip from machine.old sent }
    ensures { IsHere machine.old.case flip to machine.new result }
{
    match flip {
        None => advance(machine, sent, from, to),
        Some(site) => walk_site(machine, sent, site, from, to),
    }
}
