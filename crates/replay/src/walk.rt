//! A walk along an injected run, in step with the golden run.
ghost use Rattle.std.specs.Prelude.{◌≡◌, ◌&&◌, ◌<◌, ◌≤◌};
ghost use Rattle.fs_model.specs.Run.{after};
ghost use Rattle.phases.specs.Sites.{IsSite};
ghost use Rattle.timeline.specs.Places.{from_flip};
ghost use Rattle.replay.specs.Walk.{IsWalk};

use crate::differences::{Differences, send_same};
use fs_model::{Case, Event, Site};
use rv_machine::Machine;
use snapshot_store::{Snaps, advance};

/// The number of steps of the injected run that went on, the event of the next step (`Went` at the limit), and the
/// first differences from the golden run.
#[derive(Clone, Copy)]
pub(crate) struct Walk {
    pub(crate) went: u32,
    pub(crate) last: Event,
    pub(crate) differences: Differences,
}

/// Takes the machine to the golden run's state before an instruction, from the nearest stored state.
pub(crate) fn stand_before(snaps: &Snaps, machine: &mut Machine, cycle: u32)
    requires snaps { snaps.now.case ≡ machine.old.case }
    requires cycle { cycle < snaps.now.count }
    ensures core { machine.new.core ≡ (after machine.old.case cycle).core }
    ensures case { machine.new.case ≡ machine.old.case }
{
    let snap = snaps.nearest(cycle);
    machine.copy_from(snap.machine());
    let _ = advance(machine, snap.sent(), snap.cycle(), cycle);
}

/// Takes the machine to the first state of the injected run: before the site's instruction, with the bit flipped.
pub(crate) fn stand_at_flip(snaps: &Snaps, machine: &mut Machine, site: &Site)
    requires snaps { snaps.now.case ≡ machine.old.case }
    requires cycle { site.now.cycle < snaps.now.count }
    requires site { IsSite machine.old.case site.now }
    ensures core { machine.new.core ≡ (from_flip machine.old.case site.now).core }
    ensures case { machine.new.case ≡ machine.old.case }
{
    stand_before(snaps, machine, site.cycle);
    machine.flip(site.cell, site.bit);
}

fn both(a: bool, b: bool) -> bool
    ensures { result ≡ (a && b) }
{
    a && b
}

/// Walks along the injected run of a site. Both machines may be in any state of the case.
pub(crate) fn walk_along(
    case: &Case,
    snaps: &Snaps,
    machine: &mut Machine,
    golden: &mut Machine,
    site: &Site,
) -> Walk
    requires site { IsSite case.now site.now }
    requires snaps { snaps.now.case ≡ case.now }
    requires cycle { site.now.cycle < snaps.now.count }
    requires machine { machine.old.case ≡ case.now }
    requires golden { golden.old.case ≡ case.now }
    requires within { site.now.cycle ≤ case.now.limit }
    ensures walk { IsWalk case.now site.now result }
    ensures case { machine.new.case ≡ case.now }
    ensures golden_case { golden.new.case ≡ case.now }
{
    stand_at_flip(snaps, machine, site);
    stand_before(snaps, golden, site.cycle);
    let most = case.limit() - site.cycle;
    let mut differences = Differences::none();
    let mut sent_same = true;
    for taken in 0..most {
        differences = differences.with(site.cycle + taken, machine, golden, sent_same);
        let event = machine.step();
        if !event.goes_on() {
            return Walk {
                went: taken,
                last: event,
                differences,
            };
        }
        sent_same = both(sent_same, send_same(event, golden.step()));
    }
    Walk {
        went: most,
        last: Event::Went,
        differences,
    }
}
