//! The states and sites by which the outcome of a run is known before its end. The rest of a run in such a state is that
//! of an earlier run, except for wrong output, which later output cannot correct.

ghost use Rattle.std.specs.Prelude.{◌≡◌, ℕ, ◌-◌, ◌≤◌, true, List, [], All, IfOk, IfSome};
ghost use Rattle.fs_model.specs.Run.{Over, ending};
ghost use Rattle.fs_model.specs.Outcome.{outcome};
ghost use Rattle.known_states.specs.Known.{IsKnown, here, stands_for};
ghost use Rattle.snapshot_store.specs.Stored.{IsSnap};
ghost use Rattle.experiment.specs.Jobs.{IsNotedHere};

use crate::later::LaterSite;
use crate::learned::{CHANGES, Learned};
use crate::reference::Reference;
use counting_loops::Loops;
use fs_model::{Case, NoMemory, Outcome, Site};
use known_states::{Table, Tally, Trail};
use outcome_class::Watch;
use rv_machine::Machine;
use shared_sites::KnownCase;
use snapshot_store::{Snap, Snaps};
use std::alloc::Global;
use std::marker::Model;

// The most states that one run notes: it is looked at once or twice for each doubling of its age.
const NOTED: usize = 64;

// The fewest steps that a run must have left to be searched for a loop. A search takes as long as some thousand
// steps of a run.
const WORTH_A_SEARCH: u32 = 16384;

// The fewest steps from the flip to a search. Most runs that leave the golden run's way come back to it soon.
const FAR_FROM_FLIP: u32 = 512;

// Returns whether a run that was flipped at `from` is looked at here. Counted in spacings, the cycle must be a
// multiple of the largest power of two that is at most the run's age. So a run is looked at once or twice for each
// doubling of its age, at cycles that all runs share.
fn is_look(cycle: u32, from: u32, spacing: u32) -> bool
    requires spacing { 1 ≤ spacing }
    requires order { from ≤ cycle }
{
    let turns = (cycle - from) / spacing;
    cycle % spacing == 0 && (cycle / spacing).trailing_zeros() + turns.leading_zeros() >= 31
}

// Returns the outcome of the run's state if it is known, and otherwise notes its key.
fn met<K: KnownCase>(
    table: &Table<'_, K>,
    snaps: &Snaps,
    trail: &mut Trail,
    machine: &Machine,
    watch: &Watch<'_>,
    cycle: u32,
) -> Option<Outcome>
    requires machine { machine.now.case ≡ snaps.now.case }
    requires some { 1 ≤ snaps.now.count }
    requires table { table.now.snaps ≡ snaps.now }
    ensures known { IfSome result (λ outcome. IsKnown snaps.now.case table.now.golden (here machine.now cycle watch.now.sent) outcome) }
    ensures noted { IsNotedHere snaps.now (here machine.now cycle watch.now.sent) trail.old.keys trail.new.keys }
{
    if !trail.set(snaps, table.live(), machine, cycle, watch.sent()) {
        return None;
    }
    let known = table.find(trail.here());
    if known.is_none() {
        trail.note();
    }
    known
}

// Returns whether the run is at another pc than the golden run at a stored cycle, or longer than it.
fn is_astray(snaps: &Snaps, machine: &Machine, at: u32) -> bool {
    match snaps.at(at) {
        Some(snap) => snap.machine().pc() != machine.pc(),
        None => true,
    }
}

// Returns whether a run that has left the golden run's way is known to go on to its limit, because it is in a loop
// that only counts.
fn is_endless(
    loops: &mut Loops,
    reference: &Reference<'_, '_>,
    machine: &Machine,
    at: u32,
    from: u32,
) -> bool
    requires machine { machine.now.case ≡ loops.old }
    requires order { from ≤ at }
    ensures over { result ≡ true → (output : List ℕ)
        → ending loops.old (reference.now.case.now.limit - at) (record { core = machine.now.core; output = output }) ≡ Over }
    ensures loops { loops.new ≡ loops.old }
{
    let left = reference.case.limit().saturating_sub(at);
    left >= WORTH_A_SEARCH
        && at - from >= FAR_FROM_FLIP
        && is_astray(reference.snaps, machine, at)
        && loops.goes_on(machine, at - from, left)
}

/// What a worker needs to know the outcome of a run before its end: what the run has passed, the search for loops, and
/// the sites whose run it is.
#[derive(Drop)]
pub(crate) struct Shortcuts<'c> {
    trail: Trail,
    loops: Loops<'c>,
    later: LaterSite<'c>,
}

impl<'c> Model for Shortcuts<'c> {
    ghost use Rattle.std.specs.Prelude.{◌≡◌};
    ghost use Rattle.experiment.specs.Kept.{ShortcutsData};

    ghost Value = { ShortcutsData };

    ghost view = { λ s. record { case = s.later.case; own = s.later.own; keys = s.trail.keys } };

    ghost invariant = { λ s. s.loops ≡ s.later.case };
}

impl<'c> Shortcuts<'c> {
    /// Takes all memory that the runs need. `start` is a state of the golden run.
    ///
    /// # Errors
    ///
    /// `NoMemory` if memory is refused.
    pub(crate) fn new(
        alloc: Global,
        case: &'c Case,
        start: &Snap<'c>,
    ) -> Result<Shortcuts<'c>, NoMemory>
        requires start { IsSnap case.now start.now.cycle start.now }
        ensures { IfOk result (λ s. s.case ≡ case.now) }
    {
        let trail = Trail::new(alloc, NOTED, CHANGES)?;
        let Ok(loops) = Loops::new(alloc, case, start.machine()) else {
            drop(trail);
            return Err(NoMemory);
        };
        let Ok(later) = LaterSite::new(alloc, case, start) else {
            drop(trail);
            drop(loops);
            return Err(NoMemory);
        };
        Ok(Shortcuts {
            trail,
            loops,
            later,
        })
    }

    /// Returns the counts of looks at the runs.
    pub(crate) fn tally(&self) -> Tally {
        self.trail.tally()
    }

    /// Returns the cycle at which the run in hand begins.
    pub(crate) fn cycle(&self) -> u32
        ensures { result ≡ self.now.own.cycle }
    {
        self.later.cycle()
    }

    /// Begins with the run of a site. `first` is a site with the same outcome, which is the one whose outcome an
    /// earlier run has found, if any has. `front` is the golden run's state at the site's cycle.
    pub(crate) fn begin<K: KnownCase>(
        &mut self,
        reference: &Reference<'_, '_>,
        learned: &Learned<'_, K>,
        front: &Snap,
        site: Site,
        first: Site,
    )
        requires learned { learned.now.snaps.case ≡ self.old.case }
        requires front { IsSnap self.old.case front.now.cycle front.now }
        requires first { outcome self.old.case first ≡ outcome self.old.case site }
        ensures { self.new ≡ record { case = self.old.case; own = site; keys = [] } }
    {
        self.trail.clear();
        self.later.bring(reference.golden, front);
        self.later.begin(learned.sites(), site, first);
    }

    /// Returns the outcome of the run in hand if it is known here: by a site, by the state of an earlier run, or because
    /// the run is in a loop up to its limit.
    pub(crate) fn outcome_here<K: KnownCase>(
        &mut self,
        reference: &Reference<'_, '_>,
        learned: &Learned<'_, K>,
        machine: &Machine,
        watch: &Watch<'_>,
        at: u32,
    ) -> Option<Outcome>
        requires case { self.old.case ≡ reference.now.case.now }
        requires learned_snaps { learned.now.snaps ≡ reference.now.snaps.now }
        requires learned_golden { learned.now.golden ≡ reference.now.golden.now }
        requires machine { machine.now.case ≡ reference.now.case.now }
        requires order { self.old.own.cycle ≤ at }
        requires own { IsKnown reference.now.case.now reference.now.golden.now (here machine.now at watch.now.sent)
            (outcome reference.now.case.now self.old.own) }
        ensures known { IfSome result (λ known. IsKnown reference.now.case.now reference.now.golden.now
            (here machine.now at watch.now.sent) known) }
        ensures noted { IsNotedHere reference.now.snaps.now (here machine.now at watch.now.sent) self.old.keys self.new.keys }
        ensures same { (self.new.case ≡ self.old.case) × (self.new.own ≡ self.old.own) }
    {
        let from = self.later.cycle();
        let by_site = self
            .later
            .look(reference.golden, learned, machine, watch, at);
        if by_site.is_some() {
            return by_site;
        }
        if !is_look(at, from, reference.snaps.spacing()) {
            return None;
        }
        let by_state = met(
            learned.table(),
            reference.snaps,
            &mut self.trail,
            machine,
            watch,
            at,
        );
        if by_state.is_some() {
            return by_state;
        }
        if is_endless(&mut self.loops, reference, machine, at, from) {
            return Some(Outcome::Timeout);
        }
        None
    }

    /// Stores the outcome of the run in hand for the states that it passed and for the later site whose run it is,
    /// unless another thread has their part of the table.
    pub(crate) fn learn<K: KnownCase>(&self, learned: &Learned<'_, K>, found: Outcome)
        requires case { learned.now.snaps.case ≡ self.now.case }
        requires found { found ≡ outcome self.now.case self.now.own }
        requires keys { All (λ key. IsKnown learned.now.snaps.case learned.now.golden (stands_for learned.now.snaps key) found) self.now.keys }
    {
        learned.table().learn_all(&self.trail, found);
        self.later.learn(learned.sites(), found);
    }
}
