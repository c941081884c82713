//! A run that, one step after its flip, differs from the golden run in one bit of one cell at most, apart from registers
//! that are not live: its outcome is no effect, or that of the later site.

ghost use Rattle.std.specs.Prelude.{◌≡◌, ◌≤◌, true, IfOk, IfSome};
ghost use Rattle.fs_model.specs.declared.outcomes.Outcome.TheVariants.{NoEffect};
ghost use Rattle.fs_model.specs.Case.{CaseData};
ghost use Rattle.fs_model.specs.Outcome.{outcome};
ghost use Rattle.golden_trace.specs.Goldens.{IsGolden};
ghost use Rattle.dead_cells.specs.Live.{IsLiveness};
ghost use Rattle.live_registers.specs.Masks.{live_of};
ghost use Rattle.snapshot_store.specs.Stored.{IsSnap};
ghost use Rattle.known_states.specs.Known.{IsKnown, here};
ghost use Rattle.experiment.specs.LaterSites.{IsToldApart};

use crate::learned::Learned;
use access_log::touch_soon;
use fs_model::{Case, FIRST_BYTE, NoMemory, Outcome, Site};
use golden_trace::Golden;
use known_states::{Apart, Change, difference};
use live_registers::LiveRegisters;
use outcome_class::Watch;
use rv_machine::Machine;
use shared_sites::{KnownCase, SharedSites};
use snapshot_store::{Snap, advance};
use std::alloc::Global;
use std::marker::Model;

// The most instructions that are searched for the next touch of a byte.
const SOON: u32 = 16;

// Returns whether the golden run soon writes the cell of a site before it reads it. Then the site has no effect. The
// result `false` means nothing.
fn is_overwritten(golden: &Golden, site: Site) -> bool
    ensures { result ≡ true → (c : CaseData) → IsGolden c golden.now → outcome c site ≡ NoEffect }
{
    if site.cell == 0 || site.cycle >= golden.count() {
        return false;
    }
    match touch_soon(golden.touches(), site.cell, site.cycle, SOON) {
        Some((_, reads)) => !reads,
        None => false,
    }
}

/// What is known of the run in hand by the outcomes of sites: the outcome of its own site, and the later site whose
/// run it is. That site is found by comparing the run with the golden run at the same cycle.
#[derive(Drop)]
pub(crate) struct LaterSite<'c> {
    case: &'c Case,
    // The golden run at a cycle, and the number of bytes that it has sent by then.
    machine: Machine<'c>,
    cycle: u32,
    sent: usize,
    // Room for a byte of RAM that differs.
    room: Vec<Change>,
    // The site of the run in hand, its outcome if that is known, and the later site.
    own: Site,
    known: Option<Outcome>,
    met: Option<Site>,
}

impl<'c> Model for LaterSite<'c> {
    ghost use Rattle.experiment.specs.LaterSites.{LaterData, IsLater};

    ghost Value = { LaterData };

    ghost view = { λ l. record { case = l.case.now; own = l.own } };

    ghost invariant = { λ l. IsLater l.case.now l.machine l.cycle l.sent l.own l.known l.met };
}

impl<'c> LaterSite<'c> {
    /// Makes the record of a worker that has run no job yet. Takes all memory that it needs. `start` is a state of
    /// the golden run.
    ///
    /// # Errors
    ///
    /// `NoMemory` if memory is refused.
    pub(crate) fn new(
        alloc: Global,
        case: &'c Case,
        start: &Snap<'c>,
    ) -> Result<LaterSite<'c>, NoMemory>
        requires start { IsSnap case.now start.now.cycle start.now }
        ensures { IfOk result (λ l. l.case ≡ case.now) }
    {
        let room = Vec::with_capacity(alloc, 1)?;
        let mut machine = start.machine().another(alloc)?;
        machine.copy_from(start.machine());
        Ok(LaterSite {
            case,
            machine,
            cycle: start.cycle(),
            sent: start.sent(),
            room,
            own: Site {
                cycle: 0,
                cell: 0,
                bit: 0,
            },
            known: None,
            met: None,
        })
    }

    /// Takes the golden run to the cycle after that of `front`, unless it has ended there.
    pub(crate) fn bring(&mut self, golden: &Golden, front: &Snap)
        requires { IsSnap self.old.case front.now.cycle front.now }
        ensures { self.new ≡ self.old }
    {
        let count = golden.count();
        if front.cycle() >= count {
            return;
        }
        let cycle = front.cycle() + 1;
        if cycle < count && cycle != self.cycle {
            self.machine.copy_from(front.machine());
            self.sent = advance(&mut self.machine, front.sent(), front.cycle(), cycle);
            self.cycle = cycle;
        }
    }

    /// Begins with the run of a site. `first` is a site with the same outcome, which is the one whose outcome an
    /// earlier run has found, if any has.
    pub(crate) fn begin<K: KnownCase>(&mut self, sites: &SharedSites<K>, site: Site, first: Site)
        requires sites { sites.now ≡ self.old.case }
        requires first { outcome self.old.case first ≡ outcome self.old.case site }
        ensures { self.new ≡ record self.old { own = site } }
    {
        self.own = site;
        self.known = sites.find(first);
        self.met = None;
    }

    /// Returns the cycle of the site whose run is in hand, at which that run begins.
    pub(crate) fn cycle(&self) -> u32
        ensures { result ≡ self.now.own.cycle }
    {
        self.own.cycle
    }

    // Returns how the run in hand differs from the golden run here, if it is at the same cycle and sent the same.
    fn apart(
        &mut self,
        golden: &Golden,
        live: &LiveRegisters,
        machine: &Machine,
        watch: &Watch<'_>,
        cycle: u32,
    ) -> Option<Apart>
        requires golden { IsGolden self.old.case golden.now }
        requires live { IsLiveness self.old.case (live_of live.now) }
        requires machine { machine.now.case ≡ self.old.case }
        requires own { IsKnown self.old.case golden.now (here machine.now cycle watch.now.sent) (outcome self.old.case self.old.own) }
        ensures told { IfSome result (λ apart. IsToldApart self.old.case self.old.own apart) }
        ensures same { self.new ≡ self.old }
    {
        if cycle != self.cycle || cycle >= golden.count() {
            return None;
        }
        if watch.sent()? != self.sent {
            return None;
        }
        difference(&self.machine, machine, live, cycle, &mut self.room)
    }

    // Keeps the later site, unless its outcome is in the table, and returns the outcome of the run in hand, if that of its own site or of the later site is
    // known. A register that is soon overwritten is not live, so only bytes of RAM are searched for that.
    fn by_site<K: KnownCase>(
        &mut self,
        sites: &SharedSites<K>,
        golden: &Golden,
        site: Site,
    ) -> Option<Outcome>
        requires sites { sites.now ≡ self.old.case }
        requires golden { IsGolden self.old.case golden.now }
        requires site { outcome self.old.case self.old.own ≡ outcome self.old.case site }
        ensures known { IfSome result (λ known. known ≡ outcome self.old.case self.old.own) }
        ensures same { self.new ≡ self.old }
    {
        self.met = Some(site);
        if self.known.is_some() {
            return self.known;
        }
        let known = sites.find(site);
        if known.is_some() {
            // The table has it, and so does not learn it again.
            self.met = None;
            return known;
        }
        if site.cell >= FIRST_BYTE && is_overwritten(golden, site) {
            return Some(Outcome::NoEffect);
        }
        None
    }

    /// Returns the outcome of the run in hand, if it does not differ from the golden run in what matters, or if the
    /// outcome of its own site or of the later site is known. The run is at this cycle.
    pub(crate) fn look<K: KnownCase>(
        &mut self,
        golden: &Golden,
        learned: &Learned<'_, K>,
        machine: &Machine,
        watch: &Watch<'_>,
        cycle: u32,
    ) -> Option<Outcome>
        requires golden { IsGolden self.old.case golden.now }
        requires learned { learned.now.snaps.case ≡ self.old.case }
        requires machine { machine.now.case ≡ self.old.case }
        requires own { IsKnown self.old.case golden.now (here machine.now cycle watch.now.sent) (outcome self.old.case self.old.own) }
        ensures known { IfSome result (λ known. known ≡ outcome self.old.case self.old.own) }
        ensures same { self.new ≡ self.old }
    {
        match self.apart(golden, learned.live(), machine, watch, cycle) {
            Some(Apart::Nowhere) => Some(Outcome::NoEffect),
            Some(Apart::InBit(site)) => self.by_site(learned.sites(), golden, site),
            None => self.known,
        }
    }

    /// Stores the outcome of the run in hand for the later site, unless another thread has its part of the table.
    pub(crate) fn learn<K: KnownCase>(&self, sites: &SharedSites<K>, known: Outcome)
        requires sites { sites.now ≡ self.now.case }
        requires known { known ≡ outcome self.now.case self.now.own }
    {
        if let Some(site) = self.met {
            sites.learn(site, known);
        }
    }
}
