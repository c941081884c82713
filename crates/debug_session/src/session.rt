//! A session: the two runs, where they stand, the breakpoints and the watchpoints.
ghost use Rattle.std.specs.Prelude.{◌≡◌, ◌≤◌, ◌<◌, [], ◌++◌, IfOk, Some};
ghost use Rattle.timeline.specs.Places.{IsFlip};
ghost use Rattle.timeline.specs.declared.watches.Watch.{Watch};
ghost use Rattle.timeline.specs.declared.watches.Hit.TheVariants.{Watchpoint};
ghost use Rattle.debug_session.specs.Session as spec;
ghost use Rattle.debug_session.specs.LastWrites.{last_write_words};
ghost use Rattle.debug_session.specs.Words.{difference_words, output_words, site_words};
ghost use Rattle.debug_session.specs.declared.commands.Shown.TheVariants.{Golden, Injected};

use crate::commands::Shown;
use crate::last_writes::put_run;
use crate::points::{has_watch, without, without_watch};
use crate::replies::{Stop, arrival, ended};
use crate::words::{put_differences, put_output, put_site};
use fs_model::{Case, NoMemory, Outcome, Site};
use rv_machine::Machine;
use std::alloc::Global;
use std::marker::Model;
use std::mem::swap;
use timeline::{Hit, Timeline, Watch};

/// What is told of a site besides its numbers.
#[derive(Clone, Copy)]
pub struct SiteFacts {
    /// The number of sites with the same effect, or `None` if the site is dead.
    pub weight: Option<u32>,
    pub outcome: Outcome,
}

/// A session with the injected run of a site, and the run without the flip beside it.
#[derive(Drop)]
pub struct Session<'c> {
    case: &'c Case,
    site: Site,
    facts: SiteFacts,
    shown: Shown,
    here: Timeline<'c>,
    there: Timeline<'c>,
    stops: Vec<u32>,
    watches: Vec<Watch>,
}

impl<'c> Model for Session<'c> {
    ghost use Rattle.debug_session.specs.Session.{SessionData, IsSession};

    ghost Value = { SessionData };

    ghost view = { λ s. record {
      case = s.case.now;
      site = s.site;
      facts = s.facts;
      shown = s.shown;
      place = s.here.place;
      stops = s.stops.items;
      watches = s.watches.items;
    } };

    ghost invariant = { λ s. IsSession s.case.now s.site s.shown s.here s.there };
}

fn is_same(a: Shown, b: Shown) -> bool
    ensures { result ≡ spec.is_same a b }
{
    match (a, b) {
        (Shown::Injected, Shown::Injected) | (Shown::Golden, Shown::Golden) => true,
        (Shown::Injected, Shown::Golden) | (Shown::Golden, Shown::Injected) => false,
    }
}

// Returns the place of a run that would step from here to there: here, if it stops at a watchpoint.
fn unless_touched(touched: Option<Watch>, here: u32, there: u32) -> u32
    ensures { result ≡ spec.unless_touched touched here there }
{
    match touched {
        Some(_) => here,
        None => there,
    }
}

// Returns the place before the instruction that led to a place, if that touched a watchpoint.
fn before_touch(hit: Option<Hit>, place: u32) -> u32
    ensures value { result ≡ spec.before_touch hit place }
    ensures within { result ≤ place }
{
    match hit {
        Some(Hit::Watchpoint(_)) => place.saturating_sub(1),
        Some(Hit::Breakpoint) | None => place,
    }
}

// Returns the place after the instruction that follows a place, if that touches a watchpoint.
fn after_touch(hit: Option<Hit>, place: u32, end: u32) -> u32
    requires within { place ≤ end }
    requires early { (watch : Watch) → hit ≡ Some (Watchpoint watch) → place < end }
    ensures value { result ≡ spec.after_touch hit place }
    ensures within { result ≤ end }
{
    match hit {
        Some(Hit::Watchpoint(_)) => place + 1,
        Some(Hit::Breakpoint) | None => place,
    }
}

// Returns why a run stands still: the watchpoint that is touched, or otherwise another reason.
fn touch_or(touched: Option<Watch>, stop: Stop) -> Stop
    ensures { result ≡ spec.touch_or touched stop }
{
    match touched {
        Some(watch) => Stop::AtWatchpoint(watch),
        None => stop,
    }
}

// Returns why a run stands still that came to its end, whose instruction touches a watchpoint.
fn watched_end(watch: Watch, stop: Stop) -> Stop
    ensures { result ≡ spec.watched_end watch stop }
{
    match stop {
        Stop::AtEnd => Stop::AtWatchedEnd(watch),
        _ => Stop::AtWatchpoint(watch),
    }
}

// Returns why a run stands still that came to its end.
fn touch_or_end(touched: Option<Watch>, stop: Stop) -> Stop
    ensures { result ≡ spec.touch_or_end touched stop }
{
    match touched {
        Some(watch) => watched_end(watch, stop),
        None => stop,
    }
}

// Returns why a run stands still, by what stopped it.
fn hit_stop(hit: Hit) -> Stop
    ensures { result ≡ spec.hit_stop hit }
{
    match hit {
        Hit::Breakpoint => Stop::AtBreakpoint,
        Hit::Watchpoint(watch) => Stop::AtWatchpoint(watch),
    }
}

// Returns why a run stands still that went back to the floor.
fn floor_stop(floor: u32) -> Stop
    ensures { result ≡ spec.floor_stop floor }
{
    if 0 < floor {
        Stop::Moved
    } else {
        Stop::AtBegin
    }
}

impl<'c> Session<'c> {
    /// Returns the session that stands before the site's instruction, with the bit flipped.
    ///
    /// # Errors
    ///
    /// `NoMemory` if memory is refused.
    pub fn new(
        alloc: Global,
        case: &'c Case,
        site: Site,
        facts: SiteFacts,
    ) -> Result<Session<'c>, NoMemory>
        requires { IsFlip case.now (Some site) }
        ensures { IfOk result (λ s. s ≡ spec.gone_to
            (record { case = case.now; site = site; facts = facts; shown = Injected; place = 0; stops = []; watches = [] }) site.cycle) }
    {
        let here = Timeline::new(alloc, case, Some(site))?;
        match Timeline::new(alloc, case, None) {
            Ok(there) => {
                let mut session = Session {
                    case,
                    site,
                    facts,
                    shown: Shown::Injected,
                    here,
                    there,
                    stops: Vec::new(alloc),
                    watches: Vec::new(alloc),
                };
                session.go_to(site.cycle);
                Ok(session)
            }
            Err(refused) => {
                drop(here);
                Err(refused)
            }
        }
    }

    /// Returns a machine that holds the state here.
    pub(crate) fn machine(&self) -> &Machine<'c>
        ensures { result.now.core ≡ (spec.state_of self.now).core }
    {
        self.here.machine()
    }

    /// Returns the bytes that the shown run has sent.
    pub(crate) fn output(&self) -> &[u8]
        ensures { result.now ≡ (spec.state_of self.now).output }
    {
        self.here.output()
    }

    pub(crate) fn case(&self) -> &'c Case
        ensures { result.now ≡ self.now.case }
    {
        self.case
    }

    /// Goes to a place of the shown run, or to its last one.
    pub(crate) fn go_to(&mut self, place: u32)
        ensures { self.new ≡ spec.gone_to self.old place }
    {
        let place = u32::min(place, self.here.last());
        self.here.go_to(place);
    }

    /// Goes to the place where a session begins: to the flip, or to the last place of a run that ends before it.
    pub(crate) fn restart(&mut self)
        ensures { self.new ≡ spec.restarted self.old }
    {
        self.go_to(self.site.cycle);
    }

    // Returns the watchpoint that the next instruction touches.
    fn touched(&self) -> Option<Watch>
        ensures { result ≡ spec.touched_over self.now self.now.place }
    {
        self.here.touched(self.watches.as_slice())
    }

    // Returns how the shown run ends.
    fn end_stop(&self) -> Stop
        ensures { result ≡ spec.end_stop self.now }
    {
        if self.here.last() < self.case.limit() {
            ended(self.here.end())
        } else {
            Stop::Signalled(24)
        }
    }

    // Returns the watchpoint that the instruction touches which ends the shown run. That is at its last place.
    fn end_touched(&self) -> Option<Watch>
        requires { self.now.place ≡ spec.last self.now }
        ensures { result ≡ spec.end_touched self.now }
    {
        if self.here.last() < self.case.limit() {
            self.touched()
        } else {
            None
        }
    }

    /// Executes one instruction, unless it touches a watchpoint.
    pub(crate) fn step(&mut self) -> Stop
        ensures stop { result ≡ spec.step_stop self.old }
        ensures place { self.new ≡ spec.at self.old (spec.step_place self.old) }
    {
        let place = self.here.place();
        if place < self.here.last() {
            let touched = self.touched();
            self.here.go_to(unless_touched(touched, place, place + 1));
            touch_or(touched, Stop::Moved)
        } else {
            touch_or(self.end_touched(), self.end_stop())
        }
    }

    /// Goes back one instruction, unless it touches a watchpoint.
    pub(crate) fn step_back(&mut self) -> Stop
        ensures stop { result ≡ spec.back_stop self.old }
        ensures place { self.new ≡ spec.at self.old (spec.back_place self.old) }
    {
        let place = self.here.place();
        if 0 < place {
            self.here.go_to(place - 1);
            let touched = self.touched();
            self.here.go_to(unless_touched(touched, place, place - 1));
            touch_or(touched, Stop::Moved)
        } else {
            Stop::AtBegin
        }
    }

    // Returns why a run stands still that came to its end, or was there before.
    fn end_or_arrival(&self, before: u32) -> Stop
        requires { self.now.place ≡ spec.last self.now }
        ensures { result ≡ spec.end_or_arrival (spec.at self.now before) }
    {
        let touched = self.end_touched();
        if before < self.here.last() {
            touch_or_end(touched, arrival(self.end_stop()))
        } else {
            touch_or(touched, self.end_stop())
        }
    }

    /// Goes on to a breakpoint or a watchpoint, or to the end.
    pub(crate) fn go_on(&mut self) -> Stop
        ensures stop { result ≡ spec.continue_stop self.old }
        ensures place { self.new ≡ spec.at self.old (spec.continue_place self.old) }
    {
        let place = self.here.place();
        let hit = self
            .here
            .go_on_to(self.stops.as_slice(), self.watches.as_slice());
        match hit {
            None => self.end_or_arrival(place),
            Some(stopped) => {
                self.here.go_to(before_touch(hit, self.here.place()));
                hit_stop(stopped)
            }
        }
    }

    // Returns the place before which the shown run does not go back at once.
    fn floor(&self) -> u32
        ensures value { result ≡ spec.floor self.now }
        ensures within { result ≤ self.now.place }
    {
        match self.shown {
            Shown::Injected if self.site.cycle < self.here.place() => self.site.cycle,
            _ => 0,
        }
    }

    /// Goes back to a breakpoint or a watchpoint, to the flip, or to the first instruction.
    pub(crate) fn go_back(&mut self) -> Stop
        ensures stop { result ≡ spec.continue_back_stop self.old }
        ensures place { self.new ≡ spec.at self.old (spec.continue_back_place self.old) }
    {
        let place = self.here.place();
        let floor = self.floor();
        let hit = self
            .here
            .go_back_to(self.stops.as_slice(), self.watches.as_slice(), floor);
        self.here.go_to(after_touch(hit, self.here.place(), place));
        match hit {
            Some(stopped) => hit_stop(stopped),
            None => floor_stop(floor),
        }
    }

    // Returns the first place from the flip on at which the two runs differ. Both are left at any places.
    fn first_apart(&mut self) -> Option<u32>
        ensures found { result ≡ spec.first_apart self.old }
        ensures same { self.new ≡ spec.at self.old self.new.place }
    {
        let cycle = self.site.cycle;
        match self.shown {
            Shown::Injected => self.here.first_apart(&mut self.there, cycle),
            Shown::Golden => self.there.first_apart(&mut self.here, cycle),
        }
    }

    /// Goes to the first place from the flip on at which the two runs differ in the pc or in what they have sent, and
    /// returns it. If there is none, stays here.
    pub(crate) fn go_to_first(&mut self) -> Option<u32>
        ensures found { result ≡ spec.first_apart self.old }
        ensures place { self.new ≡ spec.go_to_first self.old }
    {
        let place = self.here.place();
        let first = self.first_apart();
        self.go_to(first.unwrap_or(place));
        first
    }

    /// Shows one of the runs, after the same number of instructions.
    pub(crate) fn show(&mut self, shown: Shown)
        ensures { self.new ≡ spec.show self.old shown }
    {
        let place = self.here.place();
        if !is_same(shown, self.shown) {
            swap(&mut self.here, &mut self.there);
            self.shown = shown;
        }
        self.go_to(place);
    }

    /// Adds a breakpoint.
    ///
    /// # Errors
    ///
    /// `NoMemory` if memory is refused.
    pub(crate) fn insert(&mut self, address: u32) -> Result<(), NoMemory>
        ensures { IfOk result (λ _. self.new ≡ record self.old { stops = spec.with_stop self.old.stops address }) }
    {
        if !self.stops.contains(&address) {
            self.stops.push(address)?;
        }
        Ok(())
    }

    /// Removes a breakpoint.
    pub(crate) fn remove(&mut self, address: u32)
        ensures { self.new ≡ record self.old { stops = spec.without_stop self.old.stops address } }
    {
        without(&mut self.stops, address);
    }

    /// Adds a watchpoint.
    ///
    /// # Errors
    ///
    /// `NoMemory` if memory is refused.
    pub(crate) fn watch(&mut self, watch: Watch) -> Result<(), NoMemory>
        ensures { IfOk result (λ _. self.new ≡ record self.old { watches = spec.with_watch self.old.watches watch }) }
    {
        if !has_watch(self.watches.as_slice(), &watch) {
            self.watches.push(watch)?;
        }
        Ok(())
    }

    /// Removes a watchpoint.
    pub(crate) fn unwatch(&mut self, watch: Watch)
        ensures { self.new ≡ record self.old { watches = spec.without_watch self.old.watches watch } }
    {
        without_watch(&mut self.watches, &watch);
    }

    /// Appends the site, what is told of it, and the place.
    pub(crate) fn put_site(&self, text: &mut Vec<u8>) -> Result<(), NoMemory>
        ensures { IfOk result (λ _. text.new.items ≡ text.old.items ++ site_words self.now.site self.now.facts self.now.place) }
    {
        put_site(text, self.site, self.facts, self.here.place())
    }

    /// Puts into the empty text in what the injected run differs from the golden run after the same number of
    /// instructions, or at its last place.
    pub(crate) fn put_differences(&mut self, text: &mut Vec<u8>) -> Result<(), NoMemory>
        requires { text.old.items ≡ [] }
        ensures same { self.new ≡ self.old }
        ensures text { IfOk result (λ _. text.new.items ≡ difference_words self.old.case.ram_base
            (spec.state_of (spec.show self.old Injected)).core (spec.state_of (spec.show self.old Golden)).core) }
    {
        self.case.facts();
        let base = self.case.ram_base();
        let place = u32::min(self.here.place(), self.there.last());
        self.there.go_to(place);
        let here = self.here.machine();
        let there = self.there.machine();
        match self.shown {
            Shown::Injected => put_differences(text, base, here, there),
            Shown::Golden => put_differences(text, base, there, here),
        }
    }

    /// Appends the bytes that the two runs have sent after the same number of instructions, or at the last place.
    pub(crate) fn put_output(&mut self, text: &mut Vec<u8>) -> Result<(), NoMemory>
        ensures same { self.new ≡ self.old }
        ensures text { IfOk result (λ _. text.new.items ≡ text.old.items ++ output_words
            (spec.state_of (spec.show self.old Injected)).output (spec.state_of (spec.show self.old Golden)).output) }
    {
        let place = u32::min(self.here.place(), self.there.last());
        self.there.go_to(place);
        let here = self.here.output();
        let there = self.there.output();
        match self.shown {
            Shown::Injected => put_output(text, here, there),
            Shown::Golden => put_output(text, there, here),
        }
    }

    /// Appends which instruction wrote the register last, in the two runs after the same number of instructions, or at
    /// the last place.
    pub(crate) fn put_last_write(
        &mut self,
        text: &mut Vec<u8>,
        register: u32,
    ) -> Result<(), NoMemory>
        ensures same { self.new ≡ self.old }
        ensures text { IfOk result (λ _. text.new.items ≡ text.old.items ++ last_write_words self.old.case self.old.site register
            (spec.show self.old Injected).place (spec.show self.old Golden).place) }
    {
        let place = u32::min(self.here.place(), self.there.last());
        self.there.go_to(place);
        match self.shown {
            Shown::Injected => {
                put_run(text, b"injected ", &mut self.here, register)?;
                put_run(text, b"golden   ", &mut self.there, register)
            }
            Shown::Golden => {
                put_run(text, b"injected ", &mut self.there, register)?;
                put_run(text, b"golden   ", &mut self.here, register)
            }
        }
    }
}
