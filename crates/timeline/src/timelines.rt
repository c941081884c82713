//! A run that stands after some number of instructions, and can be set after any other.
ghost use Rattle.std.specs.Prelude.{ℕ, Option, None, ◌≡◌, ◌+◌, ◌-◌, ◌<◌, ◌≤◌, IfOk, IfSome, unwrap_or, is_some, take, length, drop};
ghost use Rattle.timeline.specs.Places.{IsFlip, event_at, last_of, state_at};

use crate::along::walk;
use crate::first_pass::{first_pass, flip_at};
use crate::kept::Kept;
use fs_model::{Case, Event, NoMemory, Site};
use rv_machine::Machine;
use std::alloc::Global;
use std::marker::Model;

// The most states that are kept of a run, with 2 more.
const KEPT: u32 = 256;

/// A run with an optional flip, after some number of instructions: its place.
#[derive(Drop)]
pub struct Timeline<'c> {
    case: &'c Case,
    flip: Option<Site>,
    spacing: u32,
    kept: Vec<Kept<'c>>,
    machine: Machine<'c>,
    place: u32,
    sent: usize,
    last: u32,
    end: Event,
    output: Vec<u8>,
}

impl<'c> Model for Timeline<'c> {
    ghost use Rattle.timeline.specs.Timelines.{TimelineData, IsTimeline};

    ghost Value = { TimelineData };

    ghost view = { λ t. record { case = t.case.now; flip = t.flip; place = t.place } };

    ghost invariant = { λ t. IsTimeline t.case.now t.flip t.spacing t.kept.items t.machine t.place t.sent t.last t.end t.output.items };
}

impl<'c> Timeline<'c> {
    /// Returns the run of a case before its first instruction. Runs it once, and keeps some of its states.
    ///
    /// # Errors
    ///
    /// `NoMemory` if memory is refused. Each of at most 257 kept states takes as much as the case's RAM.
    pub fn new(alloc: Global, case: &'c Case, flip: Option<Site>) -> Result<Timeline<'c>, NoMemory>
        requires { IsFlip case.now flip }
        ensures { IfOk result (λ t. t ≡ record { case = case.now; flip = flip; place = 0 }) }
    {
        let spacing = case.limit() / KEPT + 1;
        let mut machine = Machine::new(alloc, case)?;
        flip_at(&mut machine, flip, 0);
        match first_pass(alloc, case, &mut machine, flip, spacing) {
            Ok(pass) => {
                machine.copy_from(pass.kept[0].machine());
                let sent = pass.kept[0].sent();
                Ok(Timeline {
                    case,
                    flip,
                    spacing,
                    kept: pass.kept,
                    machine,
                    place: 0,
                    sent,
                    last: pass.last,
                    end: pass.end,
                    output: pass.output,
                })
            }
            Err(refused) => {
                drop(machine);
                Err(refused)
            }
        }
    }

    /// Returns the number of instructions that were executed.
    pub fn place(&self) -> u32
        ensures value { result ≡ self.now.place }
        ensures within { result ≤ last_of self.now.case self.now.flip }
    {
        self.place
    }

    /// Returns the number of instructions before the one that ends the run, or the limit.
    pub fn last(&self) -> u32
        ensures value { result ≡ last_of self.now.case self.now.flip }
        ensures limit { result ≤ self.now.case.limit }
    {
        self.last
    }

    /// Returns what the instruction that ends the run reports. It means nothing if the run does not end before the
    /// limit.
    pub fn end(&self) -> Event
        ensures { last_of self.now.case self.now.flip < self.now.case.limit
            → result ≡ event_at self.now.case self.now.flip (last_of self.now.case self.now.flip) }
    {
        self.end
    }

    /// Returns a machine that holds the state here.
    pub fn machine(&self) -> &Machine<'c>
        ensures case { result.now.case ≡ self.now.case }
        ensures core { result.now.core ≡ (state_at self.now.case self.now.flip self.now.place).core }
    {
        &self.machine
    }

    /// Returns the bytes that the run has sent.
    pub fn output(&self) -> &[u8]
        ensures { result.now ≡ (state_at self.now.case self.now.flip self.now.place).output }
    {
        &self.output[..self.sent]
    }

    /// Goes to another place of the run. Executes at most as many instructions as lie between two kept states, or as
    /// from here to there.
    pub fn go_to(&mut self, place: u32)
        requires { place ≤ last_of self.old.case self.old.flip }
        ensures { self.new ≡ record self.old { place = place } }
    {
        let nearest = usize::min((place / self.spacing) as usize, self.kept.len() - 1);
        let kept_place = nearest as u32 * self.spacing;
        if self.place > place || self.place < kept_place {
            let kept = &self.kept[nearest];
            self.machine.copy_from(kept.machine());
            self.sent = kept.sent();
            self.place = kept_place;
        }
        self.sent = walk(&mut self.machine, self.sent, self.flip, self.place, place);
        self.place = place;
    }

    pub(crate) fn case(&self) -> &'c Case
        ensures { result.now ≡ self.now.case }
    {
        self.case
    }

    /// Returns the distance between kept states.
    pub(crate) fn spacing(&self) -> u32
        ensures { 1 ≤ result }
    {
        self.spacing
    }
}
