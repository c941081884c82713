//! States of the core, and applying events to them.

ghost use Rattle.std.specs.Prelude.{◌≡◌, ◌<◌, ◌≤◌, ◌==◌, ◌↔◌, [], IfOk, filter, length, vec_len, vec_capacity};
ghost use Rattle.event_core.specs.declared.events.CoreEvent.TheVariants.{Claim, File, Keep, Stop, Resume};
ghost use Rattle.event_core.specs.declared.states.Place.{Place};

use crate::events::{CoreEvent, HeldJob};
use crate::lists::{holder, holds, is_empty_hand, is_front, put, put_all, queue_left};
use fs_model::NoMemory;
use std::alloc::Global;
use std::marker::Model;

/// The effect of an event.
#[derive(Clone, Copy, PartialEq, Eq, Debug)]
pub enum Applied {
    Did,
    /// The event was not possible, and changed nothing.
    Nothing,
}

/// The place of a job.
#[derive(Clone, Copy, PartialEq, Eq, Debug)]
pub enum Place {
    Nowhere,
    Queue,
    /// Claimed by this worker.
    Hand(u32),
    Filed,
    Kept,
}

/// A state of the core. Each list has room for all jobs, so no event takes memory.
#[derive(Drop)]
pub struct State {
    jobs: u32,
    running: bool,
    queue: Vec<u32>,
    hands: Vec<HeldJob>,
    filed: Vec<u32>,
    kept: Vec<u32>,
}

impl Model for State {
    ghost use Rattle.event_core.specs.EventCore.{CoreState};

    ghost Value = { CoreState };

    ghost use Rattle.event_core.specs.State.{inside_core, HasRoom};

    ghost view = { inside_core };

    ghost invariant = { HasRoom };
}

impl State {
    ghost use Rattle.event_core.specs.EventCore.{core_start, next_state, applied, with_keep, stopped};
    ghost use Rattle.event_core.specs.State.{answer, StandsAt};

    /// Returns a state that is stopped and keeps no job.
    pub fn new(alloc: Global, jobs: u32) -> Result<State, NoMemory>
        ensures { IfOk result (λ s. s ≡ core_start jobs) }
    {
        let queue = Vec::with_capacity(alloc, jobs as usize)?;
        let hands = Vec::with_capacity(alloc, jobs as usize)?;
        let filed = Vec::with_capacity(alloc, jobs as usize)?;
        let kept = Vec::with_capacity(alloc, jobs as usize)?;
        Ok(State {
            jobs,
            running: false,
            queue,
            hands,
            filed,
            kept,
        })
    }

    /// Returns the number of jobs.
    pub fn jobs(&self) -> u32
        ensures { result ≡ self.now.jobs }
    {
        self.jobs
    }

    /// Applies an event, if it is possible.
    pub fn apply(&mut self, event: &CoreEvent) -> Applied
        ensures state { self.new ≡ applied self.old event.now }
        ensures answer { result ≡ answer (next_state self.old event.now) }
    {
        match *event {
            CoreEvent::Claim { worker, job } => self.claim(worker, job),
            CoreEvent::File { worker, job } => self.file(worker, job),
            CoreEvent::Keep => {
                self.keep();
                Applied::Did
            }
            CoreEvent::Stop { whole } => {
                if whole {
                    self.keep();
                }
                self.stop();
                Applied::Did
            }
            CoreEvent::Resume => self.resume(),
        }
    }

    /// Returns the place of a job.
    pub fn place_of(&self, job: u32) -> Place
        requires { job < self.now.jobs }
        ensures { (place : Place) → (result ≡ place) ↔ StandsAt self.now job place }
    {
        if self.queue.contains(&job) {
            return Place::Queue;
        }
        if let Some(worker) = holder(&self.hands, job) {
            return Place::Hand(worker);
        }
        if self.filed.contains(&job) {
            return Place::Filed;
        }
        if self.kept.contains(&job) {
            return Place::Kept;
        }
        Place::Nowhere
    }

    fn claim(&mut self, worker: u32, job: u32) -> Applied
        ensures state { self.new ≡ applied self.old (Claim worker job) }
        ensures answer { result ≡ answer (next_state self.old (Claim worker job)) }
    {
        if is_front(&self.queue, job) && is_empty_hand(&self.hands, worker) {
            self.queue.remove(0);
            put(&mut self.hands, HeldJob { worker, job });
            return Applied::Did;
        }
        Applied::Nothing
    }

    fn file(&mut self, worker: u32, job: u32) -> Applied
        ensures state { self.new ≡ applied self.old (File worker job) }
        ensures answer { result ≡ answer (next_state self.old (File worker job)) }
    {
        if holds(&self.hands, worker, job) {
            self.hands.retain(|hand| hand.worker != worker);
            put(&mut self.filed, job);
            return Applied::Did;
        }
        Applied::Nothing
    }

    fn keep(&mut self)
        ensures { self.new ≡ with_keep self.old }
    {
        put_all(&mut self.kept, &self.filed);
        self.filed.clear();
    }

    fn stop(&mut self)
        ensures { self.new ≡ stopped self.old }
    {
        self.running = false;
        self.queue.clear();
        self.hands.clear();
        self.filed.clear();
    }

    fn resume(&mut self) -> Applied
        ensures state { self.new ≡ applied self.old Resume }
        ensures answer { result ≡ answer (next_state self.old Resume) }
    {
        if self.running {
            return Applied::Nothing;
        }
        self.running = true;
        queue_left(&mut self.queue, &self.kept, self.jobs);
        Applied::Did
    }
}
