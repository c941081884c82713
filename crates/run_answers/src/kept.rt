//! States that earlier runs had, each with the rest of its run. A run that comes into such a state at the same cycle
//! has the same rest, whatever it has sent before.

ghost use Rattle.std.specs.Prelude.{◌≡◌, ℕ, ◌-◌, ◌<◌, ◌≤◌, [], All, IfOk, IfSome, List, OnOk, length};
ghost use Rattle.run_answers.specs.Answers.{Answer, answer_from, answer_with};
ghost use Rattle.run_answers.specs.Kept.{HasPassed, IsKeptOf, IsKeptState, IsPassed};
ghost use Rattle.run_answers.specs.Legs.{IsRestAt};

use crate::rest::{Rest, bytes_after};
use fs_model::{Case, Event, NoMemory};
use rv_machine::Machine;
use std::alloc::Global;
use std::mem::swap;

// The most bytes of memory for kept states, unless one state takes more,
const MOST_MEMORY: usize = 4 << 20;

// the bytes that a state takes besides its RAM,
const BESIDES_RAM: usize = 4096;

// and the most states.
const MOST_STATES: usize = 1024;

// The most bytes of a rest that is kept.
const MOST_BYTES: usize = 64;

// The most states that one run notes: it is looked at once or twice for each doubling of its age.
const NOTED: usize = 16;

/// The state of an earlier run at a cycle, and the rest of that run. There is no last event until a state is kept here.
#[derive(Drop)]
pub(crate) struct KeptState<'a> {
    machine: Machine<'a>,
    cycle: u32,
    bytes: Vec<u8>,
    last: Option<Event>,
}

/// A state of the run in hand at a cycle, after it has sent this number of bytes.
#[derive(Drop)]
pub(crate) struct PassedState<'a> {
    machine: Machine<'a>,
    cycle: u32,
    sent: usize,
}

/// The states that are kept, and those that the run in hand has passed.
#[derive(Drop)]
pub(crate) struct Kept<'a> {
    case: &'a Case,
    states: Vec<KeptState<'a>>,
    trail: Vec<PassedState<'a>>,
    // The number of states on the trail that the run in hand has passed.
    passed: usize,
}

// Returns the number of states that are kept for a case with this number of bytes of RAM.
fn count_of(ram: usize) -> usize
    ensures { 1 ≤ result }
{
    (MOST_MEMORY / ram.saturating_add(BESIDES_RAM)).clamp(1, MOST_STATES)
}

// Adds `count` places for states of the machine's case to an empty list.
fn add_places<'a>(
    alloc: Global,
    machine: &Machine<'a>,
    count: usize,
    states: &mut Vec<KeptState<'a>>,
) -> Result<(), NoMemory>
    requires { states.old.items ≡ [] }
    ensures states { OnOk result (All (λ s. IsKeptState machine.now.case s) states.new.items) }
    ensures count { OnOk result (length states.new.items ≡ count) }
{
    for _ in 0..count {
        let machine = machine.another(alloc)?;
        states.push(KeptState {
            machine,
            cycle: 0,
            bytes: Vec::new(alloc),
            last: None,
        })?;
    }
    Ok(())
}

// Adds places for the states of a trail to an empty list.
fn add_trail<'a>(
    alloc: Global,
    machine: &Machine<'a>,
    trail: &mut Vec<PassedState<'a>>,
) -> Result<(), NoMemory>
    requires { trail.old.items ≡ [] }
    ensures { OnOk result (All (λ s. s.machine.case ≡ machine.now.case) trail.new.items) }
{
    for _ in 0..NOTED {
        let machine = machine.another(alloc)?;
        trail.push(PassedState {
            machine,
            cycle: 0,
            sent: 0,
        })?;
    }
    Ok(())
}

// Adds `count` places for kept states, and those for the states of a trail, to empty lists.
fn add_all<'a>(
    alloc: Global,
    machine: &Machine<'a>,
    count: usize,
    states: &mut Vec<KeptState<'a>>,
    trail: &mut Vec<PassedState<'a>>,
) -> Result<(), NoMemory>
    requires states { states.old.items ≡ [] }
    requires trail { trail.old.items ≡ [] }
    ensures states { OnOk result (All (λ s. IsKeptState machine.now.case s) states.new.items) }
    ensures count { OnOk result (length states.new.items ≡ count) }
    ensures trail { OnOk result (All (λ s. s.machine.case ≡ machine.now.case) trail.new.items) }
{
    add_places(alloc, machine, count, states)?;
    add_trail(alloc, machine, trail)
}

// Returns the place of a state among this number of places.
fn place_of(machine: &Machine, cycle: u32, places: usize) -> usize
    requires { 1 ≤ places }
    ensures { result < places }
{
    let mut hash = ((cycle as u64) << 32) | machine.pc() as u64;
    let mut factor: u64 = 0x9E37_79B9_7F4A_7C15;
    for register in machine.registers() {
        hash = hash.wrapping_add((*register as u64).wrapping_mul(factor));
        factor = factor.wrapping_mul(0xD6E8_FEB8_6659_FD93);
    }
    hash = (hash ^ (hash >> 32)).wrapping_mul(0xD6E8_FEB8_6659_FD93);
    (hash >> 32) as usize % places
}

// Keeps a state of a run that has sent `output` and had this last event, with its rest, in this place, unless the rest
// is long. The state's machine is not in that state then.
fn keep<'a>(
    place: &mut KeptState<'a>,
    state: &mut PassedState<'a>,
    output: &[u8],
    last: Event,
) -> Result<(), NoMemory>
    requires place { IsKeptState state.old.machine.case place.old }
    requires state { IsPassed state.old.machine.case (answer_with output.now last) state.old }
    ensures place { IsKeptState state.old.machine.case place.new }
    ensures state { state.new.machine.case ≡ state.old.machine.case }
{
    let bytes = bytes_after(output, state.sent);
    if bytes.len() > MOST_BYTES {
        return Ok(());
    }
    place.last = None;
    place.bytes.clear();
    place.bytes.extend_from_slice(bytes)?;
    swap(&mut place.machine, &mut state.machine);
    place.cycle = state.cycle;
    place.last = Some(last);
    Ok(())
}

impl<'a> Kept<'a> {
    /// Takes the memory for states of the machine's case, of which none is kept.
    ///
    /// # Errors
    ///
    /// `NoMemory` if memory is refused.
    pub(crate) fn new(
        alloc: Global,
        case: &'a Case,
        machine: &Machine<'a>,
    ) -> Result<Kept<'a>, NoMemory>
        requires { machine.now.case ≡ case.now }
        ensures { IfOk result (λ kept. IsKeptOf case.now kept) }
    {
        let mut states = Vec::new(alloc);
        let mut trail = Vec::new(alloc);
        let count = count_of(case.ram().len());
        match add_all(alloc, machine, count, &mut states, &mut trail) {
            Ok(()) => Ok(Kept {
                case,
                states,
                trail,
                passed: 0,
            }),
            Err(refused) => {
                drop(states);
                drop(trail);
                Err(refused)
            }
        }
    }

    /// Begins with another run, which has passed no states.
    pub(crate) fn begin(&mut self)
        requires { IsKeptOf self.old.case.now self.old }
        ensures kept { IsKeptOf self.new.case.now self.new }
        ensures case { self.new.case ≡ self.old.case }
        ensures passed { (answer : Answer) → HasPassed self.new.case.now answer self.new }
    {
        self.passed = 0;
    }

    /// Returns the rest of the machine's run, if its state at this cycle is kept.
    pub(crate) fn find(&self, machine: &Machine, cycle: u32) -> Option<Rest<'_>>
        requires kept { IsKeptOf self.now.case.now self.now }
        requires machine { machine.now.case ≡ self.now.case.now }
        ensures { IfSome result (λ rest. IsRestAt self.now.case.now cycle machine.now.core rest.bytes.now rest.last) }
    {
        let state = &self.states[place_of(machine, cycle, self.states.len())];
        let last = state.last?;
        if state.cycle == cycle && state.machine.stands_as(machine) {
            return Some(Rest {
                bytes: &state.bytes,
                last,
            });
        }
        None
    }

    /// Notes a state that the run in hand passes after it has sent this number of bytes, if there is room.
    pub(crate) fn note(&mut self, machine: &Machine, cycle: u32, sent: usize)
        requires kept { IsKeptOf self.old.case.now self.old }
        requires machine { machine.now.case ≡ self.old.case.now }
        ensures kept { IsKeptOf self.new.case.now self.new }
        ensures case { self.new.case ≡ self.old.case }
        ensures passed { (before : List ℕ) (answer : Answer) → length before ≡ sent
            → answer_from self.old.case.now (self.old.case.now.limit - cycle) (record { core = machine.now.core; output = before }) ≡ answer
            → HasPassed self.old.case.now answer self.old → HasPassed self.old.case.now answer self.new }
    {
        if self.passed < self.trail.len() {
            let state = &mut self.trail[self.passed];
            state.machine.copy_from(machine);
            state.cycle = cycle;
            state.sent = sent;
            self.passed += 1;
        }
    }

    /// Keeps the states that the run in hand has passed, now that it has sent `output` and had this last event.
    ///
    /// # Errors
    ///
    /// `NoMemory` if memory is refused.
    pub(crate) fn keep_passed(&mut self, output: &[u8], last: Event) -> Result<(), NoMemory>
        requires kept { IsKeptOf self.old.case.now self.old }
        requires passed { HasPassed self.old.case.now (answer_with output.now last) self.old }
        ensures kept { IsKeptOf self.new.case.now self.new }
        ensures case { self.new.case ≡ self.old.case }
    {
        while self.passed > 0 {
            self.passed -= 1;
            let state = &mut self.trail[self.passed];
            let place = place_of(&state.machine, state.cycle, self.states.len());
            keep(&mut self.states[place], state, output, last)?;
        }
        Ok(())
    }
}
