//! The rounds of a loop.

ghost use Rattle.std.specs.Prelude.{ℕ, true, ◌≡◌, ◌+◌, ◌*◌, ◌^◌, ◌<◌, ◌≤◌, length, slice_index};
ghost use Rattle.counting_loops.specs.Rounds.{AllComeBack, AllWordsComeBack, ComesBack, PathStays, IsLong, EntryComesBack};

use crate::paces::Pace;
use crate::steps::step_stays;
use crate::words::{Held, WORDS, pace_of, word_of};
use fs_model::Case;
use rv_machine::Machine;

// The number of registers.
const REGISTERS: usize = 32;

/// The paces at one place of a loop: those of the registers, and those of words of RAM.
#[derive(Clone, Copy, Debug)]
pub(crate) struct Paces {
    pub(crate) registers: [Pace; REGISTERS],
    pub(crate) words: [Held; WORDS],
}

/// A loop: its first round, and the last one that has to go on.
#[derive(Clone, Copy, Debug)]
pub(crate) struct Extent {
    /// The number of instructions of a round.
    pub(crate) length: u32,
    pub(crate) last: u32,
}

// Takes the machine, and the paces in `now`, through the first round, from the state of `head`. Returns whether all
// rounds up to the last one are known to go on in the same way.
fn path_stays(
    case: &Case,
    head: &Machine,
    machine: &mut Machine,
    paces: &Paces,
    now: &mut Paces,
    extent: Extent,
) -> bool
    requires head { head.now.case ≡ case.now }
    requires machine { machine.old.case ≡ case.now }
    ensures case { machine.new.case ≡ machine.old.case }
    ensures stays { result ≡ true → PathStays case.now extent.last extent.length paces.now.registers paces.now.words head.now.core
        now.new.registers now.new.words machine.new.core }
{
    machine.copy_from(head);
    *now = *paces;
    for _step in 0..extent.length {
        if !step_stays(
            case,
            machine,
            &mut now.registers,
            &mut now.words,
            extent.last,
        ) {
            return false;
        }
    }
    true
}

fn comes_back(before: Pace, after: Pace, first: u32, next: u32) -> bool
    ensures { result ≡ true → ComesBack before after first next }
{
    match before {
        Pace::By(step) => after == Pace::By(step) && next == first.wrapping_add(step),
        Pace::Unknown => true,
    }
}

// Returns whether each register begins the second round one pace from where it began the first one, and has the
// same pace there, or is unknown.
fn all_come_back(
    before: &[Pace; REGISTERS],
    after: &[Pace; REGISTERS],
    first: &[u32; REGISTERS],
    next: &[u32; REGISTERS],
) -> bool
    ensures back { result ≡ true → AllComeBack before.now after.now first.now next.now 32 }
    ensures low { result ≡ true → (k : ℕ) → k < 32 → slice_index first.now k < 2 ^ 32 }
    ensures length { length first.now ≡ 32 }
{
    for k in 0..REGISTERS {
        if !comes_back(before[k], after[k], first[k], next[k]) {
            return false;
        }
    }
    true
}

// Returns whether a word begins the second round one pace from where it began the first one, and has the same pace
// there, or is unknown.
fn word_comes_back(entry: Held, after: &[Held; WORDS], first: &[u8], next: &[u8]) -> bool
    ensures { result ≡ true → EntryComesBack after.now first.now next.now entry }
{
    let Pace::By(_) = entry.pace else {
        return true;
    };
    match (word_of(first, entry.word), word_of(next, entry.word)) {
        (Some(v), Some(w)) => comes_back(entry.pace, pace_of(after, entry.word), v, w),
        _ => false,
    }
}

// Returns whether each word does.
fn all_words_come_back(
    before: &[Held; WORDS],
    after: &[Held; WORDS],
    first: &[u8],
    next: &[u8],
) -> bool
    ensures { result ≡ true → AllWordsComeBack before.now after.now first.now next.now }
{
    for j in 0..WORDS {
        if !word_comes_back(before[j], after, first, next) {
            return false;
        }
    }
    true
}

// Makes the paces unknown that do not come back.
fn weaken(before: &mut Paces, after: &Paces, head: &Machine, machine: &Machine) {
    let first = head.registers();
    let next = machine.registers();
    for k in 0..REGISTERS {
        if !comes_back(before.registers[k], after.registers[k], first[k], next[k]) {
            before.registers[k] = Pace::Unknown;
        }
    }
    for j in 0..WORDS {
        if !word_comes_back(before.words[j], &after.words, head.ram(), machine.ram()) {
            before.words[j].pace = Pace::Unknown;
        }
    }
}

// Returns whether the machine is at the place of `head`, and all begin the second round one pace from where they
// began the first one.
fn is_back(head: &Machine, machine: &Machine, before: &Paces, after: &Paces) -> bool
    ensures pc { result ≡ true → machine.now.core.pc ≡ head.now.core.pc }
    ensures back { result ≡ true → AllComeBack before.now.registers after.now.registers head.now.core.regs machine.now.core.regs 32 }
    ensures low { result ≡ true → (k : ℕ) → k < 32 → slice_index head.now.core.regs k < 2 ^ 32 }
    ensures length { result ≡ true → length head.now.core.regs ≡ 32 }
    ensures words { result ≡ true → AllWordsComeBack before.now.words after.now.words head.now.core.ram machine.now.core.ram }
{
    machine.pc() == head.pc()
        && all_come_back(
            &before.registers,
            &after.registers,
            head.registers(),
            machine.registers(),
        )
        && all_words_come_back(&before.words, &after.words, head.ram(), machine.ram())
}

// The most passes over a loop's path.
const PASSES: usize = 64;

/// Returns whether the machine `head` is in a loop of this length in which all rounds up to the last one are known to
/// go on. Begins with these paces, and makes those unknown that do not come back. The other machine is changed.
pub(crate) fn rounds_stay(
    case: &Case,
    head: &Machine,
    machine: &mut Machine,
    paces: &mut Paces,
    now: &mut Paces,
    extent: Extent,
) -> bool
    requires head { head.now.case ≡ case.now }
    requires machine { machine.old.case ≡ case.now }
    ensures case { machine.new.case ≡ machine.old.case }
    ensures long { result ≡ true → IsLong case.now head.now.core ((extent.last + 1) * extent.length) }
{
    // This call gives the proof the size of RAM.
    let _ = head.ram();
    // Each pass makes a pace unknown, or is the last one.
    for _pass in 0..PASSES {
        if !path_stays(case, head, machine, paces, now, extent) {
            return false;
        }
        if is_back(head, machine, paces, now) {
            return true;
        }
        weaken(paces, now, head, machine);
    }
    false
}
