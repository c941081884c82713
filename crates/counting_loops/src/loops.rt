//! Finding the loop that a run is in.

ghost use Rattle.std.specs.Prelude.{ℕ, List, true, ◌≡◌, ◌+◌, ◌<◌, ◌≤◌, IfOk, IfSome};
ghost use Rattle.fs_model.specs.Machine.{Core};
ghost use Rattle.fs_model.specs.Run.{Over, ending};
ghost use Rattle.counting_loops.specs.Rounds.{LeadsTo};

use crate::paces::Pace;
use crate::rounds::{Extent, Paces, rounds_stay};
use crate::search_budget::SearchBudget;
use crate::steps::word_touched;
use crate::words::{NO_WORD, WORDS, put, word_of};
use fs_model::{Case, NoMemory};
use rv_machine::Machine;
use std::alloc::Global;
use std::marker::Model;

// The numbers of steps that are taken to find a loop, one after the other. In a loop of some length, each of the last
// half of all these steps is at the pc of the step that is that length earlier. The length is at most the other half,
// so the longest loop that is found has 4,096 instructions.
const STAGES: [u32; 3] = [512, 1536, 6144];

// The ages that a run must have for them, so that no search takes more steps than the run has taken. Most younger runs
// soon meet a state that is known.
const AGES: [u32; 3] = [4096, 16384, 65536];

// The number of all these steps.
const STEPS: usize = 8192;

// The instructions of the longest loop.
const LONGEST: u32 = 4096;

// What a search works with.
#[derive(Drop)]
struct Scratch<'c> {
    // The state at which the loop begins.
    head: Machine<'c>,
    machine: Machine<'c>,
    // The pcs of the steps before the head.
    pcs: Vec<u32>,
    borders: Vec<u32>,
    // The paces at the head, and at a place of the loop.
    paces: Paces,
    now: Paces,
}

/// The memory that the search for loops needs: two machines of a case, the pcs of some steps, and paces.
#[derive(Drop)]
pub struct Loops<'c> {
    case: &'c Case,
    scratch: Scratch<'c>,
    budget: SearchBudget,
}

impl<'c> Model for Loops<'c> {
    ghost use Rattle.std.specs.Prelude.{◌≡◌};
    ghost use Rattle.fs_model.specs.Case.{CaseData};
    ghost use Rattle.counting_loops.specs.Scratch.{OfCase};

    ghost Value = { CaseData };

    ghost view = { λ l. l.case.now };

    ghost invariant = { λ l. OfCase l.case.now l.scratch.head.case l.scratch.machine.case };
}

// Returns the pc of the step that many steps before the last one.
fn from_end(pcs: &[u32], steps: usize) -> u32 {
    if steps < pcs.len() {
        pcs[pcs.len() - 1 - steps]
    } else {
        0
    }
}

// Returns the number of steps that are still alike, at the end and some steps earlier, if one more is at this pc.
// Before, `alike` were; `borders` has the numbers for fewer steps.
fn alike_with(pcs: &[u32], borders: &[u32], alike: u32, pc: u32) -> u32 {
    let mut alike = alike;
    for _border in 0..pcs.len() {
        if from_end(pcs, alike as usize) == pc {
            return alike.saturating_add(1);
        }
        if alike == 0 || alike as usize > borders.len() {
            return 0;
        }
        alike = borders[alike as usize - 1];
    }
    0
}

// Returns the number of steps of the shortest loop that the last half of the steps follows, if there is one. Reads the
// pcs backwards, and searches for the first half of them, as Knuth, Morris and Pratt do.
fn loop_length(pcs: &[u32], borders: &mut Vec<u32>) -> Option<u32>
    ensures { IfSome result (λ length. 0 < length) }
{
    let half = pcs.len() / 2;
    borders.clear();
    borders.push(0).ok()?;
    let mut alike = 0;
    for i in 1..pcs.len() {
        alike = alike_with(pcs, borders, alike, from_end(pcs, i));
        if i < half {
            borders.push(alike).ok()?;
        } else if alike as usize >= half {
            return u32::try_from(i + 1 - half).ok();
        }
    }
    None
}

/// How a run goes on for some steps.
#[derive(Clone, Copy, PartialEq, Eq, Debug)]
enum Way {
    /// It ends, or memory is refused.
    Ends,
    Goes,
    /// It comes back to the state in which it began, so it never ends.
    Repeats,
}

// Takes a machine some steps forward, and notes their pcs. `kept` has the state in which it begins.
fn follow(case: &Case, kept: &Machine, head: &mut Machine, pcs: &mut Vec<u32>, steps: u32) -> Way
    requires head { head.old.case ≡ case.now }
    requires kept { kept.now.case ≡ case.now }
    requires same { kept.now.core ≡ head.old.core }
    ensures case { head.new.case ≡ head.old.case }
    ensures leads { result ≡ Way.Goes → (start : Core) (m : ℕ) → LeadsTo case.now start m head.old.core → LeadsTo case.now start (m + steps) head.new.core }
    ensures repeats { result ≡ Way.Repeats → (rest : ℕ) (output : List ℕ) → ending case.now rest (record { core = head.old.core; output = output }) ≡ Over }
{
    let _ = case;
    for _step in 0..steps {
        if pcs.push(head.pc()).is_err() || !head.step().goes_on() {
            return Way::Ends;
        }
        if head.pc() == kept.pc() && head.stands_as(kept) {
            return Way::Repeats;
        }
    }
    Way::Goes
}

// Guesses how far each register, and each word that the first round touches, moves in one round from the head.
fn guess(case: &Case, head: &Machine, machine: &mut Machine, paces: &mut Paces, length: u32)
    requires head { head.now.case ≡ case.now }
    requires machine { machine.old.case ≡ case.now }
    ensures { machine.new.case ≡ machine.old.case }
{
    machine.copy_from(head);
    paces.words = [NO_WORD; WORDS];
    for _step in 0..length {
        if let Some(k) = word_touched(case, machine) {
            put(&mut paces.words, k, Pace::By(0));
        }
        let _ = machine.step();
    }
    guess_paces(head, machine, paces);
}

// Guesses them from the state at the head and that one round later.
fn guess_paces(head: &Machine, machine: &Machine, paces: &mut Paces) {
    let first = head.registers();
    let next = machine.registers();
    for k in 0..32 {
        paces.registers[k] = Pace::By(next[k].wrapping_sub(first[k]));
    }
    for j in 0..WORDS {
        let Pace::By(_) = paces.words[j].pace else {
            continue;
        };
        let k = paces.words[j].word;
        paces.words[j].pace = match (word_of(head.ram(), k), word_of(machine.ram(), k)) {
            (Some(v), Some(w)) => Pace::By(w.wrapping_sub(v)),
            _ => Pace::Unknown,
        };
    }
}

const NO_PACES: Paces = Paces {
    registers: [Pace::Unknown; 32],
    words: [NO_WORD; WORDS],
};

// Returns whether a run from the head is known to go on for `rest` steps, in a loop of this length.
fn loop_stays(case: &Case, scratch: &mut Scratch, length: u32, rest: u32) -> bool
    requires head { scratch.old.head.case ≡ case.now }
    requires machine { scratch.old.machine.case ≡ case.now }
    requires some { 0 < length }
    ensures head { scratch.new.head ≡ scratch.old.head }
    ensures machine { scratch.new.machine.case ≡ scratch.old.machine.case }
    ensures over { result ≡ true → (output : List ℕ) → ending case.now rest (record { core = scratch.old.head.core; output = output }) ≡ Over }
{
    guess(
        case,
        &scratch.head,
        &mut scratch.machine,
        &mut scratch.paces,
        length,
    );
    let extent = Extent {
        length,
        last: rest / length,
    };
    rounds_stay(
        case,
        &scratch.head,
        &mut scratch.machine,
        &mut scratch.paces,
        &mut scratch.now,
        extent,
    )
}

// The rounds of a loop that are also taken as one. What an instruction takes from the low bits of a number that moves
// comes back after 2, 4 or 8 rounds.
const ROUNDS: u32 = 8;

// The kind of search that takes several rounds as one; those before are the stages.
const SEVERAL_ROUNDS: usize = STAGES.len();

// Returns whether a run from the head, which comes from the pcs of a stage, is known to go on for `rest` steps.
fn stays(
    case: &Case,
    scratch: &mut Scratch,
    rest: u32,
    stage: usize,
    budget: &mut SearchBudget,
) -> bool
    requires head { scratch.old.head.case ≡ case.now }
    requires machine { scratch.old.machine.case ≡ case.now }
    ensures head { scratch.new.head ≡ scratch.old.head }
    ensures machine { scratch.new.machine.case ≡ scratch.old.machine.case }
    ensures over { result ≡ true → (output : List ℕ) → ending case.now rest (record { core = scratch.old.head.core; output = output }) ≡ Over }
{
    let Some(length) = loop_length(&scratch.pcs, &mut scratch.borders) else {
        return false;
    };
    if loop_stays(case, scratch, length, rest) {
        return true;
    }
    budget.spend(stage, length);
    if length > LONGEST / ROUNDS || !budget.is_worth(SEVERAL_ROUNDS, ROUNDS * length) {
        return false;
    }
    budget.spend(SEVERAL_ROUNDS, ROUNDS * length);
    let found = loop_stays(case, scratch, ROUNDS * length, rest);
    if found {
        budget.earn(SEVERAL_ROUNDS, rest);
    }
    found
}

// Searches for a loop in which a run that is in the state of `start` goes on for `left` steps. Returns whether there
// is one. `age` is the number of steps since the flip.
fn search(
    case: &Case,
    scratch: &mut Scratch,
    start: &Machine,
    age: u32,
    left: u32,
    budget: &mut SearchBudget,
) -> bool
    requires start { start.now.case ≡ case.now }
    requires head { scratch.old.head.case ≡ case.now }
    requires machine { scratch.old.machine.case ≡ case.now }
    ensures head { scratch.new.head.case ≡ scratch.old.head.case }
    ensures machine { scratch.new.machine.case ≡ scratch.old.machine.case }
    ensures over { result ≡ true → (output : List ℕ) → ending case.now left (record { core = start.now.core; output = output }) ≡ Over }
{
    scratch.pcs.clear();
    scratch.head.copy_from(start);
    let mut rest = left;
    for stage in 0..3 {
        let steps = STAGES[stage];
        if age < AGES[stage] {
            return false;
        }
        if rest / 32 < steps || !budget.is_worth(stage, steps) {
            return false;
        }
        budget.spend(stage, steps);
        scratch.machine.copy_from(&scratch.head);
        match follow(
            case,
            &scratch.machine,
            &mut scratch.head,
            &mut scratch.pcs,
            steps,
        ) {
            Way::Ends => return false,
            Way::Repeats => {
                budget.earn(stage, rest);
                return true;
            }
            Way::Goes => {}
        }
        rest -= steps;
        let found = stays(case, scratch, rest, stage, budget);
        if found {
            budget.earn(stage, rest);
            return true;
        }
    }
    false
}

impl<'c> Loops<'c> {
    /// Takes all memory that the search needs, for machines of the case.
    ///
    /// # Errors
    ///
    /// `NoMemory` if memory is refused.
    pub fn new(alloc: Global, case: &'c Case, machine: &Machine<'c>) -> Result<Loops<'c>, NoMemory>
        requires { machine.now.case ≡ case.now }
        ensures { IfOk result (λ l. l ≡ case.now) }
    {
        let pcs = Vec::with_capacity(alloc, STEPS)?;
        let borders = Vec::with_capacity(alloc, STEPS / 2)?;
        let head = machine.another(alloc)?;
        match machine.another(alloc) {
            Ok(machine) => Ok(Loops {
                case,
                scratch: Scratch {
                    head,
                    machine,
                    pcs,
                    borders,
                    paces: NO_PACES,
                    now: NO_PACES,
                },
                budget: SearchBudget::new(),
            }),
            Err(refused) => {
                drop(head);
                Err(refused)
            }
        }
    }

    /// Returns whether a run that is in the machine's state is known to go on for `left` steps, because it is in a
    /// loop that only counts. The result `false` means nothing. Loops that are long are searched for only if the
    /// run's age, the number of steps since its flip, makes it worth the time.
    pub fn goes_on(&mut self, machine: &Machine, age: u32, left: u32) -> bool
        requires { machine.now.case ≡ self.old }
        ensures case { self.new ≡ self.old }
        ensures over { result ≡ true → (output : List ℕ) → ending self.old left (record { core = machine.now.core; output = output }) ≡ Over }
    {
        search(
            self.case,
            &mut self.scratch,
            machine,
            age,
            left,
            &mut self.budget,
        )
    }
}
