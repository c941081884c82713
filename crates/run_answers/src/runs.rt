//! An injected run to its end, with all bytes that it sends.

ghost use Rattle.std.specs.Prelude.{◌≡◌, ◌+◌, ◌-◌, ◌<◌, ◌≤◌, ◌++◌, IfOk, OnOk, IfSome};
ghost use Rattle.fs_model.specs.Leg.{sent};
ghost use Rattle.run_answers.specs.Answers.{answer_from, answer_with};
ghost use Rattle.run_answers.specs.Kept.{HasPassed, IsKeptOf};
ghost use Rattle.run_answers.specs.Legs.{IsAnswerLeg, IsRestAt};

use crate::kept::Kept;
use crate::reference::Reference;
use crate::rest::{Rest, bytes_after};
use fs_model::{Event, NoMemory};
use rv_machine::Machine;

// Returns the rest of the golden run, if the cycle is a stored one and the machine is in the golden run's state there.
// What the machine's run has sent so far may differ.
fn golden_rest<'a>(reference: &Reference<'a>, machine: &Machine, cycle: u32) -> Option<Rest<'a>>
    requires machine { machine.now.case ≡ reference.now }
    ensures { IfSome result (λ rest. IsRestAt reference.now cycle machine.now.core rest.bytes.now rest.last) }
{
    let snap = reference.snaps.at(cycle)?;
    if machine.stands_as(snap.machine()) {
        return Some(Rest {
            bytes: bytes_after(reference.golden.output(), snap.sent()),
            last: Event::Halted(reference.golden.exit()),
        });
    }
    None
}

// Returns whether the states of a run that was flipped at `from` are looked up and noted here. Counted in spacings, the
// cycle must be a multiple of the largest power of two that is at most the run's age. So a run is looked at once or
// twice for each doubling of its age, at cycles that all runs share.
fn is_look(cycle: u32, from: u32, spacing: u32) -> bool
    requires spacing { 1 ≤ spacing }
    requires order { from ≤ cycle }
{
    let turns = (cycle - from) / spacing;
    cycle % spacing == 0 && (cycle / spacing).trailing_zeros() + turns.leading_zeros() >= 31
}

// Adds the bytes of a rest, and returns its last event.
fn add_rest(output: &mut Vec<u8>, rest: Rest<'_>) -> Result<Option<Event>, NoMemory>
    ensures { IfOk result (λ last. (last ≡ Some rest.entry.last) × (output.new.items ≡ output.old.items ++ rest.entry.bytes.now)) }
{
    output.extend_from_slice(rest.bytes)?;
    Ok(Some(rest.last))
}

// Continues a run to its end if its rest is known, because the golden run or, where the run is looked at, an earlier
// run had its state at this cycle. Returns its last event then, and otherwise `None`.
fn end_known(
    reference: &Reference<'_>,
    kept: &Kept<'_>,
    machine: &Machine,
    output: &mut Vec<u8>,
    cycle: u32,
    looks: bool,
) -> Result<Option<Event>, NoMemory>
    requires machine { machine.now.case ≡ reference.now }
    requires kept { IsKeptOf reference.now kept.now }
    ensures known { IfOk result (λ found. IfSome found (λ last. answer_from reference.now (reference.now.limit - cycle)
        (record { core = machine.now.core; output = output.old.items }) ≡ answer_with output.new.items last)) }
    ensures unknown { IfOk result (λ found. found ≡ None → output.new.items ≡ output.old.items) }
{
    if let Some(rest) = golden_rest(reference, machine, cycle) {
        return add_rest(output, rest);
    }
    if looks {
        if let Some(rest) = kept.find(machine, cycle) {
            return add_rest(output, rest);
        }
    }
    Ok(None)
}

// Adds the byte that an event sends, if it sends one.
fn add_sent(output: &mut Vec<u8>, event: Event) -> Result<(), NoMemory>
    ensures { OnOk result (output.new.items ≡ sent output.old.items event) }
{
    match event {
        Event::Out(byte) => output.push(byte)?,
        Event::Went | Event::Halted(_) | Event::Detected | Event::Trapped(_) => {}
    }
    Ok(())
}

// Continues a run from the cycle `at` until it sends a byte, but for at most `most` steps, moves `at` to the cycle
// that it reaches, and adds what it sends to `output`.
fn leg(
    reference: &Reference<'_>,
    machine: &mut Machine,
    output: &mut Vec<u8>,
    at: &mut u32,
    most: u32,
) -> Result<Event, NoMemory>
    requires machine { machine.old.case ≡ reference.now }
    requires some { 1 ≤ most }
    requires within { most + at.old ≤ reference.now.limit }
    ensures leg { IfOk result (λ event. IsAnswerLeg reference.now at.old at.new
        (record { core = machine.old.core; output = output.old.items }) (record { core = machine.new.core; output = output.new.items }) event) }
    ensures further { OnOk result (at.old + 1 ≤ at.new) }
    ensures case { machine.new.case ≡ machine.old.case }
{
    let limit = reference.case.limit();
    let (event, taken) = machine.run(most as u64);
    *at += taken as u32;
    if !event.goes_on() {
        return Ok(event);
    }
    add_sent(output, event)?;
    Ok(event)
}

// Continues a run that is at this cycle and has sent `output`, adds to `output` what it sends, and returns its last
// event, after which it does not continue unless it has reached the limit. Notes the states in which it is looked at.
fn run_on(
    reference: &Reference<'_>,
    machine: &mut Machine,
    output: &mut Vec<u8>,
    kept: &mut Kept<'_>,
    cycle: u32,
) -> Result<Event, NoMemory>
    requires machine { machine.old.case ≡ reference.now }
    requires kept { IsKeptOf reference.now kept.old }
    requires passed { HasPassed reference.now (answer_from reference.now (reference.now.limit - cycle)
        (record { core = machine.old.core; output = output.old.items })) kept.old }
    requires cycle { cycle ≤ reference.now.limit }
    ensures answer { IfOk result (λ last. answer_from reference.now (reference.now.limit - cycle)
        (record { core = machine.old.core; output = output.old.items }) ≡ answer_with output.new.items last) }
    ensures passed { OnOk result (HasPassed reference.now (answer_from reference.now (reference.now.limit - cycle)
        (record { core = machine.old.core; output = output.old.items })) kept.new) }
    ensures case { machine.new.case ≡ machine.old.case }
    ensures kept { IsKeptOf reference.now kept.new }
{
    let spacing = reference.snaps.spacing();
    let limit = reference.case.limit();
    let mut at = cycle;
    while at < limit {
        let most = u32::min(limit - at, spacing - at % spacing);
        let event = leg(reference, machine, output, &mut at, most)?;
        if !event.goes_on() {
            return Ok(event);
        }
        let looks = is_look(at, cycle, spacing);
        if let Some(last) = end_known(reference, kept, machine, output, at, looks)? {
            return Ok(last);
        }
        if looks {
            kept.note(machine, at, output.len());
        }
    }
    Ok(Event::Went)
}

/// Continues a run that is at this cycle and has sent `output`, adds to `output` what it sends, and returns its last
/// event, after which it does not continue unless it has reached the limit. Keeps states of the run.
pub(crate) fn run_to_end(
    reference: &Reference<'_>,
    machine: &mut Machine,
    output: &mut Vec<u8>,
    kept: &mut Kept<'_>,
    cycle: u32,
) -> Result<Event, NoMemory>
    requires machine { machine.old.case ≡ reference.now }
    requires kept { IsKeptOf reference.now kept.old }
    requires cycle { cycle ≤ reference.now.limit }
    ensures answer { IfOk result (λ last. answer_from reference.now (reference.now.limit - cycle)
        (record { core = machine.old.core; output = output.old.items }) ≡ answer_with output.new.items last) }
    ensures case { machine.new.case ≡ machine.old.case }
    ensures kept { IsKeptOf reference.now kept.new }
{
    kept.begin();
    let last = run_on(reference, machine, output, kept, cycle)?;
    kept.keep_passed(output, last)?;
    Ok(last)
}
