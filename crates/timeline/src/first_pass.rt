//! The first pass along a run: where it ends, what it sends, and its kept states.
ghost use Rattle.std.specs.Prelude.{ℕ, Option, ◌≡◌, ◌+◌, ◌≤◌, IfOk, length};
ghost use Rattle.fs_model.specs.declared.sites.Site.{Site};
ghost use Rattle.fs_model.specs.Case.{CaseData};
ghost use Rattle.fs_model.specs.Leg.{sent};
ghost use Rattle.fs_model.specs.Cell.{flip};
ghost use Rattle.timeline.specs.Pass.{IsPass, flipped_core};
ghost use Rattle.timeline.specs.Places.{IsFlip, IsHere};

use crate::kept::{Kept, keep_at};
use fs_model::{Case, Event, NoMemory, Site};
use rv_machine::Machine;
use std::alloc::Global;

/// What a pass along a run found.
#[derive(Drop)]
pub(crate) struct Pass<'c> {
    pub(crate) kept: Vec<Kept<'c>>,
    /// The bytes that the run sends before its end.
    pub(crate) output: Vec<u8>,
    /// The number of instructions before the one that ends the run, or the limit.
    pub(crate) last: u32,
    /// What the instruction that ends the run reports.
    pub(crate) end: Event,
}

// Flips the bit, if that is due after `place` instructions.
pub(crate) fn flip_at(machine: &mut Machine, flip: Option<Site>, place: u32)
    requires { IsFlip machine.old.case flip }
    ensures case { machine.new.case ≡ machine.old.case }
    ensures core { machine.new.core ≡ flipped_core flip place machine.old.core }
{
    if let Some(site) = flip {
        if place == site.cycle {
            machine.flip(site.cell, site.bit);
        }
    }
}

// Appends the byte that an event sends, if it sends one.
fn push_sent(output: &mut Vec<u8>, event: Event) -> Result<(), NoMemory>
    ensures { IfOk result (λ _. output.new.items ≡ sent output.old.items event) }
{
    match event {
        Event::Out(byte) => {
            output.push(byte)?;
            Ok(())
        }
        Event::Went | Event::Halted(_) | Event::Detected | Event::Trapped(_) => Ok(()),
    }
}

/// Runs the machine from the first place of its run to the end, or to the limit.
///
/// # Errors
///
/// `NoMemory` if memory is refused.
pub(crate) fn first_pass<'c>(
    alloc: Global,
    case: &Case,
    machine: &mut Machine<'c>,
    flip: Option<Site>,
    spacing: u32,
) -> Result<Pass<'c>, NoMemory>
    requires spaced { 1 ≤ spacing }
    requires flips { IsFlip case.now flip }
    requires here { IsHere case.now flip 0 machine.old 0 }
    ensures case { machine.new.case ≡ case.now }
    ensures pass { IfOk result (λ p. IsPass case.now flip spacing p) }
{
    case.facts();
    let mut kept = Vec::new(alloc);
    let mut output = Vec::new(alloc);
    let mut next: u64 = 0;
    for place in 0..case.limit() {
        next = keep_at(
            alloc,
            &mut kept,
            machine,
            output.len(),
            place,
            next,
            spacing,
        )?;
        let event = machine.step();
        if !event.goes_on() {
            return Ok(Pass {
                kept,
                output,
                last: place,
                end: event,
            });
        }
        push_sent(&mut output, event)?;
        flip_at(machine, flip, place + 1);
    }
    Ok(Pass {
        kept,
        output,
        last: case.limit(),
        end: Event::Went,
    })
}
