//! Kept states of a run.
ghost use Rattle.std.specs.Prelude.{ℕ, Option, ◌≡◌, ◌+◌, ◌<◌, ◌≤◌, IfOk};
ghost use Rattle.fs_model.specs.declared.sites.Site.{Site};
ghost use Rattle.fs_model.specs.Case.{CaseData};
ghost use Rattle.timeline.specs.Kept.{IsStateKept, IsKeptTo};
ghost use Rattle.timeline.specs.Places.{IsHere};

use fs_model::NoMemory;
use rv_machine::Machine;
use std::alloc::Global;
use std::marker::Model;

/// A state of a run, in a machine of its own, and the number of bytes that the run had sent.
#[derive(Drop)]
pub(crate) struct Kept<'c> {
    machine: Machine<'c>,
    sent: usize,
}

impl<'c> Model for Kept<'c> {
    ghost use Rattle.timeline.specs.Kept.{KeptData};

    ghost Value = { KeptData };

    ghost view = { λ k. record { machine = k.machine; sent = k.sent } };
}

impl<'c> Kept<'c> {
    // Copies the state of a machine.
    fn of(alloc: Global, machine: &Machine<'c>, sent: usize) -> Result<Kept<'c>, NoMemory>
        ensures { (c : CaseData) (flip : Option Site) (n : ℕ) → IsHere c flip n machine.now sent → IfOk result (λ k. IsStateKept c flip n k) }
    {
        let mut kept = machine.another(alloc)?;
        kept.copy_from(machine);
        Ok(Kept {
            machine: kept,
            sent,
        })
    }

    pub(crate) fn machine(&self) -> &Machine<'c>
        ensures { result.now ≡ self.now.machine }
    {
        &self.machine
    }

    pub(crate) fn sent(&self) -> usize
        ensures { result ≡ self.now.sent }
    {
        self.sent
    }
}

/// Keeps the state of the machine, if its place is the next one to keep. Returns the next place to keep.
///
/// # Errors
///
/// `NoMemory` if memory for the state is refused.
pub(crate) fn keep_at<'c>(
    alloc: Global,
    kept: &mut Vec<Kept<'c>>,
    machine: &Machine<'c>,
    sent: usize,
    place: u32,
    next: u64,
    spacing: u32,
) -> Result<u64, NoMemory>
    requires spaced { 1 ≤ spacing }
    requires order { place ≤ next }
    ensures order { IfOk result (λ n. place < n) }
    ensures states { (c : CaseData) (flip : Option Site) → IsKeptTo c flip spacing kept.old.items next → IsHere c flip place machine.now sent
        → IfOk result (λ n. IsKeptTo c flip spacing kept.new.items n) }
{
    if place as u64 != next {
        return Ok(next);
    }
    kept.push(Kept::of(alloc, machine, sent)?)?;
    Ok(next + spacing as u64)
}
