//! Stored states of the golden run.

ghost use Rattle.std.specs.Prelude.{[], ◌≡◌, ◌*◌, ◌/◌, ◌%◌, ◌<◌, ◌≤◌, IfOk, IfSome, is_some};
ghost use Rattle.fs_model.specs.Case.{CaseData};
ghost use Rattle.fs_model.specs.Machine.{reset};
ghost use Rattle.snapshot_store.specs.Along.{IsAt};
ghost use Rattle.snapshot_store.specs.Stored.{IsSnap, IsStore, is_kept, kept_at_most, kept_below};

use crate::along::advance;
use fs_model::{Case, NoMemory};
use rv_machine::Machine;
use std::alloc::Global;
use std::marker::Model;

/// A state of the golden run: that of the machine after `cycle` steps, and the number of bytes sent by then.
#[derive(Drop)]
pub struct Snap<'c> {
    cycle: u32,
    machine: Machine<'c>,
    sent: usize,
}

impl<'c> Model for Snap<'c> {
    ghost use Rattle.snapshot_store.specs.Stored.{SnapData};

    ghost Value = { SnapData };

    ghost view = { λ s. record { cycle = s.cycle; machine = s.machine; sent = s.sent } };
}

impl<'c> Snap<'c> {
    /// Returns its cycle, the number of steps taken.
    #[inline]
    pub fn cycle(&self) -> u32
        ensures { result ≡ self.now.cycle }
    {
        self.cycle
    }

    /// Returns the machine that has the state.
    #[inline]
    pub fn machine(&self) -> &Machine<'c>
        ensures { result.now ≡ self.now.machine }
    {
        &self.machine
    }

    /// Returns the number of bytes sent by then.
    #[inline]
    pub fn sent(&self) -> usize
        ensures { result ≡ self.now.sent }
    {
        self.sent
    }

    /// Returns the state of a machine at a cycle, in a machine of its own.
    ///
    /// # Errors
    ///
    /// `NoMemory` if memory for the machine is refused.
    pub fn of(
        alloc: Global,
        machine: &Machine<'c>,
        cycle: u32,
        sent: usize,
    ) -> Result<Snap<'c>, NoMemory>
        requires { IsAt machine.now.case cycle machine.now sent }
        ensures { IfOk result (λ s. IsSnap machine.now.case cycle s) }
    {
        let mut kept = machine.another(alloc)?;
        kept.copy_from(machine);
        Ok(Snap {
            cycle,
            machine: kept,
            sent,
        })
    }

    /// Copies the state of a machine at a cycle.
    pub fn set(&mut self, machine: &Machine, cycle: u32, sent: usize)
        requires case { self.old.machine.case ≡ machine.now.case }
        ensures { (c : CaseData) → IsAt c cycle machine.now sent → IsSnap c cycle self.new }
    {
        self.machine.copy_from(machine);
        self.cycle = cycle;
        self.sent = sent;
    }
}

/// The states of the golden run at the multiples of `spacing` below `count`.
#[derive(Drop)]
pub struct Snaps<'c> {
    case: &'c Case,
    spacing: u32,
    count: u32,
    list: Vec<Snap<'c>>,
}

impl<'c> Model for Snaps<'c> {
    ghost use Rattle.snapshot_store.specs.Stored.{SnapsData, IsStore};

    ghost Value = { SnapsData };

    ghost view = { λ s. record { case = s.case.now; spacing = s.spacing; count = s.count } };

    ghost invariant = { λ s. IsStore s.case.now s.spacing s.count s.list.items };
}

// Runs the machine from the initial state, and adds to an empty list its state at each multiple of `spacing` below `n`.
fn store_all<'c>(
    alloc: Global,
    case: &Case,
    machine: &mut Machine<'c>,
    list: &mut Vec<Snap<'c>>,
    n: u32,
    spacing: u32,
) -> Result<(), NoMemory>
    requires spacing { 1 ≤ spacing }
    requires machine { machine.old ≡ record { case = case.now; core = reset case.now; taken = 0 } }
    requires empty { list.old.items ≡ [] }
    ensures { IfOk result (λ _. IsStore case.now spacing n list.new.items) }
{
    let mut sent = 0;
    let mut here: u32 = 0;
    // The next cycle to store, which after the last one may not fit 32 bits.
    let mut next: u64 = 0;
    while next < n as u64 {
        let cycle = next as u32;
        sent = advance(machine, sent, here, cycle);
        here = cycle;
        list.push(Snap::of(alloc, machine, cycle, sent)?)?;
        next += spacing as u64;
    }
    Ok(())
}

impl<'c> Snaps<'c> {
    /// Runs the case from the initial state, and stores its state at each multiple of `spacing` below `n`.
    ///
    /// # Errors
    ///
    /// `NoMemory` if memory for a state is refused. Each state takes as much as the case's RAM.
    pub fn take(alloc: Global, case: &'c Case, n: u32, spacing: u32) -> Result<Snaps<'c>, NoMemory>
        requires { 1 ≤ spacing }
        ensures { IfOk result (λ s. s ≡ record { case = case.now; spacing = spacing; count = n }) }
    {
        let mut machine = Machine::new(alloc, case)?;
        let mut list = Vec::new(alloc);
        let stored = store_all(alloc, case, &mut machine, &mut list, n, spacing);
        drop(machine);
        match stored {
            Ok(()) => Ok(Snaps {
                case,
                spacing,
                count: n,
                list,
            }),
            Err(refused) => {
                drop(list);
                Err(refused)
            }
        }
    }

    /// Returns the distance between stored cycles.
    #[inline]
    pub fn spacing(&self) -> u32
        ensures value { result ≡ self.now.spacing }
        ensures some { 1 ≤ result }
    {
        self.spacing
    }

    /// Returns the stored state at the greatest cycle that is not above `cycle`.
    pub fn nearest(&self, cycle: u32) -> &Snap<'c>
        requires { cycle < self.now.count }
        ensures { IsSnap self.now.case (kept_below self.now.spacing cycle) result.now }
    {
        let place = (cycle / self.spacing) as usize;
        &self.list[place]
    }

    /// Returns the stored state at the greatest stored cycle that is not above `cycle`, which may be after the
    /// end of the run.
    pub fn below(&self, cycle: u32) -> &Snap<'c>
        requires { 1 ≤ self.now.count }
        ensures { IsSnap self.now.case (kept_at_most self.now.spacing self.now.count cycle) result.now }
    {
        self.nearest(u32::min(cycle, self.count - 1))
    }

    /// Returns the state stored at a cycle, if there is one.
    pub fn at(&self, cycle: u32) -> Option<&Snap<'c>>
        ensures snap { IfSome result (λ s. IsSnap self.now.case cycle s.now) }
        ensures kept { is_some result ≡ is_kept self.now.spacing self.now.count cycle }
    {
        if cycle < self.count && cycle % self.spacing == 0 {
            Some(self.nearest(cycle))
        } else {
            None
        }
    }
}
