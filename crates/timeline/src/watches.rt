//! Watchpoints, and which of them an instruction touches.
ghost use Rattle.std.specs.Prelude.{ℕ, ◌≡◌, Some, false, find, true};
ghost use Rattle.fs_model.specs.Effect.{effect_of};
ghost use Rattle.fs_model.specs.Machine.{instr_at};
ghost use Rattle.timeline.specs.Watches.{access_by, access_of, hit_by, is_for, is_touched, touched_by};

use fs_model::{Instr, Op};
use rv_decode::decode;
use rv_machine::Machine;

/// For which accesses a watchpoint is.
#[derive(Clone, Copy)]
pub enum WatchKind {
    /// For stores.
    Write,
    /// For loads.
    Read,
    /// For both.
    Access,
}

/// A watchpoint: some bytes of memory, and for which accesses it is.
#[derive(Clone, Copy)]
pub struct Watch {
    pub kind: WatchKind,
    /// The first byte.
    pub address: u32,
    /// The number of bytes.
    pub length: u32,
}

/// What stops a run.
#[derive(Clone, Copy)]
pub enum Hit {
    /// The pc is at a breakpoint.
    Breakpoint,
    /// An instruction touched the bytes of this watchpoint.
    Watchpoint(Watch),
}

/// The bytes that an instruction loads or stores.
#[derive(Clone, Copy)]
pub(crate) struct Access {
    pub(crate) stores: bool,
    pub(crate) first: u32,
    pub(crate) count: u32,
}

fn load(first: u32, count: u32) -> Option<Access>
    ensures { result ≡ Some (record { stores = false; first = first; count = count }) }
{
    Some(Access {
        stores: false,
        first,
        count,
    })
}

fn store(first: u32, count: u32) -> Option<Access>
    ensures { result ≡ Some (record { stores = true; first = first; count = count }) }
{
    Some(Access {
        stores: true,
        first,
        count,
    })
}

// Returns the bytes that an instruction loads or stores, whose rs1 holds `a`.
fn access_by(instr: &Instr, a: u32) -> Option<Access>
    ensures { (pc b : ℕ) → result ≡ access_by (effect_of instr.now pc a b) }
{
    let first = a.wrapping_add(instr.imm);
    match instr.op {
        Op::Lb | Op::Lbu => load(first, 1),
        Op::Lh | Op::Lhu => load(first, 2),
        Op::Lw => load(first, 4),
        Op::Sb => store(first, 1),
        Op::Sh => store(first, 2),
        Op::Sw => store(first, 4),
        _ => None,
    }
}

// Returns the bytes that the next instruction loads or stores.
fn access_of(machine: &Machine) -> Option<Access>
    ensures { result ≡ access_of machine.now.core (instr_at machine.now.case machine.now.core) }
{
    match decode(machine.word()?) {
        Some(instr) => access_by(&instr, machine.registers()[instr.rs1 as usize]),
        None => None,
    }
}

fn is_for(kind: WatchKind, stores: bool) -> bool
    ensures { result ≡ is_for kind stores }
{
    match kind {
        WatchKind::Write => stores,
        WatchKind::Read => !stores,
        WatchKind::Access => true,
    }
}

fn is_touched(access: &Access, watch: &Watch) -> bool
    ensures { result ≡ is_touched access.now watch.now }
{
    let end = access.first as u64 + access.count as u64;
    let watch_end = watch.address as u64 + watch.length as u64;
    is_for(watch.kind, access.stores)
        && (access.first as u64) < watch_end
        && (watch.address as u64) < end
}

// Returns the first of the watchpoints that an access touches.
fn first_touched(access: &Access, watches: &[Watch]) -> Option<Watch>
    ensures { result ≡ find (λ watch. is_touched access.now watch) watches.now }
{
    watches
        .iter()
        .copied()
        .find(|watch| is_touched(access, watch))
}

/// Returns the first of the watchpoints that the next instruction touches.
pub(crate) fn touched(watches: &[Watch], machine: &Machine) -> Option<Watch>
    ensures { result ≡ touched_by watches.now (access_of machine.now.core (instr_at machine.now.case machine.now.core)) }
{
    match access_of(machine) {
        Some(access) => first_touched(&access, watches),
        None => None,
    }
}

/// Returns what stops a run, by the watchpoint that was touched and by whether a breakpoint is there.
pub(crate) fn hit_by(touched: Option<Watch>, stop: bool) -> Option<Hit>
    ensures { result ≡ hit_by touched stop }
{
    match touched {
        Some(watch) => Some(Hit::Watchpoint(watch)),
        None => { if stop { Some(Hit::Breakpoint) } else { None } }
    }
}
