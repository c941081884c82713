//! A disk in memory with calls that are to fail.

use crate::faults::{rise, rise_by};
use crate::memory::copying::read_at;
use crate::memory::crash::{filled, kept_synced};
use crate::memory::disk_plan::DiskPlan;
use crate::memory::tape::Tape;
use crate::{Disk, DiskCall, DiskFail, Failed};
use std::alloc::{AllocError, Global};

/// A disk in memory with a record of its calls. It fails the calls that its list or its fuse names, and can
/// crash.
#[derive(Drop)]
pub struct MemDisk {
    tape: Tape,
    plan: DiskPlan,
    given: u64,
    short: u64,
}

impl MemDisk {
    ghost use Rattle.std.specs.Prelude.{◌≡◌, Some, None, IfOk, IfSome, OnErr, OnOk};
    ghost use Rattle.fs_outside.specs.DiskPlans.{fresh_plan};
    ghost use Rattle.fs_outside.specs.Disks.{mem_past, mem_plan, mem_given, mem_short};
    ghost use Rattle.fs_outside.specs.Past.{Made, IsFilledWith, IsImage, content, synced_content};

    /// Returns a disk with these bytes, all of them synced. The calls in the list fail.
    pub fn new(alloc: Global, bytes: Vec<u8>, fails: Vec<DiskFail>) -> Result<MemDisk, AllocError>
        ensures past { IfOk result (λ disk. mem_past disk ≡ Made bytes.items) }
        ensures plan { IfOk result (λ disk. mem_plan disk ≡ fresh_plan fails) }
        ensures given { IfOk result (λ disk. mem_given disk ≡ 0) }
        ensures short { IfOk result (λ disk. mem_short disk ≡ 0) }
    {
        let tape = Tape::new(alloc, bytes)?;
        Ok(MemDisk {
            tape,
            plan: DiskPlan::new(fails),
            given: 0,
            short: 0,
        })
    }

    /// Returns the bytes that a read finds.
    pub fn bytes(&self) -> &[u8]
        ensures { result.now ≡ content (mem_past self.now) }
    {
        self.tape.bytes()
    }

    /// Makes call number `n` of any kind, counted from 1, and all later ones fail.
    pub fn fuse(&mut self, n: u64)
        ensures past { mem_past self.new ≡ mem_past self.old }
        ensures plan { mem_plan self.new ≡ record (mem_plan self.old) { fuse = Some n } }
        ensures given { mem_given self.new ≡ mem_given self.old }
        ensures short { mem_short self.new ≡ mem_short self.old }
    {
        self.plan.set_fuse(n);
    }

    /// Crashes. What was synced is left, or, with `fill`, what a read returns with this byte in each place that
    /// was written since. The counts of calls and the fuse stay.
    pub fn crash(&mut self, alloc: Global, fill: Option<u8>) -> Result<(), AllocError>
        ensures image { OnOk result (IsImage (mem_past self.old) (content (mem_past self.new))) }
        ensures synced { fill ≡ None
            → OnOk result (content (mem_past self.new) ≡ synced_content (mem_past self.old)) }
        ensures filled { IfSome fill (λ byte.
            OnOk result (IsFilledWith (mem_past self.old) byte (content (mem_past self.new)))) }
        ensures restarted { OnOk result (mem_past self.new ≡ Made (content (mem_past self.new))) }
        ensures err { OnErr result (mem_past self.new ≡ mem_past self.old) }
        ensures plan { mem_plan self.new ≡ mem_plan self.old }
        ensures given { mem_given self.new ≡ mem_given self.old }
        ensures short { mem_short self.new ≡ mem_short self.old }
    {
        let image = match fill {
            None => kept_synced(alloc, &self.tape)?,
            Some(byte) => filled(alloc, &self.tape, byte)?,
        };
        self.tape = Tape::new(alloc, image)?;
        Ok(())
    }

    /// Returns the number of failures by its list or its fuse.
    pub fn listed(&self) -> u64
        ensures { result ≡ (mem_plan self.now).listed }
    {
        self.plan.listed()
    }

    /// Returns the number of bytes that its reads returned.
    pub fn given(&self) -> u64
        ensures { result ≡ mem_given self.now }
    {
        self.given
    }

    /// Returns the number of failures for lack of memory.
    pub fn short(&self) -> u64
        ensures { result ≡ mem_short self.now }
    {
        self.short
    }
}

impl Disk for MemDisk {
    ghost use Rattle.std.specs.Prelude.{◌≡◌, ◌↔◌, ◌⊎◌, ◌+◌, ◌≤◌, length, take, IfOk, IfSome, IsErr, IsSome, MatchResult, OnErr, OnOk};
    ghost use Rattle.fs_outside.specs.DiskPlans.{next_fail, plan_after};
    ghost use Rattle.fs_outside.specs.Disks.{mem_past, mem_plan, mem_given, mem_short, mem_faults};
    ghost use Rattle.fs_outside.specs.Faults.{HasCause, FailsExactly, Rises, and_more};
    ghost use Rattle.fs_outside.specs.Memory.{tape_past, tape_reads};
    ghost use Rattle.fs_outside.specs.Past.{Wrote, Synced, IsTorn, content};
    ghost use Rattle.fs_outside.specs.Stream.{ReadsAt};

    ghost tells = { Unit {0} };

    ghost past = { λ disk. tape_past disk.tape };

    ghost given = { λ disk. disk.given };

    ghost faults = { λ disk. disk.plan.listed + disk.short };

    ghost reads_image = { λ disk told. tape_reads disk.tape };

    fn len(&mut self) -> Result<u64, Failed>
        ensures len { IfOk result (λ n. n ≡ length (content (mem_past self.old))) }
        ensures same { mem_past self.new ≡ mem_past self.old }
        ensures given { mem_given self.new ≡ mem_given self.old }
        ensures cause { HasCause (mem_faults self.old) (mem_faults self.new) result }
        ensures named { IsErr result ↔ IsSome (next_fail (mem_plan self.old) DiskCall.Len) }
        ensures counted { mem_plan self.new ≡ plan_after (mem_plan self.old) DiskCall.Len }
        ensures short { mem_short self.new ≡ mem_short self.old }
    {
        match self.plan.count_call(DiskCall::Len) {
            Some(_) => Err(Failed),
            None => Ok(self.tape.bytes().len() as u64),
        }
    }

    fn read_at(&mut self, at: u64, buf: &mut [u8]) -> Result<usize, Failed>
        ensures fits { IfOk result (λ n. n ≤ length buf.old) }
        ensures bytes { IfOk result (λ n. ReadsAt (content (mem_past self.old)) at buf.old buf.new n) }
        ensures same { mem_past self.new ≡ mem_past self.old }
        ensures given { MatchResult result
            (λ n. mem_given self.new ≡ and_more (mem_given self.old) n)
            (λ _. mem_given self.new ≡ mem_given self.old) }
        ensures cause { HasCause (mem_faults self.old) (mem_faults self.new) result }
        ensures named { IsErr result ↔ IsSome (next_fail (mem_plan self.old) DiskCall.Read) }
        ensures counted { mem_plan self.new ≡ plan_after (mem_plan self.old) DiskCall.Read }
        ensures short { mem_short self.new ≡ mem_short self.old }
    {
        match self.plan.count_call(DiskCall::Read) {
            Some(_) => Err(Failed),
            None => {
                let n = read_at(self.tape.bytes(), at, buf);
                self.given = rise_by(self.given, n as u64);
                Ok(n)
            }
        }
    }

    fn write_at(&mut self, at: u64, bytes: &[u8]) -> Result<(), Failed>
        requires { at ≤ length (content (mem_past self.old)) }
        ensures ok { OnOk result
            (mem_past self.new ≡ Wrote (mem_past self.old) at (length bytes.now) bytes.now) }
        ensures err { OnErr result
            (IsTorn (mem_past self.old) at (length bytes.now) (mem_past self.new)) }
        ensures given { mem_given self.new ≡ mem_given self.old }
        ensures cause { HasCause (mem_faults self.old) (mem_faults self.new) result }
        ensures exactly { FailsExactly (IsSome (next_fail (mem_plan self.old) DiskCall.Write))
            (mem_short self.old) (mem_short self.new) result }
        ensures counted { mem_plan self.new ≡ plan_after (mem_plan self.old) DiskCall.Write }

        // A write that is to fail writes the listed number of its first bytes, if there is memory for them.
        ensures partial { IfSome (next_fail (mem_plan self.old) DiskCall.Write) (λ n.
            (mem_past self.new ≡ Wrote (mem_past self.old) at (length bytes.now) (take n bytes.now))
            ⊎ Rises (mem_short self.old) (mem_short self.new)) }
    {
        match self.plan.count_call(DiskCall::Write) {
            Some(taken) => {
                let taken = bytes.len().min(taken as usize);
                match self.tape.write(at, bytes.len(), &bytes[..taken]) {
                    Ok(()) => Err(Failed),
                    Err(_) => {
                        self.short = rise(self.short);
                        Err(Failed)
                    }
                }
            }
            None => match self.tape.write(at, bytes.len(), bytes) {
                Ok(()) => Ok(()),
                Err(_) => {
                    self.short = rise(self.short);
                    Err(Failed)
                }
            },
        }
    }

    fn sync(&mut self) -> Result<(), Failed>
        ensures ok { OnOk result (mem_past self.new ≡ Synced (mem_past self.old)) }
        ensures err { OnErr result (mem_past self.new ≡ mem_past self.old) }
        ensures given { mem_given self.new ≡ mem_given self.old }
        ensures cause { HasCause (mem_faults self.old) (mem_faults self.new) result }
        ensures exactly { FailsExactly (IsSome (next_fail (mem_plan self.old) DiskCall.Sync))
            (mem_short self.old) (mem_short self.new) result }
        ensures counted { mem_plan self.new ≡ plan_after (mem_plan self.old) DiskCall.Sync }
    {
        if self.plan.count_call(DiskCall::Sync).is_some() {
            return Err(Failed);
        }
        match self.tape.sync() {
            Ok(()) => Ok(()),
            Err(_) => {
                self.short = rise(self.short);
                Err(Failed)
            }
        }
    }
}
