//! The calls of a disk in memory that are to fail.
ghost use Rattle.std.specs.Prelude.{◌≡◌, Some, MatchOption};

use crate::faults::rise;
use crate::memory::disk_fails::find_now;

/// A kind of call.
#[derive(Clone, Copy, Debug, PartialEq, Eq)]
pub enum DiskCall {
    Len,
    Read,
    Write,
    Sync,
}

/// A call that fails, by its number among those of its kind, from 1. A write takes this number of its first
/// bytes.
#[derive(Clone, Copy, Debug, PartialEq, Eq)]
pub struct DiskFail {
    pub call: DiskCall,
    pub number: u64,
    pub taken: u32,
}

/// The calls that are to fail, and counts of all calls, of each kind, and of the failed ones.
#[derive(Drop)]
pub struct DiskPlan {
    fails: Vec<DiskFail>,
    fuse: Option<u64>,
    calls: u64,
    lens: u64,
    reads: u64,
    writes: u64,
    syncs: u64,
    listed: u64,
}

impl DiskPlan {
    ghost use Rattle.fs_outside.specs.DiskPlans.{fresh_plan, next_fail, plan_after, calls_counted, with_call};
    ghost use Rattle.fs_outside.specs.Faults.{one_more, Rises};

    /// Returns a plan of which no call was made.
    pub fn new(fails: Vec<DiskFail>) -> DiskPlan
        ensures { result ≡ fresh_plan fails }
    {
        DiskPlan {
            fails,
            fuse: None,
            calls: 0,
            lens: 0,
            reads: 0,
            writes: 0,
            syncs: 0,
            listed: 0,
        }
    }

    /// Makes call number `first` of any kind, counted from 1, and all later ones fail.
    pub fn set_fuse(&mut self, first: u64)
        ensures { self.new ≡ record self.old { fuse = Some first } }
    {
        self.fuse = Some(first);
    }

    /// Counts a call. If it is to fail, returns the number of bytes that it takes.
    pub fn count_call(&mut self, call: DiskCall) -> Option<u32>
        ensures fails { result ≡ next_fail self.old call }
        ensures counted { self.new ≡ plan_after self.old call }
        ensures cause { MatchOption result (self.new.listed ≡ self.old.listed)
            (λ _. Rises self.old.listed self.new.listed) }
    {
        self.calls = rise(self.calls);
        let number = self.count_kind(call);
        let taken = find_now(&self.fails, self.fuse, self.calls, call, number);
        if taken.is_some() {
            self.listed = rise(self.listed);
        }
        taken
    }

    // Counts a call of this kind, and returns its number.
    fn count_kind(&mut self, call: DiskCall) -> u64
        ensures number { result ≡ one_more (calls_counted self.old call) }
        ensures counted { self.new ≡ with_call self.old call }
    {
        match call {
            DiskCall::Len => {
                self.lens = rise(self.lens);
                self.lens
            }
            DiskCall::Read => {
                self.reads = rise(self.reads);
                self.reads
            }
            DiskCall::Write => {
                self.writes = rise(self.writes);
                self.writes
            }
            DiskCall::Sync => {
                self.syncs = rise(self.syncs);
                self.syncs
            }
        }
    }

    /// Returns the number of calls that failed by the list or the fuse.
    pub fn listed(&self) -> u64
        ensures { result ≡ self.now.listed }
    {
        self.listed
    }
}
