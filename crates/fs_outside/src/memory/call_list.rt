//! The calls of a source or a sink in memory that are to fail.
ghost use Rattle.std.specs.Prelude.{◌≡◌, ◌↔◌, ◌==◌, IsErr, IsTrue};
ghost use Rattle.std.specs.List.{list_any};
ghost use Rattle.fs_outside.specs.Faults.{HasCause};

use crate::Failed;
use crate::faults::rise;

/// The numbers of the calls that are to fail, from 1, and counts of the calls and of the failed ones.
#[derive(Drop)]
pub struct CallList {
    fails: Vec<u64>,
    calls: u64,
    listed: u64,
}

impl CallList {
    ghost use Rattle.fs_outside.specs.CallLists.{fresh_list, names_next, after_call};

    /// Returns a list of which no call was made.
    pub fn new(fails: Vec<u64>) -> CallList
        ensures { result ≡ fresh_list fails }
    {
        CallList {
            fails,
            calls: 0,
            listed: 0,
        }
    }

    /// Counts a call. Returns `Failed` if the list has its number.
    pub fn count_call(&mut self) -> Result<(), Failed>
        ensures named { IsErr result ↔ IsTrue (names_next self.old) }
        ensures counted { self.new ≡ after_call self.old }
        ensures cause { HasCause self.old.listed self.new.listed result }
    {
        self.calls = rise(self.calls);
        if is_named(&self.fails, self.calls) {
            self.listed = rise(self.listed);
            return Err(Failed);
        }
        Ok(())
    }

    /// Returns the number of calls that failed by the list.
    pub fn listed(&self) -> u64
        ensures { result ≡ self.now.listed }
    {
        self.listed
    }
}

// Returns whether the list has this number.
fn is_named(fails: &[u64], call: u64) -> bool
    ensures { result ≡ list_any (λ number. number == call) fails.now }
{
    fails.iter().any(|number| *number == call)
}
