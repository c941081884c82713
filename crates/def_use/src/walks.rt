//! A cursor along the list of jobs.

ghost use Rattle.std.specs.Prelude.{◌≡◌, ◌<◌, length, slice_get, Some};
ghost use Rattle.def_use.specs.Firsts.{IsNumberOf};

use crate::job_lists::JobList;
use fs_model::Job;
use std::marker::Model;

/// A cursor along a list of jobs: jobs near the last one are found without a search.
#[derive(Drop)]
pub struct Walk<'l> {
    list: &'l JobList,
    place: usize,
}

impl<'l> Model for Walk<'l> {
    ghost use Rattle.fs_model.specs.Job.{JobTable};

    ghost Value = { JobTable };

    ghost view = { λ w. w.list.now };
}

impl JobList {
    /// Returns a cursor at the first job of the list.
    pub fn walk(&self) -> Walk<'_>
        ensures { result ≡ self.now }
    {
        Walk {
            list: self,
            place: 0,
        }
    }
}

impl Walk<'_> {
    /// Returns the job with this number.
    pub fn get(&mut self, number: u32) -> Job
        requires { number < length self.old.list }
        ensures job { slice_get self.old.list number ≡ Some result }
        ensures same { self.new ≡ self.old }
    {
        let (place, job) = self.list.get_near(self.place, number);
        self.place = place;
        job
    }

    /// Returns the number of the job for a cycle, cell and bit, if there is one.
    pub fn find(&mut self, cycle: u32, cell: u32, bit: u8) -> Option<u32>
        ensures number { IsNumberOf self.old.list (record { cycle = cycle; cell = cell; bit = bit }) result }
        ensures same { self.new ≡ self.old }
    {
        let (place, number) = self.list.find_near(self.place, cycle, cell, bit);
        self.place = place;
        number
    }
}
