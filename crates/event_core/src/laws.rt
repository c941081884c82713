//! Laws about the core, each the contract of a call that does nothing.

ghost use Rattle.event_core.specs.EventCore.{PlacedAfterAll, KeptStays, KeptCounts};
ghost use Rattle.event_core.specs.PageEvents.{PagesAreRuns, PagesAreAll, AsidesAreThere, OthersAreAside, NoneIsAside};
ghost use Rattle.event_core.specs.Stops.{StopsAreRuns};

/// After every list of events: while the core runs, each job is in exactly one place, and there once; while it
/// is stopped, there are only kept jobs, each once. No event removes a job from the kept ones. Whenever all jobs
/// of a case are kept, the weights of the kept jobs by outcome, with the dead sites, are the counts.
pub fn every_list()
    ensures placed { PlacedAfterAll }
    ensures stays { KeptStays }
    ensures counts { KeptCounts }
{}

/// The pages of a campaign, in order, are a run of the core, whichever workers run the jobs. The run begins in the
/// stopped state in which the jobs that have an outcome on a board are kept. Its events are a resume, then a claim
/// and a filing for each job of a page, and a keep after each page. Each event is possible in the state that the
/// events before it lead to. The pages have the missing jobs that pass a test, such as those of a shard.
///
/// If a job that is on no page comes to the front of the queue before a job of the pages, it is set aside: a worker
/// that does nothing else claims it, and files nothing.
///
/// At the end, the kept jobs are those that have an outcome on the board or are on a page, each once. All other
/// jobs are still in the queue or are set aside, and no job is filed without being kept. The pages, one after the
/// other, are the first missing jobs that pass the test, up to the budget. There are always workers for the jobs
/// that are set aside. Only jobs that fail the test are set aside. No job is set aside if the jobs of the pages come
/// first in the queue, as they do if every missing job passes the test.
pub fn pages_are_runs()
    ensures runs { PagesAreRuns }
    ensures all { PagesAreAll }
    ensures asides { AsidesAreThere }
    ensures others { OthersAreAside }
    ensures none { NoneIsAside }
{}

/// A campaign that stops within a page is a run of the core. The run begins in any stopped state in which the jobs
/// that have an outcome on a board are kept. Its events are those of the finished pages, then a claim and a filing
/// for each job of the page in flight, and a stop in place of the keep of that page. Other jobs are set aside as
/// `pages_are_runs` says. Each event is possible in the state that the events before it lead to.
///
/// At the end the core is stopped again. It keeps the jobs that have an outcome on the board, the jobs of the
/// finished pages and, if the stop is whole, the jobs of the page in flight, each once, and no other job. So the
/// end of one run is the start of the next.
pub fn stops_are_runs()
    ensures { StopsAreRuns }
{}
