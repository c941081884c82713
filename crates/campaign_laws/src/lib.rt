//! The law that campaigns are runs of the concurrent core: the contract of a call that does nothing.
#![tactic(auto)]

ghost use Rattle.campaign_laws.specs.CoreRuns.{CampaignsAreRuns, BatchesArePages, PreparedHasPlaces, AsidesAreOfOthers};

use fs_outside::Disk;

/// What `perform` and `perform_alone` ensure on this kind of disk is a run of the core, with shortcuts or without,
/// whichever workers run the jobs: a resume, a claim and a filing of each job of each page, a keep after each
/// page, and a stop. If a missing job of another shard comes to the front of the queue before such a job, a
/// worker of its own claims it and files nothing. Without a shard there are no such jobs; `event_core::laws`
/// states that there are enough workers. From any stopped state that keeps the jobs of the board at entry, each
/// of these events is possible when it is due.
///
/// With any result but a disk fault, the core is then stopped and keeps exactly the jobs of the board at exit. A
/// disk fault is a stop in place of a page's keep: the board at exit is that of a stop that loses the page in
/// flight. What the file then records, and what the next opening finds if its old rows were right, is that of a
/// stop that loses the page or keeps it whole. A crash at any moment is a stop after some of the pages.
pub fn campaigns_are_runs<D: Disk>()
    ensures runs { CampaignsAreRuns D.tells }
    ensures batches { BatchesArePages }
    ensures asides { AsidesAreOfOthers }
    ensures prepared { PreparedHasPlaces }
{}
