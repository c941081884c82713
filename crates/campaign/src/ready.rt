//! Making a campaign ready before its first job.
ghost use Rattle.std.specs.Prelude.{◌≡◌, ℕ, ◌<◌, ◌≤◌, ◌↔◌, [], false, true, Ok, Some, None, IfOk, IfErr, IsTrue, OnOk, length, vec_capacity};
ghost use Rattle.std.specs.Option.{ForSome};
ghost use Rattle.fs_outside.specs.Faults.{IsCaused};
ghost use Rattle.fs_outside.specs.Past.{content, EachImage, IsImage, LeavesOnly};
ghost use Rattle.keep_format.specs.KeepFile.{FileRow};
ghost use Rattle.fs_model.specs.Job.{jobs_in, jobs_of};
ghost use Rattle.result_keeper.specs.Acceptance.{HasRightOldRows, IsSound, accept, board_of};
ghost use Rattle.fs_model.specs.AccessLog.{log};
ghost use Rattle.fs_model.specs.Card.{card};
ghost use Rattle.fs_model.specs.Pages.{max_page};
ghost use Rattle.golden_trace.specs.Goldens.{IsGolden};
ghost use Rattle.result_keeper.specs.Accept.{IsBegun};
ghost use Rattle.result_keeper.specs.Begin.{IsHeaded, IsOneOfThree};
ghost use Rattle.result_keeper.specs.Keep.{HasFile, Gives, RowStays};
ghost use Rattle.campaign.specs.Prepare.{IsRefusedUnless, IsUntouched, is_fault};
ghost use Rattle.campaign.specs.Ready.{IsPrepared, portion_of};
ghost use Rattle.campaign.specs.Shards.{in_shard, max_shards};
ghost use Rattle.window_counts.specs.Windows.{IsDueAt};

use crate::machines::Machines;
use crate::paging::Pages;
use crate::portion::Portion;
use def_use::{Board, JobList};
use fs_model::{Case, NoMemory, Row};
use fs_outside::Disk;
use golden_trace::Golden;
use result_keeper::{AdoptRefusal, KeepRefusal, Keeper};
use snapshot_store::Snaps;
use std::alloc::Global;
use std::marker::Model;
use std::sync::ledger::Blank;
use window_counts::Window;
use worker_pool::{CaseJobs, CaseLedger, Crew};

/// How a campaign is run. No outcome depends on these settings.
#[derive(Clone, Copy, PartialEq, Eq, Debug)]
pub struct Settings {
    /// The number of workers that run the jobs, 1 to 64.
    pub workers: u32,
    /// The most rows of a batch in the campaign file, 1 to 65,535.
    pub page: u32,
    /// The most jobs that a call runs, if given.
    pub stop_after: Option<u32>,
    /// Whether to start the campaign file again, whatever it holds.
    pub fresh: bool,
    /// The distance of the stored states of the golden run, in cycles, at least 1.
    pub spacing: u32,
    /// If it is i and n, only jobs whose number modulo n is i - 1 are run. i is from 1 to n, and n at most
    /// 65,535.
    pub shard: Option<(u32, u32)>,
    ghost least_workers: { 0 < workers },
    ghost most_workers: { workers ≤ 64 },
    ghost least_page: { 0 < page },
    ghost most_page: { page ≤ max_page },
    ghost least_spacing: { 1 ≤ spacing },
    ghost least_shard: { ForSome shard (λ s. 1 ≤ s.0) },
    ghost within_shards: { ForSome shard (λ s. s.0 ≤ s.1) },
    ghost most_shards: { ForSome shard (λ s. s.1 ≤ max_shards) },
}

/// Why a campaign could not be made ready.
#[derive(Clone, Copy, PartialEq, Eq, Debug)]
pub enum PrepareRefusal {
    /// The disk failed, and its count of faults rose.
    KeepFault,
    /// The campaign file does not belong to this case.
    Refused(KeepRefusal),
    NoMemory,
}

/// A campaign that can continue from the outcomes in its file.
#[derive(Drop)]
pub struct Ready<'a, K: CaseLedger> {
    pub(crate) pages: Pages<'a, Machines<'a, K>>,
}

impl<'a, K: CaseLedger> Model for Ready<'a, K> {
    ghost use Rattle.campaign.specs.Ready.{ReadyData};

    ghost Value = { ReadyData };

    ghost view = { λ r. r.pages };
}

// The memory that a campaign needs besides its keeper.
#[derive(Drop)]
struct Memory<'a, K: CaseLedger> {
    machines: Machines<'a, K>,
    numbers: Vec<u32>,
    rows: Vec<Row>,
}

fn take_machines<'a, K: CaseLedger>(
    alloc: Global,
    case: &'a Case,
    golden: &'a Golden,
    list: &'a JobList,
    settings: &Settings,
    blank: Blank,
) -> Result<Machines<'a, K>, NoMemory>
    requires golden { IsGolden case.now golden.now }
    requires list { list.now ≡ jobs_of (log case.now) }
    requires ledger { case.now ≡ K.case }
    requires name { blank.name ≡ K.name }
    requires parts { (blank.parts ≡ K.parts) × (blank.parts ≡ settings.now.workers) }
    ensures { IfOk result (λ m. m
        ≡ record { case = case.now; spacing = settings.now.spacing; page = settings.now.page; shortcuts = false; taken = 0 }) }
{
    let snaps = Snaps::take(alloc, case, golden.count(), settings.spacing)?;
    let own = match snaps.nearest(0).machine().another(alloc) {
        Ok(own) => own,
        Err(refused) => {
            drop(snaps);
            return Err(refused);
        }
    };
    let of = CaseJobs { case, golden, list };
    match Crew::new(alloc, of, snaps, settings.page, settings.workers, blank) {
        Ok(crew) => Ok(Machines { of, crew, own }),
        Err(refused) => {
            drop(own);
            Err(refused)
        }
    }
}

fn take_memory<'a, K: CaseLedger>(
    alloc: Global,
    case: &'a Case,
    golden: &'a Golden,
    list: &'a JobList,
    settings: &Settings,
    blank: Blank,
) -> Result<Memory<'a, K>, NoMemory>
    requires golden { IsGolden case.now golden.now }
    requires list { list.now ≡ jobs_of (log case.now) }
    requires ledger { case.now ≡ K.case }
    requires name { blank.name ≡ K.name }
    requires parts { (blank.parts ≡ K.parts) × (blank.parts ≡ settings.now.workers) }
    ensures machines { IfOk result (λ m. m.machines
        ≡ record { case = case.now; spacing = settings.now.spacing; page = settings.now.page; shortcuts = false; taken = 0 }) }
    ensures room { IfOk result (λ m. (settings.now.page ≤ vec_capacity m.numbers) × (settings.now.page ≤ vec_capacity m.rows)) }
{
    let numbers = Vec::with_capacity(alloc, settings.page as usize)?;
    let rows = Vec::with_capacity(alloc, settings.page as usize)?;
    let machines = take_machines(alloc, case, golden, list, settings, blank)?;
    Ok(Memory {
        machines,
        numbers,
        rows,
    })
}

/// Makes a campaign ready, of a case with its golden run and its jobs, without shortcuts. Opens the campaign file, or
/// starts it if it is empty or `fresh` says so. Takes all memory that the campaign will need before it writes to the
/// file.
///
/// # Errors
///
/// `KeepFault` if the disk failed, `Refused` if the campaign file does not belong to this case, and `NoMemory`
/// if memory is refused.
pub fn prepare<'a, K: CaseLedger, D: Disk>(
    alloc: Global,
    case: &'a Case,
    golden: &'a Golden,
    list: &'a JobList,
    disk: &mut D,
    settings: &Settings,
    blank: Blank,
) -> Result<Ready<'a, K>, PrepareRefusal>
    requires golden { IsGolden case.now golden.now }
    requires list { list.now ≡ jobs_of (log case.now) }
    requires ledger { case.now ≡ K.case }
    requires name { blank.name ≡ K.name }
    requires parts { (blank.parts ≡ K.parts) × (blank.parts ≡ settings.now.workers) }

    ensures ready { IfOk result (λ r. IsPrepared r case.now settings.now.page settings.now.spacing settings.now.stop_after settings.now.shard) }
    ensures file { D.tells → IfOk result (λ r. HasFile r.keeper (D.past disk.new)) }
    ensures board { D.tells → settings.now.fresh ≡ false → IfOk result (λ r. accept (content (D.past disk.old)) case.now ≡ Ok r.keeper.board) }
    ensures fresh { settings.now.fresh ≡ true → IfOk result (λ r. r.keeper.board ≡ board_of (jobs_in case.now) []) }
    ensures refused { D.tells → IfErr result (IsRefusedUnless settings.now.fresh (content (D.past disk.old)) case.now) }
    ensures cause { IsCaused (is_fault result) (D.faults disk.old) (D.faults disk.new) }

    // What a read of the disk returns.
    ensures begun { D.tells → IsBegun settings.now.fresh (content (D.past disk.old))
        → OnOk result (IsHeaded (card case.now) (content (D.past disk.new))) }
    ensures same { D.tells → (IsBegun settings.now.fresh (content (D.past disk.old)) → ⊥)
        → content (D.past disk.new) ≡ content (D.past disk.old) }
    ensures err { D.tells → IfErr result (IsUntouched (content (D.past disk.old)) (content (D.past disk.new))) }

    // What a crash leaves: after the call, a file that gives the board; during the call, one of three files, or,
    // if no file is started, what a crash could have left before.
    ensures kept { D.tells → IfOk result (λ r. EachImage (D.past disk.new) (Gives case.now r.keeper.board)) }
    ensures any_moment { D.tells → LeavesOnly (D.past disk.old) (D.past disk.new)
        (IsOneOfThree (D.past disk.old) (card case.now)) }
    ensures any_moment_kept { D.tells → (IsBegun settings.now.fresh (content (D.past disk.old)) → ⊥)
        → LeavesOnly (D.past disk.old) (D.past disk.new) (IsImage (D.past disk.old)) }
    ensures sound { D.tells → EachImage (D.past disk.old) IsSound → LeavesOnly (D.past disk.old) (D.past disk.new) IsSound }
    ensures old_rows { D.tells → EachImage (D.past disk.old) HasRightOldRows → LeavesOnly (D.past disk.old) (D.past disk.new) HasRightOldRows }
    ensures rows_stay { D.tells → settings.now.fresh ≡ false → (row : FileRow) → RowStays (D.past disk.old) (D.past disk.new) row }
{
    let memory = match take_memory(alloc, case, golden, list, settings, blank) {
        Ok(memory) => memory,
        Err(NoMemory) => return Err(PrepareRefusal::NoMemory),
    };
    match Keeper::adopt(alloc, disk, case, list, settings.page, settings.fresh) {
        Ok(keeper) => {
            let Memory {
                machines,
                numbers,
                rows,
            } = memory;
            Ok(Ready {
                pages: Pages {
                    list,
                    machines,
                    keeper,
                    page: settings.page,
                    budget: settings.stop_after,
                    portion: Portion::of_shard(settings.shard),
                    numbers,
                    rows,
                },
            })
        }
        Err(AdoptRefusal::DiskFault) => {
            drop(memory);
            Err(PrepareRefusal::KeepFault)
        }
        Err(AdoptRefusal::Refused(refusal)) => {
            drop(memory);
            Err(PrepareRefusal::Refused(refusal))
        }
        Err(AdoptRefusal::NoMemory) => {
            drop(memory);
            Err(PrepareRefusal::NoMemory)
        }
    }
}

impl<'a, K: CaseLedger> Ready<'a, K> {
    /// Keeps to the jobs that are due in this window of the golden run: later calls run no others. Another window
    /// takes the place of this one.
    pub fn keep_to(&mut self, window: &'a Window)
        ensures same { self.new ≡ record self.old { window = Some window.now } }
        // Of the jobs of its shard it then runs those that represent a site in the window, and no others.
        ensures jobs { (number : ℕ) → IsTrue (portion_of self.new number)
            ↔ IsTrue (in_shard self.old.shard number) × IsDueAt window.now (jobs_in self.old.keeper.case) number }
    {
        self.pages.keep_to(window);
    }

    /// Gives the workers shortcuts, and returns whether there was memory for them: in later calls of `perform` a run
    /// also ends in a state that an earlier run had at that cycle, because the rest of both runs is the same, or once
    /// a site is known to have its outcome. So they take at most as many steps as without shortcuts.
    pub fn give_shortcuts(&mut self, alloc: Global) -> bool
        ensures { self.new ≡ record self.old { shortcuts = result } }
    {
        self.pages.give_shortcuts(alloc)
    }

    /// Returns the outcome of each job, or a blank.
    pub fn board(&self) -> &Board
        ensures value { result.now ≡ self.now.keeper.board }
        ensures jobs { self.now.keeper.list ≡ jobs_in self.now.keeper.case }
        ensures long { length result.now ≡ length (jobs_in self.now.keeper.case) }
    {
        self.pages.keeper.board()
    }

    /// Returns whether the disk has not failed since the campaign was made ready.
    pub fn healthy(&self) -> bool
        ensures { result ≡ self.now.keeper.healthy }
    {
        self.pages.keeper.healthy()
    }

    /// Returns the number of steps that all machines took, saturating.
    pub fn taken(&self) -> u64
        ensures { result ≡ self.now.taken }
    {
        self.pages.taken()
    }
}
