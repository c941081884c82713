//! The loop over the pages of a campaign.
ghost use Rattle.std.specs.Prelude.{◌≡◌, ◌+◌, ◌<◌, ◌≤◌, true, false, [], ◌∷◌, Some, length, drop, MatchResult, IfOk, OnOk};
ghost use Rattle.def_use.specs.Board.{kept_of};
ghost use Rattle.fs_outside.specs.Faults.{HasCause};
ghost use Rattle.fs_outside.specs.Past.{content, EachImage, LeavesOnly};
ghost use Rattle.fs_model.specs.Job.{jobs_in};
ghost use Rattle.result_keeper.specs.Acceptance.{HasRightOldRows, IsSound};
ghost use Rattle.keep_format.specs.KeepFile.{FileRow, rows_held};
ghost use Rattle.fs_model.specs.Pages.{missing, within_budget};
ghost use Rattle.result_keeper.specs.Keep.{Gives, HasFile, HoldsMore, IsBeforeOrAfter, RowStays, appended};
ghost use Rattle.experiment.specs.Jobs.{RoseAs};
ghost use Rattle.result_keeper.specs.Batches.{IsBroken, KeepsSome, after_batches, appended_all};
ghost use Rattle.campaign.specs.CarriedOut.{IsCarriedOutAs};
ghost use Rattle.campaign.specs.PageRuns.{HasRunAs, IsPageFor, RunsPages};
ghost use Rattle.campaign.specs.Perform.{batches_due};
ghost use Rattle.campaign.specs.Portions.{due, due_behind};
ghost use Rattle.worker_pool.specs.Steps.{steps_of_numbers};
ghost use Rattle.campaign.specs.Ready.{portion_of};
ghost use Rattle.campaign.specs.Turn.{first_batches, least_of, page_of, steps_of_page};

use crate::machines::PageMachines;
use crate::pages::{count_due, next_numbers};
use crate::performing::{Performed, whole_totals, within};
use crate::portion::Portion;
use crate::ways::Way;
use def_use::JobList;
use fs_model::Row;
use fs_outside::{Disk, Gate};
use result_keeper::{DiskFault, Keeper};
use std::alloc::Global;
use std::marker::Model;
use window_counts::Window;

/// A campaign and its machines, with memory for a page.
#[derive(Drop)]
pub(crate) struct Pages<'a, M: PageMachines> {
    pub list: &'a JobList,
    pub machines: M,
    pub keeper: Keeper<'a>,
    pub page: u32,
    pub budget: Option<u32>,
    pub portion: Portion<'a>,
    pub numbers: Vec<u32>,
    pub rows: Vec<Row>,
}

impl<'a, M: PageMachines> Model for Pages<'a, M> {
    ghost use Rattle.std.specs.Prelude.{vec_capacity, ◌≡◌, ◌<◌, ◌≤◌};
    ghost use Rattle.fs_model.specs.AccessLog.{log};
    ghost use Rattle.fs_model.specs.Job.{jobs_of};
    ghost use Rattle.campaign.specs.Ready.{ReadyData};

    ghost Value = { ReadyData };

    ghost view = { λ r. record {
      keeper = r.keeper;
      spacing = (M.seen r.machines).spacing;
      shortcuts = (M.seen r.machines).shortcuts;
      budget = r.budget;
      shard = r.portion.shard;
      window = r.portion.window;
      taken = (M.seen r.machines).taken;
    } };

    ghost invariant = { λ r. (r.list.now ≡ jobs_of (log r.keeper.case)) × ((M.seen r.machines).case ≡ r.keeper.case)
        × (r.keeper.page ≡ r.page) × ((M.seen r.machines).page ≡ r.page) × (0 < r.page)
        × (r.page ≤ vec_capacity r.numbers) × (r.page ≤ vec_capacity r.rows) };
}

impl<'a, M: PageMachines> Pages<'a, M> {
    /// Returns the number of steps that the machines took, saturating.
    pub(crate) fn taken(&self) -> u64
        ensures { result ≡ self.now.taken }
    {
        self.machines.taken()
    }

    /// Gives the workers shortcuts, and returns whether there was memory for them.
    pub(crate) fn give_shortcuts(&mut self, alloc: Global) -> bool
        ensures { self.new ≡ record self.old { shortcuts = result } }
    {
        self.machines.give_shortcuts(alloc)
    }

    /// Keeps to the jobs that are due in this window.
    pub(crate) fn keep_to(&mut self, window: &'a Window)
        ensures { self.new ≡ record self.old { window = Some window.now } }
    {
        self.portion.keep_to(window);
    }
}

// Runs the jobs with these numbers by this function, and writes the row of each, in order.
fn run_page<W: Way, M: PageMachines, F: Fn(&mut M, &[u32], &mut Vec<Row>)>(
    machines: &mut M,
    numbers: &[u32],
    rows: &mut Vec<Row>,
    run: &F,
)
    requires run { RunsPages W.ends_early M.seen F.Fn run.now }
    requires page { IsPageFor (M.seen machines.old) numbers.now rows.old }
    ensures { HasRunAs (W.ends_early (M.seen machines.old).shortcuts) (M.seen machines.old) numbers.now rows.old
        (M.seen machines.new) rows.new }
{
    run(machines, numbers, rows);
}

// Runs the next `count` missing jobs of the portion, and appends their rows. Returns the number from which the
// search for later ones continues.
fn keep_page<W: Way, M: PageMachines, D: Disk, F: Fn(&mut M, &[u32], &mut Vec<Row>)>(
    pages: &mut Pages<'_, M>,
    disk: &mut D,
    from: u32,
    count: u32,
    run: &F,
) -> Result<u32, DiskFault>
    requires run { RunsPages W.ends_early M.seen F.Fn run.now }
    requires healthy { pages.old.keeper.healthy ≡ true }
    requires file { D.tells → HasFile pages.old.keeper (D.past disk.old) }
    requires some { 0 < count }
    requires few { count ≤ pages.old.keeper.page }
    requires there { count ≤ length (due (portion_of pages.old) pages.old.keeper.board) }
    requires from { due_behind (portion_of pages.old) from pages.old.keeper.board ≡ due (portion_of pages.old) pages.old.keeper.board }

    ensures keeper { MatchResult result
        (λ _. pages.new.keeper ≡ after_batches pages.old.keeper (page_of (portion_of pages.old) pages.old.keeper count ∷ []))
        (λ _. pages.new.keeper ≡ record pages.old.keeper { healthy = false }) }
    ensures behind { IfOk result (λ next. due_behind (portion_of pages.new) next pages.new.keeper.board ≡ due (portion_of pages.new) pages.new.keeper.board) }
    ensures left { OnOk result (due (portion_of pages.new) pages.new.keeper.board ≡ drop count (due (portion_of pages.old) pages.old.keeper.board)) }
    ensures counted { OnOk result (kept_of pages.new.keeper.board ≡ kept_of pages.old.keeper.board + count) }
    ensures taken { OnOk result (RoseAs (W.ends_early pages.old.shortcuts) count pages.old.taken (steps_of_page pages.old count) pages.new.taken) }
    ensures spacing { pages.new.spacing ≡ pages.old.spacing }
    ensures shortcuts { pages.new.shortcuts ≡ pages.old.shortcuts }
    ensures budget { pages.new.budget ≡ pages.old.budget }
    ensures shard { pages.new.shard ≡ pages.old.shard }
    ensures window { pages.new.window ≡ pages.old.window }
    ensures cause { HasCause (D.faults disk.old) (D.faults disk.new) result }

    ensures file { D.tells → OnOk result (HasFile pages.new.keeper (D.past disk.new)) }
    ensures bytes { D.tells → OnOk result (content (D.past disk.new)
        ≡ appended (content (D.past disk.old)) pages.old.keeper.gate (page_of (portion_of pages.old) pages.old.keeper count)) }
    ensures added { D.tells → OnOk result (HoldsMore (EachImage (D.past disk.old) HasRightOldRows)
        (rows_held (content (D.past disk.old))) (page_of (portion_of pages.old) pages.old.keeper count)
        (content (D.past disk.new))) }
    ensures any_moment { D.tells → LeavesOnly (D.past disk.old) (D.past disk.new)
        (IsBeforeOrAfter (EachImage (D.past disk.old) HasRightOldRows) (rows_held (content (D.past disk.old)))
        (page_of (portion_of pages.old) pages.old.keeper count)) }
    ensures sound { D.tells → EachImage (D.past disk.old) IsSound → LeavesOnly (D.past disk.old) (D.past disk.new) IsSound }
    ensures old_rows { D.tells → EachImage (D.past disk.old) HasRightOldRows → LeavesOnly (D.past disk.old) (D.past disk.new) HasRightOldRows }
    ensures rows_stay { D.tells → (row : FileRow) → RowStays (D.past disk.old) (D.past disk.new) row }
{
    let next = next_numbers(
        pages.keeper.board(),
        pages.list,
        &pages.portion,
        from,
        count,
        &mut pages.numbers,
    );
    run_page::<W, _, _>(&mut pages.machines, &pages.numbers, &mut pages.rows, run);
    pages.keeper.append(disk, &pages.rows)?;
    Ok(next)
}

// Runs the first `most` missing jobs of the portion, page by page, and appends the rows of each page as one batch.
fn keep_pages<W: Way, M: PageMachines, D: Disk, F: Fn(&mut M, &[u32], &mut Vec<Row>)>(
    pages: &mut Pages<'_, M>,
    disk: &mut D,
    most: u32,
    run: &F,
) -> Result<(), DiskFault>
    requires run { RunsPages W.ends_early M.seen F.Fn run.now }
    requires healthy { pages.old.keeper.healthy ≡ true }
    requires file { D.tells → HasFile pages.old.keeper (D.past disk.old) }
    requires there { most ≤ length (due (portion_of pages.old) pages.old.keeper.board) }
    requires long { length pages.old.keeper.board ≡ length pages.old.keeper.list }

    ensures keeper { MatchResult result
        (λ _. pages.new.keeper ≡ after_batches pages.old.keeper (first_batches (portion_of pages.old) pages.old.keeper most))
        (λ _. IsBroken D.tells (D.past disk.old) (D.past disk.new) pages.old.keeper
        (first_batches (portion_of pages.old) pages.old.keeper most) pages.new.keeper) }
    ensures left { OnOk result (due (portion_of pages.new) pages.new.keeper.board ≡ drop most (due (portion_of pages.old) pages.old.keeper.board)) }
    ensures counted { OnOk result (kept_of pages.new.keeper.board ≡ kept_of pages.old.keeper.board + most) }
    ensures taken { OnOk result (RoseAs (W.ends_early pages.old.shortcuts) most pages.old.taken (steps_of_page pages.old most) pages.new.taken) }
    ensures spacing { pages.new.spacing ≡ pages.old.spacing }
    ensures shortcuts { pages.new.shortcuts ≡ pages.old.shortcuts }
    ensures budget { pages.new.budget ≡ pages.old.budget }
    ensures shard { pages.new.shard ≡ pages.old.shard }
    ensures window { pages.new.window ≡ pages.old.window }
    ensures cause { HasCause (D.faults disk.old) (D.faults disk.new) result }

    ensures file { D.tells → OnOk result (HasFile pages.new.keeper (D.past disk.new)) }
    ensures bytes { D.tells → OnOk result (content (D.past disk.new)
        ≡ appended_all (content (D.past disk.old)) pages.old.keeper.gate (first_batches (portion_of pages.old) pages.old.keeper most)) }
    ensures any_moment { D.tells → LeavesOnly (D.past disk.old) (D.past disk.new)
        (KeepsSome (D.past disk.old) (first_batches (portion_of pages.old) pages.old.keeper most)) }
    ensures gives { D.tells → EachImage (D.past disk.old) HasRightOldRows → Gives pages.old.keeper.case pages.old.keeper.board (content (D.past disk.old))
        → OnOk result (EachImage (D.past disk.new) (Gives pages.new.keeper.case pages.new.keeper.board)) }
    ensures sound { D.tells → EachImage (D.past disk.old) IsSound → LeavesOnly (D.past disk.old) (D.past disk.new) IsSound }
    ensures old_rows { D.tells → EachImage (D.past disk.old) HasRightOldRows → LeavesOnly (D.past disk.old) (D.past disk.new) HasRightOldRows }
    ensures rows_stay { D.tells → (row : FileRow) → RowStays (D.past disk.old) (D.past disk.new) row }
{
    // This call gives the proof the bound of the count.
    let _ = pages.taken();
    let mut from = 0;
    let mut left = most;
    while left > 0 {
        let count = left.min(pages.page);
        from = keep_page::<W, _, _, _>(pages, disk, from, count, run)?;
        left -= count;
    }
    Ok(())
}

// The numbers of all jobs, of those kept, of those missing, of the missing ones in the portion, and of those to
// run.
#[derive(Drop)]
struct Work {
    jobs: u32,
    kept: u32,
    missing: u32,
    due: u32,
    most: u32,
}

fn work_due<M: PageMachines>(pages: &Pages<'_, M>) -> Work
    ensures jobs { result.jobs ≡ length pages.now.keeper.board }
    ensures kept { result.kept ≡ kept_of pages.now.keeper.board }
    ensures missing { result.missing ≡ length (missing pages.now.keeper.board) }
    ensures due { result.due ≡ length (due (portion_of pages.now) pages.now.keeper.board) }
    ensures most { result.most ≡ least_of pages.now.budget result.due }
    ensures there { result.most ≤ result.due }
    ensures batches { first_batches (portion_of pages.now) pages.now.keeper result.most ≡ batches_due pages.now }
    ensures steps { steps_of_page pages.now result.most
        ≡ steps_of_numbers pages.now.keeper.case pages.now.spacing (jobs_in pages.now.keeper.case)
        (within_budget pages.now.budget (due (portion_of pages.now) pages.now.keeper.board)) }
    ensures long { length pages.now.keeper.board ≡ length pages.now.keeper.list }
    ensures listed { pages.now.keeper.list ≡ jobs_in pages.now.keeper.case }
{
    let board = pages.keeper.board();
    let jobs = board.len();
    let kept = board.kept();
    let missing = jobs - kept;
    let due = count_due(board, pages.list, &pages.portion);
    let most = within(pages.budget, due);
    Work {
        jobs,
        kept,
        missing,
        due,
        most,
    }
}

/// Runs the missing jobs of the portion within the budget, each page by this function, in the way `W`. Appends the
/// rows of each page as one batch, which every later crash keeps.
pub(crate) fn carry_out<
    W: Way,
    M: PageMachines,
    D: Disk,
    G: Gate,
    F: Fn(&mut M, &[u32], &mut Vec<Row>),
>(pages: &mut Pages<'_, M>, disk: &mut D, gate: &G, run: &F) -> Performed
    requires run { RunsPages W.ends_early M.seen F.Fn run.now }
    requires healthy { pages.old.keeper.healthy ≡ true }
    requires file { D.tells → HasFile pages.old.keeper (D.past disk.old) }

    ensures { IsCarriedOutAs (W.ends_early pages.old.shortcuts) D.tells pages.old pages.new
        (D.past disk.old) (D.past disk.new) (D.faults disk.old) (D.faults disk.new) result }
{
    let work = work_due(pages);
    gate.begin(work.jobs, work.kept, work.most);
    match keep_pages::<W, _, _, _>(pages, disk, work.most, run) {
        Ok(()) if work.most < work.missing => Performed::Stopped {
            kept: pages.keeper.board().kept(),
            jobs: work.jobs,
        },
        Ok(()) => Performed::Done(whole_totals(pages)),
        Err(DiskFault) => Performed::KeepFault,
    }
}
