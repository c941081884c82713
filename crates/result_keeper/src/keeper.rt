//! The keeper of a campaign file: opening it, and appending batches.
ghost use Rattle.std.specs.Prelude.{◌≡◌, ◌+◌, ◌*◌, ◌^◌, ◌<◌, ◌≤◌, ◌++◌, [], ◌∷◌, vec_capacity, IfOk};
ghost use Rattle.fs_model.specs.Card.{HasCard, card};
ghost use Rattle.result_keeper.specs.Acceptance.{board_of};
ghost use Rattle.keep_format.specs.KeepFile.{head_bytes};

use crate::appending::write_behind;
use crate::boards::file_rows;
use crate::opening::open_file;
use crate::refusals::AdoptRefusal;
use def_use::{Board, JobList};
use fs_model::{Case, NoMemory, Row};
use fs_outside::{Disk, Failed};
use keep_format::{BATCH_HEAD, ROW_LEN, write_batch, write_header};
use std::alloc::Global;
use std::marker::Model;

/// The disk failed, and its count of faults rose.
#[derive(Clone, Copy, Debug, PartialEq, Eq)]
pub struct DiskFault;

/// An open campaign file. The outcomes on its board are in the file.
#[derive(Drop)]
pub struct Keeper<'a> {
    case: &'a Case,
    list: &'a JobList,
    board: Board,
    gate: u64,
    page: u32,
    healthy: bool,
    out: Vec<u8>,
}

impl<'a> Model for Keeper<'a> {
    ghost use Rattle.std.specs.Prelude.{◌+◌, ◌*◌, ◌≤◌, vec_capacity};
    ghost use Rattle.result_keeper.specs.Keep.{KeeperData, IsKeeper};

    ghost Value = { KeeperData };

    ghost view = { λ k. record { case = k.case.now; list = k.list.now.list; board = k.board; gate = k.gate; page = k.page; healthy = k.healthy } };

    ghost invariant = { λ k. IsKeeper k.case.now k.list.now.list k.board k.gate k.page × (3 + 10 * k.page ≤ vec_capacity k.out) };
}

// Does nothing. Its contract states the bounds on the card of every case.
fn facts(case: &Case)
    ensures { HasCard case.now }
{
    case.facts();
    let _entry = case.entry();
}

// The memory that a keeper needs: room for a page, the header of a new file, and a blank board.
#[derive(Drop)]
struct Memory {
    out: Vec<u8>,
    head: Vec<u8>,
    blank: Board,
}

fn take_memory(alloc: Global, case: &Case, list: &JobList, page: u32) -> Result<Memory, NoMemory>
    requires { page < 2 ^ 16 }
    ensures case { HasCard case.now }
    ensures out { IfOk result (λ memory. 3 + 10 * page ≤ vec_capacity memory.out) }
    ensures head { IfOk result (λ memory. memory.head.items ≡ head_bytes (card case.now) ++ 0 ∷ []) }
    ensures blank { IfOk result (λ memory. memory.blank ≡ board_of list.now.list []) }
{
    facts(case);
    let out = Vec::with_capacity(alloc, BATCH_HEAD + ROW_LEN * page as usize)?;
    let mut head = Vec::new(alloc);
    write_header(case, &mut head)?;
    let blank = Board::new(alloc, list.len())?;
    Ok(Memory { out, head, blank })
}

impl<'a> Keeper<'a> {
    ghost use Rattle.std.specs.Prelude.{All, ◌≡◌, ◌≢◌, ◌+◌, ◌*◌, ◌^◌, ◌<◌, ◌≤◌, [], length, true, false, Ok, IfErr, IfOk, OnOk, MatchResult};
    ghost use Rattle.fs_outside.specs.Faults.{HasCause, IsCaused};
    ghost use Rattle.fs_outside.specs.Past.{content, EachImage, IsImage, LeavesOnly};
    ghost use Rattle.fs_model.specs.Job.{jobs_in};
    ghost use Rattle.result_keeper.specs.Acceptance.{HasRightOldRows, IsSound, accept, board_of};
    ghost use Rattle.fs_model.specs.Card.{card};
    ghost use Rattle.keep_format.specs.KeepFile.{FileRow, rows_held};
    ghost use Rattle.fs_model.specs.Verdict.{IsRight};
    ghost use Rattle.result_keeper.specs.Accept.{HasCase, IsBegun, IsRefusedUnless, IsUntouched, is_fault};
    ghost use Rattle.result_keeper.specs.Begin.{IsHeaded, IsOneOfThree};
    ghost use Rattle.result_keeper.specs.Boards.{AreFileable, filed};
    ghost use Rattle.result_keeper.specs.Reading.{front_len};
    ghost use Rattle.result_keeper.specs.Keep.{HasFile, Gives, HoldsMore, RowStays, IsBeforeOrAfter, IsKept, appended};

    /// Opens a file for a case with this list of jobs. Starts it if it is empty or `fresh` says so; otherwise
    /// accepts it as it is, or refuses it. Syncs first, and takes all memory that the keeper needs before it
    /// writes. `page` is the most rows of an append.
    ///
    /// # Errors
    ///
    /// `DiskFault` if the disk failed, `Refused` if the file does not belong to this case, and `NoMemory` if
    /// memory is refused.
    pub fn adopt<D: Disk>(
        alloc: Global,
        disk: &mut D,
        case: &'a Case,
        list: &'a JobList,
        page: u32,
        fresh: bool,
    ) -> Result<Keeper<'a>, AdoptRefusal>
        requires page { page < 2 ^ 16 }
        requires jobs { list.now.list ≡ jobs_in case.now }

        ensures keeper { IfOk result (λ keeper. IsKept keeper case.now list.now.list page) }
        ensures file { D.tells → IfOk result (λ keeper. HasFile keeper (D.past disk.new)) }
        ensures board { D.tells → fresh ≡ false → IfOk result (λ keeper. accept (content (D.past disk.old)) case.now ≡ Ok keeper.board) }
        ensures fresh { fresh ≡ true → IfOk result (λ keeper. keeper.board ≡ board_of list.now.list []) }
        ensures refused { D.tells → IfErr result (IsRefusedUnless fresh (content (D.past disk.old)) case.now) }
        ensures cause { IsCaused (is_fault result) (D.faults disk.old) (D.faults disk.new) }

        // What a read of the disk returns.
        ensures begun { D.tells → IsBegun fresh (content (D.past disk.old))
            → OnOk result (IsHeaded (card case.now) (content (D.past disk.new))) }
        ensures same { D.tells → (IsBegun fresh (content (D.past disk.old)) → ⊥)
            → content (D.past disk.new) ≡ content (D.past disk.old) }
        ensures err { D.tells → IfErr result (IsUntouched (content (D.past disk.old)) (content (D.past disk.new))) }

        // Whatever the result, it reads no more bytes than the length of the file, and no more than the front of
        // a file that is started or that has another card.
        ensures given { D.tells → D.given disk.new ≤ D.given disk.old + length (content (D.past disk.old)) }
        ensures given_begun { D.tells → IsBegun fresh (content (D.past disk.old)) → D.given disk.new ≤ D.given disk.old + front_len case.now }
        ensures given_other { D.tells → (HasCase (content (D.past disk.old)) case.now → ⊥)
            → D.given disk.new ≤ D.given disk.old + front_len case.now }

        // What a crash leaves: after the call, a file that gives the board; during the call, one of three files,
        // or, if no file is started, what a crash could have left before.
        ensures kept { D.tells → IfOk result (λ keeper. EachImage (D.past disk.new) (Gives case.now keeper.board)) }
        ensures any_moment { D.tells → LeavesOnly (D.past disk.old) (D.past disk.new)
            (IsOneOfThree (D.past disk.old) (card case.now)) }
        ensures any_moment_kept { D.tells → (IsBegun fresh (content (D.past disk.old)) → ⊥)
            → LeavesOnly (D.past disk.old) (D.past disk.new) (IsImage (D.past disk.old)) }
        ensures sound { D.tells → EachImage (D.past disk.old) IsSound → LeavesOnly (D.past disk.old) (D.past disk.new) IsSound }
        ensures old_rows { D.tells → EachImage (D.past disk.old) HasRightOldRows → LeavesOnly (D.past disk.old) (D.past disk.new) HasRightOldRows }
        ensures rows_stay { D.tells → fresh ≡ false → (row : FileRow) → RowStays (D.past disk.old) (D.past disk.new) row }
    {
        let memory = match take_memory(alloc, case, list, page) {
            Ok(memory) => memory,
            Err(NoMemory) => return Err(AdoptRefusal::NoMemory),
        };
        let Memory { out, head, blank } = memory;
        match open_file(alloc, disk, case, list, &head, blank, fresh) {
            Ok(opened) => Ok(Keeper {
                case,
                list,
                board: opened.board,
                gate: opened.gate,
                page,
                healthy: true,
                out,
            }),
            Err(refusal) => Err(refusal),
        }
    }

    /// Returns the outcomes that the file gives to the jobs.
    pub fn board(&self) -> &Board
        ensures value { result.now ≡ self.now.board }
        // The board has a place for each job of the case.
        ensures long { length self.now.board ≡ length self.now.list }
        ensures jobs { self.now.list ≡ jobs_in self.now.case }
    {
        &self.board
    }

    /// Returns whether no append has failed.
    pub fn healthy(&self) -> bool
        ensures { result ≡ self.now.healthy }
    {
        self.healthy
    }

    /// Appends a batch. After `Ok` its rows are on the board, and every later crash leaves a file that has them.
    /// After `Err` the keeper must not be used again: open the file again.
    ///
    /// # Errors
    ///
    /// `DiskFault` if a write or a sync failed. A crash then leaves all rows or none.
    pub fn append<D: Disk>(&mut self, disk: &mut D, rows: &[Row]) -> Result<(), DiskFault>
        requires healthy { self.old.healthy ≡ true }
        requires some { 0 < length rows.now }
        requires few { length rows.now ≤ self.old.page }
        requires blank { AreFileable self.old.list self.old.board rows.now }
        requires file { D.tells → HasFile self.old (D.past disk.old) }

        ensures keeper { MatchResult result
            (λ _. self.new ≡ record self.old { board = filed self.old.list self.old.board rows.now; gate = self.old.gate + (3 + 10 * length rows.now) })
            (λ _. self.new ≡ record self.old { healthy = false }) }
        ensures cause { HasCause (D.faults disk.old) (D.faults disk.new) result }

        // The file has these rows in addition, and every crash keeps them.
        ensures file { D.tells → OnOk result (HasFile self.new (D.past disk.new)) }
        ensures added { D.tells → OnOk result (HoldsMore (All (IsRight self.old.case) rows.now × EachImage (D.past disk.old) HasRightOldRows)
            (rows_held (content (D.past disk.old))) rows.now (content (D.past disk.new))) }
        ensures bytes { D.tells → OnOk result (content (D.past disk.new) ≡ appended (content (D.past disk.old)) self.old.gate rows.now) }
        ensures acknowledged { D.tells → OnOk result (EachImage (D.past disk.new)
            (HoldsMore (All (IsRight self.old.case) rows.now × EachImage (D.past disk.old) HasRightOldRows) (rows_held (content (D.past disk.old))) rows.now)) }

        // If the old rows of the file and these rows are right, and the file gave the board before, then every
        // crash leaves a file that gives the present board. A wrong old row could disagree with a new one.
        ensures kept { D.tells → All (IsRight self.old.case) rows.now → EachImage (D.past disk.old) HasRightOldRows
            → Gives self.old.case self.old.board (content (D.past disk.old))
            → OnOk result (EachImage (D.past disk.new) (Gives self.new.case self.new.board)) }

        // A crash at any moment of the call keeps all rows or none.
        ensures any_moment { D.tells → LeavesOnly (D.past disk.old) (D.past disk.new)
            (IsBeforeOrAfter (All (IsRight self.old.case) rows.now × EachImage (D.past disk.old) HasRightOldRows)
            (rows_held (content (D.past disk.old))) rows.now) }
        ensures sound { D.tells → All (IsRight self.old.case) rows.now → EachImage (D.past disk.old) IsSound
            → LeavesOnly (D.past disk.old) (D.past disk.new) IsSound }
        ensures old_rows { D.tells → All (IsRight self.old.case) rows.now → EachImage (D.past disk.old) HasRightOldRows
            → LeavesOnly (D.past disk.old) (D.past disk.new) HasRightOldRows }
        ensures rows_stay { D.tells → All (IsRight self.old.case) rows.now → (row : FileRow) → RowStays (D.past disk.old) (D.past disk.new) row }
    {
        facts(self.case);
        self.out.clear();
        write_batch(rows, &mut self.out);
        match write_behind(disk, self.gate, &self.out) {
            Ok(()) => {
                file_rows(&mut self.board, self.list, rows);
                self.gate += (BATCH_HEAD + ROW_LEN * rows.len()) as u64;
                Ok(())
            }
            Err(Failed) => {
                self.healthy = false;
                Err(DiskFault)
            }
        }
    }
}
