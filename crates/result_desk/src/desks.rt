//! The desk, where rows are filed.
ghost use Rattle.std.specs.Prelude.{◌≡◌, ◌+◌, ◌-◌, ◌^◌, ◌<◌, ◌≤◌, [], All, IfOk, IfSome, None, length, replicate, vec_len, vec_capacity};
ghost use Rattle.fs_model.specs.Verdict.{IsRight, site_of_row};
ghost use Rattle.def_use.specs.Board.{kept_of};
ghost use Rattle.result_desk.specs.Page.{AreSitesOf, place_of};
ghost use Rattle.result_desk.specs.Desk.{IsDesk, IsRowAt};
ghost use Rattle.result_desk.specs.Filing.{IsFiling, HasAt, Takes, filed_in, new_rows};
ghost use Rattle.result_desk.specs.Tally.{new_tally, tally_told};
ghost use Rattle.result_desk.specs.declared.filings.Filing.TheVariants.{Filed, Known};

use crate::filings::Filing;
use crate::pages::Page;
use crate::tallies::{Tally, tallies_of};
use def_use::JobList;
use fs_model::{Case, NoMemory, Outcome, Row, Site, Verdict, same_case};
use std::alloc::Global;
use std::marker::Model;
use std::sync::ledger::{Blank, Book, Ledger};

/// The rows of a page, each of a job of the page and right in the desk's case, with different names.
#[derive(Drop)]
pub struct Desk<'c, K: Ledger> {
    case: &'c Case,
    page: Page,
    rows: Vec<Option<Outcome>>,
    len: u32,
    number: u64,
    book: Book<K>,
}

impl<'c, K: Ledger> Model for Desk<'c, K> {
    ghost use Rattle.std.specs.Prelude.{◌≡◌, ◌≤◌, vec_capacity};
    ghost use Rattle.def_use.specs.Board.{kept_of};
    ghost use Rattle.result_desk.specs.Desk.{DeskData, IsDesk};

    ghost Value = { DeskData };

    ghost view = { λ d. record { case = d.case.now; page = d.page.most; sites = d.page.sites; rows = d.rows.items; number = d.number } };

    ghost invariant = { λ d. IsDesk (record { case = d.case.now; page = d.page.most; sites = d.page.sites; rows = d.rows.items; number = d.number })
        × (d.len ≡ kept_of d.rows.items) × (d.book.total ≡ d.number) × (d.page.most ≤ vec_capacity d.rows) };
}

// Returns the name of a row.
fn name_of(row: &Row) -> Site
    ensures { result ≡ site_of_row row.now }
{
    Site {
        cycle: row.cycle,
        cell: row.cell,
        bit: row.bit,
    }
}

// Makes `count` places without a row.
fn clear_rows(rows: &mut Vec<Option<Outcome>>, count: usize)
    requires { count ≤ vec_capacity rows.old }
    ensures rows { rows.new.items ≡ replicate count None }
    ensures room { vec_capacity rows.new ≡ vec_capacity rows.old }
{
    rows.clear();
    for _i in 0..count {
        rows.push_reserved(None);
    }
}

impl<'c, K: Ledger> Desk<'c, K> {
    /// Returns an empty desk for pages of at most this number of jobs, and a tally for each hand.
    pub fn new(
        alloc: Global,
        case: &'c Case,
        page: u32,
        hands: u32,
        blank: Blank,
    ) -> Result<(Desk<'c, K>, Vec<Tally<'c, K>>), NoMemory>
        requires name { blank.name ≡ K.name }
        requires parts { (blank.parts ≡ K.parts) × (blank.parts ≡ hands) }
        ensures desk { IfOk result (λ r. r.0 ≡ record { case = case.now; page = page; sites = []; rows = []; number = 0 }) }
        ensures count { IfOk result (λ r. vec_len r.1 ≡ hands) }
        ensures tallies { IfOk result (λ r. All (λ t. t ≡ new_tally case.now page) r.1.items) }
    {
        let (book, share) = blank.open::<K>();
        let desk = Desk::of_book(alloc, case, page, book)?;
        let tallies = tallies_of(alloc, case, page, hands, share)?;
        Ok((desk, tallies))
    }

    /// Returns an empty desk made from the book of a ledger in which nothing was filed. The ledger's shares are
    /// for tallies.
    pub fn of_book(
        alloc: Global,
        case: &'c Case,
        page: u32,
        book: Book<K>,
    ) -> Result<Desk<'c, K>, NoMemory>
        requires { book.total ≡ 0 }
        ensures { IfOk result (λ d. d ≡ record { case = case.now; page = page; sites = []; rows = []; number = 0 }) }
    {
        let rows = Vec::with_capacity(alloc, page as usize)?;
        let page = Page::new(alloc, page)?;
        Ok(Desk {
            case,
            page,
            rows,
            len: 0,
            number: 0,
            book,
        })
    }

    /// Begins a page of the list's jobs with these numbers, and drops the rows of the last page.
    pub fn begin(&mut self, list: &JobList, numbers: &[u32])
        requires numbers { All (λ n. n < length list.now.list) numbers.now }
        requires page { length numbers.now ≤ self.old.page }
        ensures sites { AreSitesOf list.now.list numbers.now self.new.sites }
        ensures rows { self.new.rows ≡ replicate (length numbers.now) None }
        ensures len { kept_of self.new.rows ≡ 0 }
        ensures same { (self.new.case ≡ self.old.case) × (self.new.page ≡ self.old.page) × (self.new.number ≡ self.old.number) }
    {
        self.page.fill(list, numbers);
        clear_rows(&mut self.rows, numbers.len());
        self.len = 0;
    }

    /// Files the row of a verdict, and returns the result. Compares the two cases byte by byte.
    pub fn file(&mut self, verdict: &Verdict<'_>, tally: &mut Tally<'_, K>) -> Filing
        requires case { verdict.now.case ≡ tally.old.case }
        requires room { length tally.old.offered < tally.old.page }
        ensures answer { IsFiling self.old verdict.now result }
        ensures desk { self.new ≡ filed_in self.old verdict.now.row result }
        ensures tally { tally.new ≡ tally_told tally.old verdict.now.row result }
        ensures len { kept_of self.new.rows ≡ kept_of self.old.rows + new_rows result }
    {
        if !same_case(self.case, verdict.case()) {
            tally.offer(verdict);
            return if self.number < u64::MAX {
                Filing::Stranger
            } else {
                Filing::Spent
            };
        }
        self.file_own(verdict, tally)
    }

    /// Files the row of a verdict of the desk's own case, and compares no case.
    pub fn file_own(&mut self, verdict: &Verdict<'_>, tally: &mut Tally<'_, K>) -> Filing
        requires own { verdict.now.case ≡ self.old.case }
        requires case { verdict.now.case ≡ tally.old.case }
        requires room { length tally.old.offered < tally.old.page }
        ensures answer { IsFiling self.old verdict.now result }
        ensures desk { self.new ≡ filed_in self.old verdict.now.row result }
        ensures tally { tally.new ≡ tally_told tally.old verdict.now.row result }
        ensures len { kept_of self.new.rows ≡ kept_of self.old.rows + new_rows result }
        ensures same { self.new.case ≡ self.old.case }
    {
        tally.offer(verdict);
        if self.number == u64::MAX {
            return Filing::Spent;
        }
        match self.page.place_of(&name_of(&verdict.row())) {
            None => Filing::OutsidePage,
            Some(place) => self.file_at(place, verdict, tally),
        }
    }

    // `place` is the first place with the row's name.
    fn file_at(&mut self, place: u32, verdict: &Verdict<'_>, tally: &mut Tally<'_, K>) -> Filing
        requires place { place_of self.old.sites (site_of_row verdict.now.row) ≡ Some place }
        requires takes { Takes self.old verdict.now }
        ensures answer { IsFiling self.old verdict.now result }
        ensures desk { self.new ≡ filed_in self.old verdict.now.row result }
        ensures tally { tally.new ≡ record tally.old { filed = tally.old.filed + new_rows result } }
        ensures len { kept_of self.new.rows ≡ kept_of self.old.rows + new_rows result }
        ensures same { self.new.case ≡ self.old.case }
    {
        let row = verdict.row();
        if self.rows[place as usize].is_some() {
            return Filing::Known;
        }
        tally.count(&mut self.book);
        self.rows[place as usize] = Some(row.outcome);
        self.len += 1;
        self.number += 1;
        Filing::Filed
    }

    /// Returns the row of the page's job at a place, if there is one.
    pub fn row_of(&self, place: u32) -> Option<Row>
        ensures row { IsRowAt self.now place result }
        ensures right { IfSome result (λ row. IsRight self.now.case row) }
    {
        if place >= self.page.len() {
            return None;
        }
        let outcome = self.rows[place as usize]?;
        let site = self.page.site(place);
        Some(Row {
            cycle: site.cycle,
            cell: site.cell,
            bit: site.bit,
            outcome,
        })
    }

    /// Returns the number of rows that were filed since `begin`.
    pub fn len(&self) -> u32
        ensures { result ≡ kept_of self.now.rows }
    {
        self.len
    }

    /// Returns the case of its rows.
    pub fn case(&self) -> &'c Case
        ensures { result.now ≡ self.now.case }
    {
        self.case
    }

    /// Returns the most jobs of a page.
    pub fn page(&self) -> u32
        ensures { result ≡ self.now.page }
    {
        self.page.most()
    }

    /// Returns the number of rows that were ever filed. All tallies must have been joined into this one.
    pub fn settle(&mut self, tally: &mut Tally<'c, K>) -> u64
        requires { tally.old.parts ≡ K.parts }
        ensures number { result ≡ self.old.number }
        ensures filed { result ≡ tally.old.filed }
        ensures same { (self.new ≡ self.old) × (tally.new ≡ tally.old) }
    {
        tally.audit(&mut self.book);
        self.number
    }

    /// Does nothing. Its contract states that the rows of a desk are right, with different names.
    pub fn facts(&self)
        ensures { IsDesk self.now }
    {
        let _case = self.case;
    }
}
