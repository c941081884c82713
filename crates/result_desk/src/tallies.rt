//! Tallies of the rows that each worker gave to the desk.
ghost use Rattle.std.specs.Prelude.{◌≡◌, ◌+◌, ◌-◌, ◌^◌, ◌<◌, ◌≤◌, [], ◌∷◌, ◌++◌, All, IfOk, length, vec_len};
ghost use Rattle.fs_model.specs.Verdict.{IsRight};
ghost use Rattle.result_desk.specs.Tally.{new_tally};

use fs_model::{Case, NoMemory, Row, Verdict};
use std::alloc::Global;
use std::marker::Model;
use std::sync::ledger::{Book, Ledger, Share};

/// The rows that one worker gave to the desk, and the number of those that were filed.
#[derive(Drop)]
pub struct Tally<'c, K: Ledger> {
    case: &'c Case,
    page: u32,
    offered: Vec<Row>,
    filed: u64,
    share: Share<K>,
}

impl<'c, K: Ledger> Model for Tally<'c, K> {
    ghost use Rattle.std.specs.Prelude.{◌≡◌, ◌<◌, ◌≤◌, All, length, vec_capacity};
    ghost use Rattle.fs_model.specs.Verdict.{IsRight};
    ghost use Rattle.result_desk.specs.Tally.{TallyData};

    ghost Value = { TallyData };

    ghost view = { λ t. record { case = t.case.now; page = t.page; offered = t.offered.items; filed = t.filed; parts = t.share.parts } };

    ghost invariant = { λ t. (0 < t.share.parts) × (t.share.amount ≡ t.filed) × (t.page ≤ vec_capacity t.offered) × All (IsRight t.case.now) t.offered.items };
}

impl<'c, K: Ledger> Tally<'c, K> {
    /// Returns a tally for one part of the ledger of a desk that was made from its book.
    pub fn new(
        alloc: Global,
        case: &'c Case,
        page: u32,
        share: Share<K>,
    ) -> Result<Tally<'c, K>, NoMemory>
        requires { (share.parts ≡ 1) × (share.amount ≡ 0) }
        ensures { IfOk result (λ t. t ≡ new_tally case.now page) }
    {
        let offered = Vec::with_capacity(alloc, page as usize)?;
        Ok(Tally {
            case,
            page,
            offered,
            filed: 0,
            share,
        })
    }

    /// Returns the case of its rows.
    pub fn case(&self) -> &'c Case
        ensures { result.now ≡ self.now.case }
    {
        self.case
    }

    /// Returns the rows given to the desk since `clear`, in order, whatever the result was.
    pub fn offered(&self) -> &[Row]
        ensures rows { result.now ≡ self.now.offered }
        ensures right { All (IsRight self.now.case) result.now }
    {
        self.offered.as_slice()
    }

    /// Returns the number of rows filed for this tally and for those that were joined into it.
    pub fn filed(&self) -> u64
        ensures { result ≡ self.now.filed }
    {
        self.filed
    }

    /// Forgets the rows given to the desk, and nothing else.
    pub fn clear(&mut self)
        ensures { self.new ≡ record self.old { offered = [] } }
    {
        self.offered.clear();
    }

    /// Adds the filings of another tally.
    pub fn join(&mut self, other: Tally<'c, K>)
        requires { self.old.filed + other.filed < 2 ^ 64 }
        ensures { self.new ≡ record self.old { filed = self.old.filed + other.entry.filed; parts = self.old.parts + other.entry.parts } }
    {
        let Tally {
            case: _,
            page: _,
            offered: _,
            filed,
            share,
        } = other;
        self.share.merge(share);
        self.filed += filed;
    }

    // Records the row of a verdict.
    pub(crate) fn offer(&mut self, verdict: &Verdict<'_>)
        requires case { verdict.now.case ≡ self.old.case }
        requires room { length self.old.offered < self.old.page }
        ensures { self.new ≡ record self.old { offered = self.old.offered ++ verdict.now.row ∷ [] } }
    {
        self.offered.push_reserved(verdict.row());
    }

    // Counts a filing, here and in the desk's ledger.
    pub(crate) fn count(&mut self, book: &mut Book<K>)
        requires { book.old.total < 2 ^ 64 - 1 }
        ensures book { book.new.total ≡ book.old.total + 1 }
        ensures tally { self.new ≡ record self.old { filed = self.old.filed + 1 } }
    {
        book.audit(&mut self.share);
        book.add(&mut self.share, 1);
        self.filed += 1;
    }

    // Establishes that a tally with all parts of the ledger has all filings.
    pub(crate) fn audit(&mut self, book: &mut Book<K>)
        requires { self.old.parts ≡ K.parts }
        ensures book { book.new.total ≡ book.old.total }
        ensures total { self.old.filed ≡ book.old.total }
        ensures tally { self.new ≡ self.old }
    {
        book.audit(&mut self.share);
    }
}

/// Returns a tally for each part of the desk's ledger.
pub(crate) fn tallies_of<'c, K: Ledger>(
    alloc: Global,
    case: &'c Case,
    page: u32,
    hands: u32,
    mut share: Share<K>,
) -> Result<Vec<Tally<'c, K>>, NoMemory>
    requires parts { share.parts ≡ hands }
    requires amount { share.amount ≡ 0 }
    ensures count { IfOk result (λ v. vec_len v ≡ hands) }
    ensures tallies { IfOk result (λ v. All (λ t. t ≡ new_tally case.now page) v.items) }
{
    let mut tallies = Vec::with_capacity(alloc, hands as usize)?;
    for _i in 0..hands {
        tallies.push(Tally::new(alloc, case, page, share.split_off(1, 0))?)?;
    }
    Ok(tallies)
}
