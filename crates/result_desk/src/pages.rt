//! Finding the jobs of a page by name.
ghost use Rattle.std.specs.Prelude.{◌≡◌, ℕ, ◌+◌, ◌^◌, ◌<◌, ◌≤◌, true, false, All, IfOk, Some, [], length, slice_get, vec_capacity};
ghost use Rattle.fs_model.specs.declared.sites.Site.{Site};
ghost use Rattle.result_desk.specs.declared.pages.Named.{Named};
ghost use Rattle.result_desk.specs.Page.{place_of, AreSitesOf};
ghost use Rattle.result_desk.specs.Index.{is_below, is_of, with_place, AreNamed, IsIndex, IsUp};

use def_use::JobList;
use fs_model::{NoMemory, Site};
use std::alloc::Global;
use std::marker::Model;

// The name of a job, and its place in the page.
#[derive(Clone, Copy, PartialEq, Eq, PartialOrd, Ord)]
pub(crate) struct Named {
    cycle: u32,
    cell: u32,
    bit: u8,
    place: u32,
}

// The number of names after the last one found that are searched first.
const AHEAD: usize = 16;

/// The jobs of a page by place, and in the order of their names.
#[derive(Drop)]
pub(crate) struct Page {
    most: u32,
    sites: Vec<Site>,
    index: Vec<Named>,
    // The place after the last name found, because rows mostly come in the order of their names.
    near: usize,
}

impl Model for Page {
    ghost use Rattle.std.specs.Prelude.{◌≤◌, length, vec_capacity};
    ghost use Rattle.result_desk.specs.Page.{PageData};
    ghost use Rattle.result_desk.specs.Index.{IsPage};

    ghost Value = { PageData };

    ghost view = { λ p. record { most = p.most; sites = p.sites.items } };

    ghost invariant = { λ p. IsPage p.most p.sites.items (vec_capacity p.sites) p.index.items (vec_capacity p.index) };
}

// Returns whether one comes before another: by name, and then by place.
#[tactic(auto, unfolding(crate::specs::Index::is_below))]
fn is_below(a: &Named, b: &Named) -> bool
    ensures { result ≡ is_below a.now b.now }
{
    a.cycle < b.cycle
        || a.cycle == b.cycle
            && (a.cell < b.cell
                || a.cell == b.cell && (a.bit < b.bit || a.bit == b.bit && a.place < b.place))
}

// Returns whether this is its name.
#[tactic(auto, unfolding(fs_model::specs::Site::same_site))]
fn is_of(a: &Named, site: &Site) -> bool
    ensures { result ≡ is_of a.now site.now }
{
    a.cycle == site.cycle && a.cell == site.cell && a.bit == site.bit
}

// Returns the name with its place.
fn with_place(site: &Site, place: u32) -> Named
    ensures { result ≡ with_place site.now place }
{
    Named {
        cycle: site.cycle,
        cell: site.cell,
        bit: site.bit,
        place,
    }
}

// Writes the names of the jobs with these numbers.
fn list_sites(sites: &mut Vec<Site>, list: &JobList, numbers: &[u32])
    requires numbers { All (λ n. n < length list.now.list) numbers.now }
    requires room { length numbers.now ≤ vec_capacity sites.old }
    ensures sites { AreSitesOf list.now.list numbers.now sites.new.items }
    ensures room { vec_capacity sites.new ≡ vec_capacity sites.old }
{
    sites.clear();
    let mut walk = list.walk();
    for number in numbers {
        let job = walk.get(*number);
        sites.push_reserved(Site {
            cycle: job.cycle,
            cell: job.cell,
            bit: job.bit,
        });
    }
}

// Writes each name with its place.
fn list_names(index: &mut Vec<Named>, sites: &[Site])
    requires few { length sites.now < 2 ^ 32 }
    requires room { length sites.now ≤ vec_capacity index.old }
    ensures index { AreNamed sites.now index.new.items }
    ensures room { vec_capacity index.new ≡ vec_capacity index.old }
{
    index.clear();
    for place in 0..sites.len() as u32 {
        index.push_reserved(with_place(&sites[place as usize], place));
    }
}

// Writes each name with its place, in order.
fn index_sites(index: &mut Vec<Named>, sites: &[Site])
    requires few { length sites.now < 2 ^ 32 }
    requires room { length sites.now ≤ vec_capacity index.old }
    ensures index { IsIndex sites.now index.new.items }
    ensures room { vec_capacity index.new ≡ vec_capacity index.old }
{
    list_names(index, sites);
    index.sort_unstable();
}

// Returns bounds on the number of names before this one, which are close if it is at or shortly after a place.
fn around(index: &[Named], probe: &Named, near: usize) -> (usize, usize)
    requires { IsUp index.now }
    ensures apart { result.0 ≤ result.1 }
    ensures bound { result.1 ≤ length index.now }
    ensures low { (i : ℕ) (e : Named) → i < result.0 → slice_get index.now i ≡ Some e → is_below e probe.now ≡ true }
    ensures high { (i : ℕ) (e : Named) → result.1 ≤ i → slice_get index.now i ≡ Some e → is_below e probe.now ≡ false }
{
    let len = index.len();
    if near >= len {
        return (0, len);
    }
    if is_below(&index[near], probe) {
        if len - near > AHEAD && !is_below(&index[near + AHEAD], probe) {
            return (near + 1, near + AHEAD);
        }
        return (near + 1, len);
    }
    if near > 0 && is_below(&index[near - 1], probe) {
        return (near, near);
    }
    (0, near)
}

// Returns the number of names before this one, by a search near a place and then by binary search.
fn before(index: &[Named], probe: &Named, near: usize) -> usize
    requires { IsUp index.now }
    ensures bound { result ≤ length index.now }
    ensures low { (i : ℕ) (e : Named) → i < result → slice_get index.now i ≡ Some e → is_below e probe.now ≡ true }
    ensures high { (i : ℕ) (e : Named) → result ≤ i → slice_get index.now i ≡ Some e → is_below e probe.now ≡ false }
{
    let (mut low, mut high) = around(index, probe, near);
    while low < high {
        let middle = low + (high - low) / 2;
        if is_below(&index[middle], probe) {
            low = middle + 1;
        } else {
            high = middle;
        }
    }
    low
}

impl Page {
    /// Returns a page without jobs, with room for `most`.
    pub(crate) fn new(alloc: Global, most: u32) -> Result<Page, NoMemory>
        ensures { IfOk result (λ p. p ≡ record { most = most; sites = [] }) }
    {
        let sites = Vec::with_capacity(alloc, most as usize)?;
        let index = Vec::with_capacity(alloc, most as usize)?;
        Ok(Page {
            most,
            sites,
            index,
            near: 0,
        })
    }

    /// Takes the jobs with these numbers, and drops the earlier ones.
    pub(crate) fn fill(&mut self, list: &JobList, numbers: &[u32])
        requires numbers { All (λ n. n < length list.now.list) numbers.now }
        requires few { length numbers.now ≤ self.old.most }
        ensures sites { AreSitesOf list.now.list numbers.now self.new.sites }
        ensures most { self.new.most ≡ self.old.most }
    {
        list_sites(&mut self.sites, list, numbers);
        index_sites(&mut self.index, self.sites.as_slice());
        self.near = 0;
    }

    /// Returns the first place of a job with this name.
    pub(crate) fn place_of(&mut self, site: &Site) -> Option<u32>
        ensures place { result ≡ place_of self.old.sites site.now }
        ensures same { self.new ≡ self.old }
    {
        let at = before(self.index.as_slice(), &with_place(site, 0), self.near);
        if at == self.index.len() {
            return None;
        }
        self.near = at + 1;
        let found = self.index[at];
        if !is_of(&found, site) {
            return None;
        }
        Some(found.place)
    }

    /// Returns the most jobs that it can take.
    pub(crate) fn most(&self) -> u32
        ensures { result ≡ self.now.most }
    {
        self.most
    }

    /// Returns the number of jobs.
    pub(crate) fn len(&self) -> u32
        ensures value { result ≡ length self.now.sites }
        ensures few { result ≤ self.now.most }
    {
        self.sites.len() as u32
    }

    /// Returns the name of the job at a place.
    pub(crate) fn site(&self, place: u32) -> Site
        requires { place < length self.now.sites }
        ensures { slice_get self.now.sites place ≡ Some result }
    {
        self.sites[place as usize]
    }
}
