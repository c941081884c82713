//! The table of sites whose outcome is known, shared by threads.
ghost use Rattle.std.specs.Prelude.{◌≡◌, ◌≤◌, IfOk, IfSome, vec_len};
ghost use Rattle.fs_model.specs.Outcome.{outcome};

use crate::known_case::KnownCase;
use crate::parts::Part;
use crossbeam_utils::CachePadded;
use fs_model::{NoMemory, Outcome, Site};
use std::alloc::Global;
use std::marker::Model;
use std::sync::Mutex;

/// A table of sites of a case, each with its outcome, for several threads. A site has exactly one place, which holds
/// the site that was learned last for it. Each part of the places has a lock.
#[derive(Drop)]
pub struct SharedSites<K: KnownCase> {
    // Each lock has cache lines of its own, because other threads take theirs at the same time.
    parts: Vec<CachePadded<Mutex<Part<K>>>>,
}

impl<K: KnownCase> Model for SharedSites<K> {
    ghost use Rattle.std.specs.Prelude.{◌≤◌, vec_len};
    ghost use Rattle.fs_model.specs.Case.{CaseData};

    ghost Value = { CaseData };

    ghost view = { λ s. K.case };

    ghost invariant = { λ s. 1 ≤ vec_len s.parts };
}

// The number of neighbouring bits whose sites are in the same part.
const TOGETHER: u8 = 4;

// Returns a hash of the cell and the cycle of a site.
fn hash_of(site: Site) -> usize {
    let hash = site.cycle.wrapping_mul(0x9E37_79B1) ^ site.cell.wrapping_mul(0x85EB_CA77);
    (hash >> 13) as usize
}

impl<K: KnownCase> SharedSites<K> {
    /// Makes a table without sites, of `parts` parts with `places` places each. Takes all its memory.
    ///
    /// # Errors
    ///
    /// `NoMemory` if memory is refused.
    pub fn new(alloc: Global, parts: usize, places: usize) -> Result<SharedSites<K>, NoMemory>
        requires parts { 1 ≤ parts }
        requires places { 1 ≤ places }
        ensures { IfOk result (λ s. s ≡ K.case) }
    {
        let mut list = Vec::with_capacity(alloc, parts)?;
        for _ in 0..parts {
            list.push(CachePadded::new(Mutex::new(Part::new(alloc, places)?)))?;
        }
        Ok(SharedSites { parts: list })
    }

    // Returns the part of a site. Workers run the sites of a cell at a cycle at the same time, so only a few of its bits
    // have the same part.
    fn part(&self, site: Site) -> &Mutex<Part<K>>
        ensures { self.now ≡ K.case }
    {
        let bits = (site.bit / TOGETHER) as usize;
        &self.parts[hash_of(site).wrapping_add(bits) % self.parts.len()]
    }

    // Returns the number of the place of a site in its part. Those of the bits of a cell at a cycle are consecutive.
    fn place(&self, site: Site) -> usize {
        (hash_of(site) / self.parts.len())
            .wrapping_mul(32)
            .wrapping_add(site.bit as usize)
    }

    /// Returns the outcome of a site, if it is known and no other thread has the lock of the site's part.
    pub fn find(&self, site: Site) -> Option<Outcome>
        ensures { IfSome result (λ known. known ≡ outcome self.now site) }
    {
        self.part(site).try_lock()?.find(self.place(site), site)
    }

    /// Stores the outcome of a site, unless another thread has the lock of the site's part.
    pub fn learn(&self, site: Site, known: Outcome)
        requires { known ≡ outcome self.now site }
    {
        if let Some(mut part) = self.part(site).try_lock() {
            part.learn(self.place(site), site, known);
        }
    }
}
