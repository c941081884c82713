//! A part of the table, which lies under a lock of its own.
ghost use Rattle.std.specs.Prelude.{◌≡◌, ◌≤◌, All, IfOk, IfSome, length};
ghost use Rattle.fs_model.specs.Outcome.{outcome};

use crate::known_case::KnownCase;
use fs_model::{NoMemory, Outcome, Site};
use std::alloc::Global;
use std::marker::{Model, PhantomData};

// A site, with its outcome once one was learned.
#[derive(Clone, Copy)]
pub(crate) struct Place {
    site: Site,
    outcome: Option<Outcome>,
}

/// Some places. Each holds the site that was learned last for it.
#[derive(Drop)]
pub(crate) struct Part<K: KnownCase> {
    places: Vec<Place>,
    of: PhantomData<K>,
}

impl<K: KnownCase> Model for Part<K> {
    ghost use Rattle.fs_model.specs.Case.{CaseData};
    ghost use Rattle.shared_sites.specs.Known.{AreKnownSites};

    ghost Value = { CaseData };

    ghost view = { λ p. K.case };

    ghost invariant = { λ p. AreKnownSites K.case p.places.items };
}

impl<K: KnownCase> Part<K> {
    /// Makes a part without sites, of `places` places. Takes all its memory.
    ///
    /// # Errors
    ///
    /// `NoMemory` if memory is refused.
    pub(crate) fn new(alloc: Global, places: usize) -> Result<Part<K>, NoMemory>
        requires { 1 ≤ places }
    {
        let mut list = Vec::with_capacity(alloc, places)?;
        for _ in 0..places {
            list.push(Place {
                site: Site {
                    cycle: 0,
                    cell: 0,
                    bit: 0,
                },
                outcome: None,
            })?;
        }
        Ok(Part {
            places: list,
            of: PhantomData,
        })
    }

    /// Returns the outcome of a site, if the place with this number has it.
    pub(crate) fn find(&self, number: usize, site: Site) -> Option<Outcome>
        ensures { IfSome result (λ known. known ≡ outcome K.case site) }
    {
        let place = self.places[number % self.places.len()];
        if place.site == site {
            place.outcome
        } else {
            None
        }
    }

    /// Stores the outcome of a site in the place with this number.
    pub(crate) fn learn(&mut self, number: usize, site: Site, known: Outcome)
        requires { known ≡ outcome K.case site }
    {
        let place = number % self.places.len();
        self.places[place] = Place {
            site,
            outcome: Some(known),
        };
    }
}
