//! The indices that a seed draws.

ghost use Rattle.std.specs.Prelude.{◌≡◌, ℕ, ◌<◌, ◌≤◌, ◌^◌, suc, ◌∷◌};
ghost use Rattle.sampling.specs.Draws.{seeded, index_of, after_draw, indices};

use rand_core::utils::NextWord;
use rand_pcg::Lcg64Xsh32;
use std::marker::Model;

// The stream of the generator.
const STREAM: u64 = 54;

// The number of values of a word, and of a number of two words.
const WORD_VALUES: u64 = 0x1_0000_0000;

const NUMBER_VALUES: u128 = 0x1_0000_0000_0000_0000;

/// A generator that draws one index after the other.
#[derive(Drop)]
pub struct Sampler {
    generator: Lcg64Xsh32,
}

impl Model for Sampler {
    ghost use Rattle.rand_pcg.specs.Lcg.{Lcg};

    ghost Value = { Lcg };

    ghost view = { λ s. s.generator };

    ghost inverse = { λ g. record { generator = g } };
}

impl Sampler {
    /// Returns the sampler of a seed.
    #[tactic(auto, unfolding(crate::specs::Draws::seeded))]
    pub fn new(seed: u64) -> Sampler
        ensures { result ≡ seeded seed }
    {
        Sampler {
            generator: Lcg64Xsh32::new(seed, STREAM),
        }
    }

    /// Returns the next index below the population: `(r * population) >> 64`, for a 64-bit number r made of two
    /// words.
    #[tactic(auto, unfolding(crate::specs::Draws::drawn, crate::specs::Draws::after_draw, crate::specs::Draws::index_of, crate::specs::Draws::indices))]
    pub fn next_index(&mut self, population: u64) -> u64
        requires some { 1 ≤ population }
        requires room { population < 2 ^ 44 }
        ensures index { result ≡ index_of population self.old }
        ensures moved { self.new ≡ after_draw self.old }
        ensures below { result < population }
        // So it is the first of the indices to come.
        ensures first { (count : ℕ) → indices (suc count) population self.old ≡ result ∷ indices count population self.new }
    {
        let upper = self.generator.next_word();
        let lower = self.generator.next_word();
        let number = u64::from(upper) * WORD_VALUES + u64::from(lower);
        let product = u128::from(number) * u128::from(population);
        (product / NUMBER_VALUES) as u64
    }
}
