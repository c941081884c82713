//! Samples of a fault space: the indices that a seed draws, and the site with an index. The same seed draws the
//! same sites everywhere.
#![tactic(auto)]

mod sampler;
mod sites;

pub use sampler::Sampler;
pub use sites::site_at;
