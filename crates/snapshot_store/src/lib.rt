//! States of the golden run, stored at a spacing. Injected runs begin at the nearest one, and are compared with
//! those that they pass.
#![tactic(auto)]

mod along;
mod snaps;
mod spacing;

pub use along::advance;
pub use snaps::{Snap, Snaps};
pub use spacing::spacing_of;
