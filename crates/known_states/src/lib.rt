//! States of injected runs and sites whose outcome is known. A later run of the same case that reaches such a state
//! at the same cycle, or the state of such a site, has the same outcome.
#![tactic(auto)]

mod changes;
mod differing;
mod entries;
mod keys;
mod single_bits;
mod table;
mod trail;

pub use changes::Change;
pub use keys::Key;
pub use single_bits::{Apart, difference};
pub use table::Table;
pub use trail::{Tally, Trail};
