//! The format of a campaign file: a gate, a header, a card, and batches of rows, each after a gate of its own.
//! `specs/KeepFile.antt` defines what its bytes mean.
#![tactic(auto)]

mod agreement;
mod batches;
mod conflicts;
mod fault;
mod fronts;
mod header;
pub mod laws;
mod layout;
mod numbers;
mod order;
mod raw_rows;
mod reading;
mod rows;
mod runs;
mod writing;

pub use batches::{FormatRefusal, Kept, kept_rows, read_batches};
pub use fault::FormatFault;
pub use header::{Header, header_by_front, read_header};
pub use layout::{BATCH_HEAD, CARD_START, CLOSED, OPEN, ROW_LEN};
pub use reading::{FileRows, RowIter, read_rows};
pub use rows::KeptRow;
pub use writing::{write_batch, write_header};
