//! Devices: sources of bytes, sinks for bytes, and the disk of a campaign file.
//!
//! A device is a type with one of the traits [`Source`], [`Sink`] and [`Disk`]. The devices in memory tell their
//! content, and some can be made to fail. The adapter of a real file tells nothing, so the clauses about content
//! do not apply to it.
#![tactic(auto)]

mod disks;
mod faults;
mod gates;
mod memory;
mod parts;
mod reading;
mod sinks;
mod sources;
mod synced;
mod writing;

pub use disks::Disk;
pub use faults::{Failed, MAX_FAULTS, rise};
pub use gates::{FreeGate, Gate, HoldGate};
pub use memory::{DiskCall, DiskFail, MemDisk, MemSink, MemSource, SureDisk, SureSink, SureSource};
pub use parts::{Part, write_parts};
pub use reading::{ReadRefusal, read_all};
pub use sinks::Sink;
pub use sources::Source;
pub use synced::write_synced;
pub use writing::{write_pieces, write_whole};
