//! Devices in memory.
//!
//! The sure devices fail only for lack of memory. The others also have a list of calls that are to fail.
mod call_list;
mod copying;
mod crash;
mod disk_fails;
mod disk_plan;
mod mem_disk;
mod mem_streams;
mod sure_disk;
mod sure_streams;
mod tape;

pub use disk_plan::{DiskCall, DiskFail};
pub use mem_disk::MemDisk;
pub use mem_streams::{MemSink, MemSource};
pub use sure_disk::SureDisk;
pub use sure_streams::{SureSink, SureSource};
