//! The ranges and defaults of the values of options.

/// The largest limit: the most instructions of a run.
pub const MAX_LIMIT: u64 = 16_777_216;

/// The most workers.
pub const MAX_WORKERS: u64 = 64;

pub(crate) const DEFAULT_WORKERS: u64 = 4;

/// The most jobs of a page.
pub const MAX_PAGE: u64 = 65_535;

pub(crate) const DEFAULT_PAGE: u64 = 4096;

/// The largest budget of a call.
pub const MAX_STOP: u64 = 0x7fff_ffff;

/// The most shards of a campaign.
pub const MAX_SHARDS: u64 = 65_535;

pub(crate) const MAX_SEED: u64 = 0xffff_ffff_ffff_ffff;

pub(crate) const DEFAULT_SEED: u64 = 0;

/// The most blocks of a generated program.
pub const MAX_BLOCKS: u64 = 1024;

pub(crate) const DEFAULT_BLOCKS: u64 = 8;

/// The most sites that a sample draws.
pub const MAX_COUNT: u64 = 1_000_000;

pub(crate) const DEFAULT_COUNT: u64 = 1000;
