//! The ports: stores that send a byte, report a detected fault, or halt.

pub(crate) const OUT_PORT: u32 = 0xf000_0000;

pub(crate) const DETECT_PORT: u32 = 0xf000_0004;

pub(crate) const HALT_PORT: u32 = 0xf000_0008;
