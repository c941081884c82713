//! Packets of GDB's remote serial protocol: bytes to packets, packets to bytes, and the numbers in them.
//!
//! A packet is `$`, its data, `#`, and two hexadecimal digits: the sum of the data's bytes modulo 256. In data that
//! is received, `}` announces an escaped byte.
#![tactic(auto)]

mod frames;
mod numbers;
mod reader;

pub use frames::{push_console, push_frame, push_hex, push_unescaped};
pub use numbers::number_in;
pub use reader::{Heard, PACKET_SIZE, Reader};
