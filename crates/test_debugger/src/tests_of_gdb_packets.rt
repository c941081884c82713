//! Packets of the protocol, with checksums and numbers that were worked out by hand.

use gdb_packets::{Heard, Reader, number_in, push_console, push_frame, push_unescaped};
use std::alloc::Global;
use std::process::Abort;
use test_asserts::same;

// Data, and the packet with it: the checksum is the sum of the bytes modulo 256.
static FRAMES: [(&[u8], &[u8]); 4] = [
    (b"", b"$#00"),
    (b"OK", b"$OK#9a"),
    (b"g", b"$g#67"),
    (b"QStartNoAckMode", b"$QStartNoAckMode#b0"),
];

// Data with escapes, and what they mean.
static ESCAPED: [(&[u8], &[u8]); 4] = [
    (b"ab", b"ab"),
    (b"a}\x03b", b"a#b"),
    (b"}]}\x04", b"}$"),
    (b"a}", b"a"),
];

// A base, digits, and the number that they write.
static NUMBERS: [(u32, &[u8], Option<u32>); 9] = [
    (16, b"0", Some(0)),
    (16, b"1aF", Some(0x1af)),
    (16, b"ffffffff", Some(0xffff_ffff)),
    (16, b"100000000", None),
    (16, b"", None),
    (16, b"1g", None),
    (10, b"4294967295", Some(0xffff_ffff)),
    (10, b"4294967296", None),
    (10, b"1a", None),
];

// Bytes that are read, and what the last of them tells: a second `$` begins a new packet.
static STREAMS: [(&[u8], Heard); 8] = [
    (b"+", Heard::Nothing),
    (b"-", Heard::Again),
    (b"\x03", Heard::Interrupt),
    (b"$g#6", Heard::Nothing),
    (b"$g#67", Heard::Packet),
    (b"$g#68", Heard::Broken),
    (b"$OK#9A", Heard::Packet),
    (b"$OK$g#67", Heard::Packet),
];

#[test]
fn frames_by_hand(rt: HostRuntime) {
    for (number, (payload, wanted)) in FRAMES.as_slice().iter().enumerate() {
        let mut out = Vec::new(rt.alloc());
        push_frame(&mut out, payload).expect(&rt, "memory");
        same(number, out.as_slice() == *wanted, true).expect(&rt, "not the same");
    }
    let mut out = Vec::new(rt.alloc());
    push_console(&mut out, b"O").expect(&rt, "memory");
    same("the console", out.as_slice() == b"$O4f#e9".as_slice(), true).expect(&rt, "not the same");
}

#[test]
fn escapes_by_hand(rt: HostRuntime) {
    for (number, (payload, wanted)) in ESCAPED.as_slice().iter().enumerate() {
        let mut out = Vec::new(rt.alloc());
        push_unescaped(&mut out, payload).expect(&rt, "memory");
        same(number, out.as_slice() == *wanted, true).expect(&rt, "not the same");
    }
}

#[test]
fn numbers_by_hand(rt: HostRuntime) {
    for (number, (base, digits, wanted)) in NUMBERS.as_slice().iter().enumerate() {
        assert!(&rt; *base <= 16);
        same(number, number_in(*base, digits), *wanted).expect(&rt, "not the same");
    }
}

// Feeds bytes to a reader, and returns what the last of them tells.
fn last_heard(rt: &impl Abort, alloc: Global, bytes: &[u8]) -> Heard {
    let mut reader = Reader::new(alloc).expect(rt, "memory");
    let mut heard = Heard::Nothing;
    for byte in bytes {
        heard = reader.feed(*byte).expect(rt, "memory");
    }
    drop(reader);
    heard
}

#[test]
fn what_bytes_tell(rt: HostRuntime) {
    for (number, (bytes, wanted)) in STREAMS.as_slice().iter().enumerate() {
        let heard = last_heard(&rt, rt.alloc(), bytes);
        same(number, heard == *wanted, true).expect(&rt, "not the same");
    }
}
