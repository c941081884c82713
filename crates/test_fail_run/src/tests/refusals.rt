//! Answers without a report, and the line on the error output for each.

use super::{MEMORY, code_of, gives, image_of, program_of, tells};
use fail_cli::Status;
use golden_trace::GoldenFault;
use test_devices::{Fails, line};
use test_programs::{COUNTS_DOWN, DETECTS, HALTS, ROM, Segment};

pub const USAGE: &str = "usage: fail_star run IMAGE KEEP [options]
usage: fail_star brute IMAGE [options]
usage: fail_star trace IMAGE [options]
usage: fail_star plan IMAGE [options]
usage: fail_star report IMAGE KEEP [options]
usage: fail_star audit IMAGE KEEP [options]
usage: fail_star sample IMAGE [options]
usage: fail_star merge IMAGE KEEP OTHER [options]
usage: fail_star symbols IMAGE KEEP [options]
usage: fail_star demo [--seed S] [--blocks K]
";

// The words for a program in 64 bytes of ROM, with 16 of RAM.
const USUAL: [&str; 10] = [
    "fail_star",
    "run",
    "image.elf",
    "campaign.keep",
    "--rom",
    "0x20000000:64",
    "--ram",
    "0x80000000:16",
    "--limit",
    "100",
];

// Maps and limits that are refused.
static NO_SETTINGS: [(&str, &str, &str); 5] = [
    ("0x20000002:64", "0x80000000:16", "100"),
    ("0x20000000:64", "0x80000000:0", "100"),
    ("0xfffffffc:8", "0x80000000:16", "100"),
    ("0x20000000:64", "0xf0000ff0:32", "100"),
    ("0x20000000:64", "0x80000000:16", "0"),
];

// Options in place of the limit, with bad values.
static NO_OPTIONS: [(&str, &str); 3] = [
    ("--workers", "65"),
    ("--page", "65536"),
    ("--format", "xml"),
];

// The image would fail if it were read.
#[test]
fn words_that_are_no_line(rt: HostRuntime) {
    let fails = Fails {
        reads: Some(1),
        writes: None,
    };
    let told = (Status::Usage, "", USAGE);
    let short = ["fail_star", "run", "row1.elf"];
    gives(&rt, &short, program_of(&rt, &HALTS), &fails, told);
    for (rom, ram, limit) in NO_SETTINGS {
        let words = line(rom, ram, limit);
        gives(&rt, &words, program_of(&rt, &HALTS), &fails, told);
    }
    for (option, value) in NO_OPTIONS {
        let mut words = USUAL;
        words[8] = option;
        words[9] = value;
        gives(&rt, &words, program_of(&rt, &HALTS), &fails, told);
    }
}

const READ_FAULT: (Status, &str, &str) = (Status::ReadFault, "", "image could not be read\n");

const WRITE_LINE: &str = "output could not be written\n";

// The read or the write that fails, and the answer. The first read takes the whole image, and the second one finds
// its end.
static FAILS: [(Option<u64>, Option<u64>, (Status, &str, &str)); 4] = [
    (Some(1), None, READ_FAULT),
    (Some(2), None, READ_FAULT),
    (None, Some(1), (Status::WriteFault, "", WRITE_LINE)),
    (
        None,
        Some(3),
        (Status::WriteFault, "instructions ", WRITE_LINE),
    ),
];

#[test]
fn devices_that_fail(rt: HostRuntime) {
    for (reads, writes, told) in FAILS {
        let fails = Fails { reads, writes };
        gives(&rt, &USUAL, program_of(&rt, &HALTS), &fails, told);
    }
}

/// Bytes of the image to replace, and the refusal.
type Bad = (usize, &'static [u8], u8, &'static str);

const SHORT: &str = "image refused: 1 Short\n";

const BAD_HEADERS: &str = "image refused: 8 BadHeaders\n";

const PAST_FILE: &str = "image refused: 10 SegmentPastFile\n";

const OUTSIDE: &str = "image refused: 11 SegmentOutsideMap\n";

static BAD: [Bad; 13] = [
    (0, &[0x7e], 2, "image refused: 2 NotElf\n"),
    (4, &[2], 3, "image refused: 3 NotClass32\n"),
    (5, &[2], 4, "image refused: 4 NotLittle\n"),
    (6, &[0], 5, "image refused: 5 Version\n"),
    (16, &[3], 6, "image refused: 6 NotExec\n"),
    (18, &[62], 7, "image refused: 7 NotRiscv\n"),
    (44, &[255, 255], 8, BAD_HEADERS),
    (28, &[255, 255, 255, 255], 8, BAD_HEADERS),
    (68, &[9], 9, "image refused: 9 FilePastMemory\n"),
    (56, &[85], 10, PAST_FILE),
    (56, &[255, 255, 255, 255], 10, PAST_FILE),
    (64, &[0x39], 11, OUTSIDE),
    (64, &[0xfc, 255, 255, 255], 11, OUTSIDE),
];

// The file header has 52 bytes, its table ends at 84, and the segment at 92.
fn refusal_of_cut(len: usize) -> (u8, &'static str) {
    match len {
        0..52 => (1, SHORT),
        52..84 => (8, BAD_HEADERS),
        _ => (10, PAST_FILE),
    }
}

// Images with other bytes, images cut to each length, and an image that is too long.
#[test]
fn images_that_are_refused(rt: HostRuntime) {
    for (at, changed, number, text) in BAD {
        let mut bytes = program_of(&rt, &HALTS);
        assert!(rt; bytes.len() == 92);
        assert!(rt; at <= 80);
        assert!(rt; changed.len() <= 12);
        bytes[at..at + changed.len()].copy_from_slice(changed);
        tells(&rt, &USUAL, bytes, Status::BadImage(number), text);
    }
    for len in 0..92 {
        let mut bytes = program_of(&rt, &HALTS);
        bytes.truncate(len);
        let (number, text) = refusal_of_cut(len);
        tells(&rt, &USUAL, bytes, Status::BadImage(number), text);
    }
    let bytes = vec![in rt.alloc(); 0; 16_777_217].expect(&rt, MEMORY);
    let text = "image refused: 12 TooLong\n";
    tells(&rt, &USUAL, bytes, Status::BadImage(12), text);
}

const TRAPPED: Status = Status::BadGolden(GoldenFault::GoldenTrap(0));

const DETECTED: Status = Status::BadGolden(GoldenFault::GoldenDetected(1));

const LONG: Status = Status::BadGolden(GoldenFault::GoldenLong(6));

// No instruction at the entry; an entry in a segment without bytes, which is nowhere, whatever its address; a
// store to the detect port; and more instructions than the limit.
#[test]
fn golden_runs_that_do_not_halt(rt: HostRuntime) {
    let trapped = "golden run trapped at cycle 0\n";
    let bytes = code_of(&rt, &HALTS);
    let segment = Segment {
        at: ROM,
        bytes: &bytes,
    };
    tells(&rt, &USUAL, image_of(&rt, 0, &[segment]), TRAPPED, trapped);
    let mut empty = program_of(&rt, &HALTS);
    assert!(rt; empty.len() == 92);
    empty[64..76].copy_from_slice(&[0; 12]);
    tells(&rt, &USUAL, empty, TRAPPED, trapped);

    let text = "golden run detected at cycle 1\n";
    tells(&rt, &USUAL, program_of(&rt, &DETECTS), DETECTED, text);
    let words = line("0x20000000:64", "0x80000000:16", "6");
    let text = "golden run did not halt within 6 instructions\n";
    tells(&rt, &words, program_of(&rt, &COUNTS_DOWN), LONG, text);
}
