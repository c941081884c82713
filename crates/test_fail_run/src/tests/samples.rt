//! Samples of short programs.

use super::refusals::USAGE;
use super::{gives, image_at, program_of, tells, with_flags, writes};
use fail_cli::Status;
use golden_trace::GoldenFault;
use test_devices::{Fails, image_line};
use test_programs::{COUNTS_DOWN, HALTS, RAM, ROM, SENDS};

/// A sample of a program, and its text.
struct Sample {
    /// The address of its words, the first of which is the entry.
    at: u32,
    words: &'static [u32],
    options: &'static [&'static str],
    text: &'static str,
}

// The indices are those of tests/definitions/draws.py, and the outcomes are worked out by hand.
static SAMPLES: [Sample; 6] = [
    // The words of seed 42 draw bytes of both words in RAM.
    Sample {
        at: RAM,
        words: &HALTS,
        options: &["--ram-code", "--live", "--seed", "42", "--count", "3"],
        text: "instructions 2\npopulation 128\nsamples 3\nno-effect 0\nsilent 0\ndetected 0\nillegal 1\naddress 1\nmisaligned 1\ntimeout 0\n",
    },
    // Three sites that no instruction reads.
    Sample {
        at: ROM,
        words: &SENDS,
        options: &["--seed", "42", "--count", "3"],
        text: "instructions 4\npopulation 4480\nsamples 3\nno-effect 3\nsilent 0\ndetected 0\nillegal 0\naddress 0\nmisaligned 0\ntimeout 0\n",
    },
    // Bits 20, 23 and again 23 of the port's address.
    Sample {
        at: ROM,
        words: &HALTS,
        options: &["--seed", "42", "--live", "--count", "3"],
        text: "instructions 2\npopulation 32\nsamples 3\nno-effect 0\nsilent 0\ndetected 0\nillegal 0\naddress 3\nmisaligned 0\ntimeout 0\n",
    },
    // The same sample, but not only of live sites: of 2240 sites, 32 are live.
    Sample {
        at: ROM,
        words: &HALTS,
        options: &[],
        text: "instructions 2\npopulation 2240\nsamples 1000\nno-effect 978\nsilent 0\ndetected 0\nillegal 0\naddress 22\nmisaligned 0\ntimeout 0\n",
    },
    // A thousand draws of 32 sites: each counts as often as it is drawn.
    Sample {
        at: ROM,
        words: &HALTS,
        options: &["--live"],
        text: "instructions 2\npopulation 32\nsamples 1000\nno-effect 0\nsilent 0\ndetected 0\nillegal 0\naddress 921\nmisaligned 79\ntimeout 0\n",
    },
    // The pc is a cell too: bit 12 of x9 is drawn, which no instruction reads.
    Sample {
        at: ROM,
        words: &HALTS,
        options: &["--pc", "--count=1", "--seed=42"],
        text: "instructions 2\npopulation 2304\nsamples 1\nno-effect 1\nsilent 0\ndetected 0\nillegal 0\naddress 0\nmisaligned 0\ntimeout 0\n",
    },
];

#[test]
fn samples(rt: HostRuntime) {
    for one in SAMPLES.as_slice() {
        let words = with_flags(&rt, &image_line("sample", "100"), one.options);
        writes(&rt, &words, image_at(&rt, one.at, one.words), one.text);
    }
}

const TRAPPED: Status = Status::BadGolden(GoldenFault::GoldenTrap(0));

const LONG: Status = Status::BadGolden(GoldenFault::GoldenLong(6));

// A golden run that does not halt, and a file that is not an image.
#[test]
fn refusals(rt: HostRuntime) {
    let line = "golden run did not halt within 6 instructions\n";
    let image = program_of(&rt, &COUNTS_DOWN);
    tells(&rt, &image_line("sample", "6"), image, LONG, line);
    let line = "golden run trapped at cycle 0\n";
    let words = with_flags(&rt, &image_line("sample", "100"), &["--live"]);
    tells(&rt, &words, image_at(&rt, RAM, &HALTS), TRAPPED, line);

    let mut cut = program_of(&rt, &HALTS);
    cut.truncate(10);
    let line = "image refused: 1 Short\n";
    let short = Status::BadImage(1);
    tells(&rt, &image_line("sample", "100"), cut, short, line);
}

// Bad numbers of draws, and options of other commands. The image would fail if it were read.
static NO_SAMPLES: [&[&str]; 8] = [
    &["--count", "0"],
    &["--count", "1000001"],
    &["--seed", "18446744073709551616"],
    &["--live=true"],
    &["--format", "text"],
    &["--workers", "4"],
    &["--page", "1"],
    &["--fresh"],
];

#[test]
fn words_that_are_no_sample(rt: HostRuntime) {
    let fails = Fails {
        reads: Some(1),
        writes: None,
    };
    let told = (Status::Usage, "", USAGE);
    for options in NO_SAMPLES {
        let words = with_flags(&rt, &image_line("sample", "100"), options);
        gives(&rt, &words, program_of(&rt, &HALTS), &fails, told);
    }
}

// The image fails in its first read, and the output in its third write.
#[test]
fn devices_that_fail(rt: HostRuntime) {
    let words = image_line("sample", "100");
    let fails = Fails {
        reads: Some(1),
        writes: None,
    };
    let told = (Status::ReadFault, "", "image could not be read\n");
    gives(&rt, &words, program_of(&rt, &HALTS), &fails, told);

    let fails = Fails {
        reads: None,
        writes: Some(3),
    };
    let line = "output could not be written\n";
    let told = (Status::WriteFault, "instructions ", line);
    gives(&rt, &words, program_of(&rt, &HALTS), &fails, told);
}
