//! Generated programs. Another implementation gives the same totals.

use super::{gives, program_of, writes};
use fail_cli::Status;
use test_devices::Fails;

/// The report with `lbu x2,5(x3)` between the bases and the halt.
const LOADS: &str =
    "instructions 4\nsites 4480\nno-effect 4300\nsilent 56\ndetected 0\nillegal 0\naddress 118\nmisaligned 6\ntimeout 0\n";

/// The report with `sb x2,3(x3)` between the bases and the halt.
const STORES: &str =
    "instructions 4\nsites 4480\nno-effect 4228\nsilent 128\ndetected 0\nillegal 0\naddress 118\nmisaligned 6\ntimeout 0\n";

/// Returns the words of a `demo` of one block.
const fn one_block<'a>(seed: &'a str) -> [&'a str; 6] {
    ["fail_star", "demo", "--seed", seed, "--blocks", "1"]
}

// The words of the first program.
const CODE: [u32; 4] = [0xf000_00b7, 0x8000_01b7, 0x0051_c103, 0x0020_a423];

// The words of a `brute` over the image of that program, which gives the same report.
const BRUTE: [&str; 9] = [
    "fail_star",
    "brute",
    "image.elf",
    "--rom",
    "0x20000000:8192",
    "--ram",
    "0x80000000:16",
    "--limit",
    "10000",
];

// The image would fail if it were read.
#[test]
fn one_block_of_two_seeds(rt: HostRuntime) {
    let fails = Fails {
        reads: Some(1),
        writes: None,
    };
    for (seed, report) in [("0", LOADS), ("18446744073709551615", STORES)] {
        let told = (Status::Done, report, "");
        gives(&rt, &one_block(seed), Vec::new(rt.alloc()), &fails, told);
    }
    writes(&rt, &BRUTE, program_of(&rt, &CODE), LOADS);
    writes(&rt, &one_block("0"), Vec::new(rt.alloc()), LOADS);
}
