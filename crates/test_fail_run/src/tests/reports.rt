//! Reports of short programs. Another implementation gives the same totals.

use super::{code_of, image_of, program_of, writes};
use std::process::Abort;
use test_devices::{image_line, line};
use test_programs::reports::{
    DIVIDES, HALTS, LIMIT_7, LIMIT_70, LIMIT_71, RUNS_ON, Row, SENDS, STORES,
};
use test_programs::{LOADS, RAM, ROM, Segment};

// The words for a program in 64 bytes of ROM, with 16 of RAM.
const USUAL: [&str; 10] = [
    "fail_star",
    "run",
    "image.elf",
    "campaign.keep",
    "--rom",
    "0x20000000:64",
    "--ram",
    "0x80000000:16",
    "--limit",
    "100",
];

// Returns the words of a command that writes JSON.
const fn json_line<'a>(command: &'a str, limit: &'a str) -> [&'a str; 9] {
    [
        "fail_star",
        command,
        "image.elf",
        "--format",
        "json",
        "--rom=0x20000000:64",
        "--ram=0x80000000:16",
        "--limit",
        limit,
    ]
}

// Returns the words of a command that writes JSON and has a campaign file.
const fn keep_json_line<'a>(command: &'a str, limit: &'a str) -> [&'a str; 10] {
    [
        "fail_star",
        command,
        "image.elf",
        "campaign.keep",
        "--format",
        "json",
        "--rom=0x20000000:64",
        "--ram=0x80000000:16",
        "--limit",
        limit,
    ]
}

// A program with its limit, and its counts as a JSON object.
static OBJECTS: [(Row<'static>, &str); 2] = [
    (
        SENDS,
        "{\"address\":90,\"detected\":2,\"illegal\":0,\"instructions\":4,\"misaligned\":2,\"no_effect\":4376,\"silent\":10,\"sites\":4480,\"timeout\":0}\n",
    ),
    (
        LIMIT_70,
        "{\"address\":30,\"detected\":0,\"illegal\":0,\"instructions\":7,\"misaligned\":2,\"no_effect\":7698,\"silent\":0,\"sites\":7840,\"timeout\":110}\n",
    ),
];

#[test]
fn programs_of_rom(rt: HostRuntime) {
    let rows = [
        HALTS, RUNS_ON, SENDS, LIMIT_71, LIMIT_70, LIMIT_7, STORES, DIVIDES,
    ];
    for row in rows {
        let words = line("0x20000000:64", "0x80000000:16", row.limit);
        writes(&rt, &words, program_of(&rt, row.words), row.report);
        let words = image_line("brute", row.limit);
        writes(&rt, &words, program_of(&rt, row.words), row.report);
    }
    for (row, json) in OBJECTS {
        let words = keep_json_line("run", row.limit);
        writes(&rt, &words, program_of(&rt, row.words), json);
        let words = json_line("brute", row.limit);
        writes(&rt, &words, program_of(&rt, row.words), json);
    }
}

// Returns an image of two segments.
fn two_segments<R: Abort + AllocGlobal>(rt: &R, words: &[u32], at: u32, bytes: &[u8]) -> Vec<u8> {
    let program = code_of(rt, words);
    let first = Segment {
        at: ROM,
        bytes: &program,
    };
    image_of(rt, ROM, &[first, Segment { at, bytes }])
}

// The options in another order; a byte of RAM from the image; a second segment that puts `addi x2,x0,66` over the
// second instruction, where the byte that is sent changes no count; and a program header that is not loadable, and
// so may point past the end of the file.
#[test]
fn other_lines_and_images(rt: HostRuntime) {
    let words = [
        "fail_star",
        "run",
        "image.elf",
        "campaign.keep",
        "--limit=100",
        "--ram",
        "0x80000000:16",
        "--rom",
        "0x20000000:64",
    ];
    writes(&rt, &words, program_of(&rt, HALTS.words), HALTS.report);

    let byte = two_segments(&rt, &LOADS, RAM, b"A");
    let report =
        "instructions 5\nsites 5600\nno-effect 5472\nsilent 37\ndetected 1\nillegal 0\naddress 88\nmisaligned 2\ntimeout 0\n";
    writes(&rt, &USUAL, byte, report);

    let later = code_of(&rt, &[0x0420_0113]);
    let over = two_segments(&rt, SENDS.words, ROM + 4, &later);
    writes(&rt, &USUAL, over, SENDS.report);

    let again = code_of(&rt, HALTS.words);
    let mut other = two_segments(&rt, HALTS.words, ROM, &again);
    assert!(rt; other.len() == 132);
    other[84..92].copy_from_slice(&[3, 0, 0, 0x70, 255, 255, 255, 255]);
    writes(&rt, &USUAL, other, HALTS.report);
}
