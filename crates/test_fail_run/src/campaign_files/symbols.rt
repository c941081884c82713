//! Counts by the functions and objects of an image.

use super::files::disk;
use super::{NO_WRITES, tells, writes};
use fail_cli::Status;
use fs_outside::MemDisk;
use std::process::Abort;
use std::sync::Wait;
use std::thread::Threads;
use test_asserts::same;
use test_devices::{Ended, NO_FAILS, call_over};
use test_programs::{LOADS, RAM, ROM, Segment, code, image};

const MEMORY: &str = "memory";

// A null symbol, `main` and `emit` as functions, `buf` as an object; and their names.
const MAIN_AND_EMIT: [u8; 48] = [
    0, 0, 0, 0, 0, 0, 0, 0, 0, 0, 0, 0, 0, 0, 0, 0, 1, 0, 0, 0, 0, 0, 0, 0x20, 12, 0, 0, 0, 2, 0,
    1, 0, 6, 0, 0, 0, 12, 0, 0, 0x20, 8, 0, 0, 0, 2, 0, 1, 0,
];

const BUF: [u8; 16] = [11, 0, 0, 0, 0, 0, 0, 0x80, 1, 0, 0, 0, 1, 0, 1, 0];

const NAMES: [u8; 15] = *b"\0main\0emit\0buf\0";

// The places of the symbols and of their names in the file, and of the section headers after them.
const SYMBOLS: u32 = 137;

const STRINGS: u32 = 201;

const SECTIONS: u32 = 216;

/// A fault in the sections of an image.
#[derive(Clone, Copy)]
enum Wrong {
    Nothing,
    /// The size of a section header.
    HeaderSize,
    /// The place of the name of `emit`.
    EmitsName,
}

fn put<R: Abort + AllocGlobal>(rt: &R, file: &mut Vec<u8>, words: &[u32]) {
    for word in words {
        file.extend_from_slice(&word.to_le_bytes())
            .expect(rt, MEMORY);
    }
}

fn set<R: Abort + AllocGlobal>(rt: &R, file: &mut Vec<u8>, at: usize, byte: u8) {
    assert!(rt; at < file.len());
    file[at] = byte;
}

// Returns the image of the program that loads a byte, with a section of symbols and a section of their names.
fn image_with_symbols<R: Abort + AllocGlobal>(rt: &R, wrong: Wrong) -> Vec<u8> {
    let text = code(rt.alloc(), &LOADS).expect(rt, MEMORY);
    let segments = [
        Segment {
            at: ROM,
            bytes: &text,
        },
        Segment {
            at: RAM,
            bytes: b"A",
        },
    ];
    let mut file = image(rt.alloc(), ROM, &segments).expect(rt, MEMORY);
    set(rt, &mut file, 32, SECTIONS as u8);
    set(rt, &mut file, 46, 40);
    set(rt, &mut file, 48, 3);
    file.extend_from_slice(&MAIN_AND_EMIT).expect(rt, MEMORY);
    file.extend_from_slice(&BUF).expect(rt, MEMORY);
    file.extend_from_slice(&NAMES).expect(rt, MEMORY);
    put(rt, &mut file, &[0; 10]);
    put(rt, &mut file, &[0, 2, 0, 0, SYMBOLS, 64, 2, 0, 4, 16]);
    put(rt, &mut file, &[0, 3, 0, 0, STRINGS, 15, 0, 0, 1, 0]);
    match wrong {
        Wrong::Nothing => {}
        Wrong::HeaderSize => set(rt, &mut file, 46, 39),
        Wrong::EmitsName => set(rt, &mut file, 169, 15),
    }
    file
}

fn call<R: Threads + Wait + Sync + Abort + AllocGlobal>(
    rt: &R,
    command: &str,
    wrong: Wrong,
    disk: &mut MemDisk,
) -> Ended {
    let words = [
        "fail_star",
        command,
        "image.elf",
        "campaign.keep",
        "--rom=0x20000000:64",
        "--ram=0x80000000:16",
        "--limit=100",
    ];
    let image = image_with_symbols(rt, wrong);
    call_over(rt, rt.alloc(), &words, image, &NO_FAILS, disk).expect(rt, MEMORY)
}

const LINES: &str =
    "function main 0 20 0 0 28 0 0\nfunction emit 48 17 1 0 60 2 0\nfunction (none) 0 0 0 0 0 0 0\n\
    function (dead) 5424 0 0 0 0 0 0\nobject buf 24 16 0 0 0 0 0\nobject (none) 600 0 0 0 0 0 0\n\
    object (registers) 4848 21 1 0 88 2 0\ninstructions 5\nsites 5600\nno-effect 5472\nsilent 37\n\
    detected 1\nillegal 0\naddress 88\nmisaligned 2\ntimeout 0\n";

// The file that `run` leaves is counted by symbols, and only read.
#[test]
fn functions_and_objects(rt: HostRuntime) {
    let mut made = disk(&rt, &[], &[]);
    let ran = call(&rt, "run", Wrong::Nothing, &mut made);
    same("run", ran.status, Status::Done).expect(&rt, "not the same");

    let mut kept = disk(&rt, made.bytes(), &[NO_WRITES]);
    writes(&rt, &call(&rt, "symbols", Wrong::Nothing, &mut kept), LINES);
    same("kept", (kept.listed(), kept.bytes()), (0, made.bytes())).expect(&rt, "not the same");
}

// Only `symbols` reads the sections. It does so before it opens the campaign file, and reports the first fault.
#[test]
fn faulty_sections(rt: HostRuntime) {
    let faults = [
        (Wrong::HeaderSize, 13, "image refused: 13 BadSections\n"),
        (Wrong::EmitsName, 14, "image refused: 14 BadName\n"),
    ];
    for (wrong, number, text) in faults {
        let mut none = disk(&rt, b"no campaign", &[]);
        let ended = call(&rt, "symbols", wrong, &mut none);
        tells(&rt, &ended, Status::BadImage(number), text);

        let mut made = disk(&rt, &[], &[]);
        let ran = call(&rt, "run", wrong, &mut made);
        same(text, ran.status, Status::Done).expect(&rt, "not the same");
    }
}

// A job without an outcome stops `symbols`, as it stops a report.
#[test]
fn a_part_of_a_campaign(rt: HostRuntime) {
    let mut none = disk(&rt, &[], &[]);
    let ended = call(&rt, "symbols", Wrong::Nothing, &mut none);
    let stopped = Status::Stopped { kept: 0, jobs: 136 };
    tells(&rt, &ended, stopped, "stopped: 0 of 136 jobs kept\n");
}
