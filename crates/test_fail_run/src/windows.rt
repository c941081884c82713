//! Whole calls of `window_run`.
//!
//! The counts of each window are worked out by hand. They add up to the counts of the whole program, which another
//! implementation gives.

use fail_cli::Status;
use fs_outside::{MemDisk, MemSink, MemSource};
use std::process::Abort;
use std::sync::Wait;
use std::thread::Threads;
use test_asserts::same;
use test_devices::{CallGate, NO_FAILS, call_over};
use test_programs::program;
use test_programs::reports::SENDS;
use window_run::{NoPart, WindowStatus, window_run};

const MEMORY: &str = "memory";

const DONE: WindowStatus = WindowStatus::Ended(Status::Done);

fn disk_of<R: Abort + AllocGlobal>(rt: &R, bytes: &[u8]) -> MemDisk {
    let bytes = bytes.to_vec(rt.alloc()).expect(rt, MEMORY);
    MemDisk::new(rt.alloc(), bytes, Vec::new(rt.alloc())).expect(rt, MEMORY)
}

/// The answer of a call, and what its outputs took.
#[derive(Drop)]
struct Ended {
    status: WindowStatus,
    out: MemSink,
    err: MemSink,
}

// Runs the jobs of a part of the program that sends a byte.
fn window<R: Threads + Wait + Sync + Abort + AllocGlobal>(
    rt: &R,
    more: &[&str],
    disk: &mut MemDisk,
) -> Ended {
    let mut words = Vec::new(rt.alloc());
    for word in [
        "fail_window",
        "image.elf",
        "campaign.keep",
        "--rom=0x20000000:64",
        "--ram=0x80000000:16",
        "--limit=100",
    ] {
        let word = String::from_str(rt.alloc(), word).expect(rt, MEMORY);
        words.push(word).expect(rt, MEMORY);
    }
    for word in more {
        let word = String::from_str(rt.alloc(), word).expect(rt, MEMORY);
        words.push(word).expect(rt, MEMORY);
    }
    let bytes = program(rt.alloc(), SENDS.words).expect(rt, MEMORY);
    let mut image = MemSource::new(bytes, Vec::new(rt.alloc()));
    let mut out = MemSink::new(rt.alloc(), Vec::new(rt.alloc()));
    let mut err = MemSink::new(rt.alloc(), Vec::new(rt.alloc()));
    let status = window_run(
        rt,
        rt.alloc(),
        &words,
        &mut image,
        disk,
        &mut out,
        &mut err,
        &CallGate::Free,
    );
    Ended { status, out, err }
}

// Checks the status of a call, and what its outputs took.
fn ends<R: Threads + Wait + Sync + Abort + AllocGlobal>(
    rt: &R,
    more: &[&str],
    disk: &mut MemDisk,
    status: WindowStatus,
    out: &str,
    err: &str,
) {
    let ended = window(rt, more, disk);
    same("status", ended.status, status).expect(rt, "not the same");
    same("out", ended.out.bytes(), out.as_bytes()).expect(rt, "not the same");
    same("err", ended.err.bytes(), err.as_bytes()).expect(rt, "not the same");
}

// The byte is sent at cycle 2, from register 2 to the address in register 1, which was set at cycle 0 and is also
// read at cycle 3. So the flips of register 1 at the cycles 1 and 2 belong to the same jobs, of which each window of
// one cycle counts one site.
const BEFORE_THE_BYTE: &str =
    "instructions 4\nwindow 1\nsites 1120\nno-effect 1088\nsilent 1\ndetected 1\nillegal 0\naddress 30\nmisaligned 0\ntimeout 0\n";

const AT_THE_BYTE: &str =
    "instructions 4\nwindow 1\nsites 1120\nno-effect 1080\nsilent 9\ndetected 1\nillegal 0\naddress 30\nmisaligned 0\ntimeout 0\n";

// Each cycle, by its number and by its address.
#[test]
fn windows_of_one_cycle(rt: HostRuntime) {
    let nothing =
        "instructions 4\nwindow 1\nsites 1120\nno-effect 1120\nsilent 0\ndetected 0\nillegal 0\naddress 0\nmisaligned 0\ntimeout 0\n";
    let at_the_end =
        "instructions 4\nwindow 1\nsites 1120\nno-effect 1088\nsilent 0\ndetected 0\nillegal 0\naddress 30\nmisaligned 2\ntimeout 0\n";
    for (cycles, code, report) in [
        ("--cycles=0..1", "--code=0x20000000..0x20000004", nothing),
        (
            "--cycles=1..2",
            "--code=0x20000004..0x20000008",
            BEFORE_THE_BYTE,
        ),
        (
            "--cycles=2..3",
            "--code=0x20000008..0x2000000C",
            AT_THE_BYTE,
        ),
        ("--cycles=3..4", "--code=0x2000000C..0x20000010", at_the_end),
    ] {
        for more in [
            [cycles, "--workers=1"],
            [code, "--workers=3"],
            [cycles, code],
        ] {
            let mut disk = disk_of(&rt, b"");
            ends(&rt, &more, &mut disk, DONE, report, "");
        }
    }
}

// After a stop the rest of the part is run, and later the rest of the program.
#[test]
fn a_part_and_then_the_rest(rt: HostRuntime) {
    let mut disk = disk_of(&rt, b"");
    let stopped = WindowStatus::Ended(Status::Stopped { kept: 10, jobs: 96 });
    let part = ["--cycles=2..3", "--stop-after=10"];
    ends(
        &rt,
        &part,
        &mut disk,
        stopped,
        "",
        "stopped: 10 of 96 jobs kept\n",
    );
    ends(&rt, &["--cycles=2..3"], &mut disk, DONE, AT_THE_BYTE, "");
    let words = [
        "fail_star",
        "run",
        "image.elf",
        "campaign.keep",
        "--rom=0x20000000:64",
        "--ram=0x80000000:16",
        "--limit=100",
    ];
    let image = program(rt.alloc(), SENDS.words).expect(&rt, MEMORY);
    let ended = call_over(&rt, rt.alloc(), &words, image, &NO_FAILS, &mut disk).expect(&rt, MEMORY);
    same("report", ended.out.bytes(), SENDS.report.as_bytes()).expect(&rt, "not the same");
}

// Parts without an instruction, and words that are no line: the file stays empty.
#[test]
fn parts_that_are_refused(rt: HostRuntime) {
    let beyond = "no instruction in the part: the golden run has 4 instructions\n";
    let elsewhere = "no instruction in the part: none that fulfils its conditions is executed\n";
    let without = "no instruction in the part: the image has no functions\n";
    for (word, why, err) in [
        ("--cycles=4..9", NoPart::BeyondRun(4), beyond),
        (
            "--code=0x20000010..0x20000020",
            NoPart::NotExecuted,
            elsewhere,
        ),
        ("--function=main", NoPart::NoFunctions, without),
    ] {
        let mut disk = disk_of(&rt, b"");
        let status = WindowStatus::Empty(why);
        same("number", status.number(), 10).expect(&rt, "not the same");
        ends(&rt, &[word], &mut disk, status, "", err);
        same("file", disk.bytes(), b"".as_slice()).expect(&rt, "not the same");
    }
    let usage =
        "usage: fail_window IMAGE KEEP (--cycles A..B | --code LOW..HIGH | --function NAME) [options]\n";
    let mut disk = disk_of(&rt, b"");
    let status = WindowStatus::Ended(Status::Usage);
    for word in ["--cycles=2..2", "--page=5"] {
        ends(&rt, &[word], &mut disk, status, "", usage);
    }
    same("file", disk.bytes(), b"".as_slice()).expect(&rt, "not the same");
}
