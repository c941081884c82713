//! Campaign files that are refused, and not changed.

use super::files::{Kept, bytes_of, call_on, disk, image_of, put};
use super::{call_tells, call_writes};
use fail_cli::Status;
use keep_format::FormatFault::{BadRow, Conflict, Cut, NotACampaign, Version};
use result_keeper::KeepRefusal::{self, Format, OtherCase};
use std::process::Abort;
use std::sync::Wait;
use std::thread::Threads;
use test_asserts::same;
use test_programs::reports::{HALTS, LIMIT_70, LIMIT_71, Row, SENDS};

/// The length to which a file is cut, a place and the bytes to set there, and the refusal with its text.
type Fault = (usize, usize, &'static [u8], KeepRefusal, &'static str);

const CUT: &str = "campaign file refused: 3 Cut\n";

const NO_CAMPAIGN: &str = "campaign file refused: 1 NotACampaign\n";

const VERSION: &str = "campaign file refused: 2 Version\n";

const BAD_ROW_121: &str = "campaign file refused: 4 BadRow at 121\n";

const BAD_ROW_524: &str = "campaign file refused: 4 BadRow at 524\n";

const CONFLICT: &str = "campaign file refused: 5 Conflict at 121 and 524\n";

const OTHER_104: &str = "campaign file refused: 6 OtherCase at 104\n";

const OTHER_21: &str = "campaign file refused: 6 OtherCase at 21\n";

// Faults of the complete file of the program that sends a byte.
static COMPLETE: [Fault; 8] = [
    (1081, 0, &[], Format(Cut), CUT),
    (600, 0, &[], Format(Cut), CUT),
    (119, 0, &[], Format(Cut), CUT),
    (118, 0, &[], Format(Cut), CUT),
    (8, 0, &[], Format(Cut), CUT),
    (7, 0, &[], Format(NotACampaign), NO_CAMPAIGN),
    (1082, 8, &[2], Format(Version), VERSION),
    (1082, 130, &[8], Format(BadRow { at: 121 }), BAD_ROW_121),
];

// Faults of its file that was stopped: the row of a second batch has another outcome than an earlier row, or names
// no job.
static STOPPED: [Fault; 3] = [
    (521, 0, &[], Format(Cut), CUT),
    (
        522,
        521,
        &[0xa5, 1, 0, 2, 0, 0, 0, 1, 0, 0, 0, 0, 0, 0],
        Format(Conflict {
            first: 121,
            second: 524,
        }),
        CONFLICT,
    ),
    (
        522,
        521,
        &[0xa5, 1, 0, 3, 0, 0, 0, 2, 0, 0, 0, 0, 0, 0],
        Format(BadRow { at: 524 }),
        BAD_ROW_524,
    ),
];

// Faults of the complete file of the program that halts at once: a card that ends after the file, and a card that
// ends before that of the case.
static CARDS: [Fault; 2] = [
    (442, 9, &[255, 255, 255, 255], Format(Cut), CUT),
    (442, 9, &[104], OtherCase { at: 104 }, OTHER_104),
];

// Returns the file cut to a length, with the bytes set, also after its end.
fn edited<R: Threads + Wait + Sync + Abort + AllocGlobal>(
    rt: &R,
    kept: &[u8],
    len: usize,
    from: usize,
    bytes: &[u8],
) -> Vec<u8> {
    let mut file = Vec::new(rt.alloc());
    put(rt, &mut file, kept);
    file.truncate(len);
    let mut at = from;
    for byte in bytes {
        if at < file.len() {
            file[at] = *byte;
        } else {
            put(rt, &mut file, &[*byte]);
        }
        at = at.wrapping_add(1);
    }
    file
}

// Tests that both commands that open a file refuse it with this text, and do not change it.
fn refuses<R: Threads + Wait + Sync + Abort + AllocGlobal>(
    rt: &R,
    row: &Row<'static>,
    file: &[u8],
    refusal: KeepRefusal,
    text: &str,
) {
    let told = (Status::BadKeep(refusal), text);
    for command in ["run", "report"] {
        let mut disk = disk(rt, file, &[]);
        call_tells(rt, command, row, &[], &mut disk, told);
        same("the file", disk.bytes(), file).expect(rt, "not the same");
    }
}

// Tests that they refuse each of these faults of a file.
fn refuses_all<R: Threads + Wait + Sync + Abort + AllocGlobal>(
    rt: &R,
    row: &Row<'static>,
    kept: Kept,
    faults: &[Fault],
) {
    let kept = bytes_of(rt, kept);
    for (len, at, bytes, refusal, text) in faults {
        let file = edited(rt, &kept, *len, *at, bytes);
        refuses(rt, row, &file, *refusal, text);
    }
}

// An image instead of a campaign file is refused too.
#[test]
fn files_with_faults(rt: HostRuntime) {
    refuses_all(&rt, &SENDS, Kept::Sends, &COMPLETE);
    refuses_all(&rt, &SENDS, Kept::Stopped, &STOPPED);
    refuses_all(&rt, &HALTS, Kept::Halts, &CARDS);
    let image = image_of(&rt, &HALTS);
    refuses(&rt, &HALTS, &image, Format(NotACampaign), NO_CAMPAIGN);
}

// A file for limit 71 is refused for limit 70: the cards differ in a byte of the limit.
#[test]
fn a_file_of_another_limit(rt: HostRuntime) {
    let mut kept = disk(&rt, &[], &[]);
    call_writes(&rt, "run", &LIMIT_71, &[], &mut kept, LIMIT_71.report);
    let refusal = OtherCase { at: 21 };
    refuses(&rt, &LIMIT_70, kept.bytes(), refusal, OTHER_21);
}

// Returns the answer of a report over a complete file that is cut to a length.
fn answer(len: usize) -> (Status, &'static str, &'static str) {
    match len {
        0 => (
            Status::Stopped { kept: 0, jobs: 32 },
            "",
            "stopped: 0 of 32 jobs kept\n",
        ),
        1..8 => (Status::BadKeep(Format(NotACampaign)), "", NO_CAMPAIGN),
        8..442 => (Status::BadKeep(Format(Cut)), "", CUT),
        _ => (Status::Done, HALTS.report, ""),
    }
}

#[test]
fn each_length(rt: HostRuntime) {
    let kept = bytes_of(&rt, Kept::Halts);
    for len in 0..443 {
        let file = edited(&rt, &kept, len, 0, &[]);
        let mut disk = disk(&rt, &file, &[]);
        let ended = call_on(&rt, "report", &HALTS, &[], &mut disk);
        let (status, out, err) = answer(len);
        let wanted = (status, out.as_bytes(), err.as_bytes());
        same(len, ended.told(), wanted).expect(&rt, "not the same");
        same(len, disk.bytes(), file.as_slice()).expect(&rt, "not the same");
    }
}
