//! Audits of campaign files, which only read them.

use super::files::{Kept, bytes_of, disk, set};
use super::{call_tells, only_reads};
use fail_cli::Status;
use keep_format::FormatFault::NotACampaign;
use result_keeper::KeepRefusal::Format;
use test_programs::reports::{HALTS, Row, SENDS};

/// The place of the first row's outcome.
const FIRST_OUTCOME: usize = 130;

// Whole files, parts of a file, and no file: all outcomes are right.
static RIGHT: [(Row<'static>, Kept, &str); 5] = [
    (SENDS, Kept::Sends, "kept 96 wrong 0\n"),
    (SENDS, Kept::Resumed, "kept 96 wrong 0\n"),
    (SENDS, Kept::Stopped, "kept 40 wrong 0\n"),
    (SENDS, Kept::Nothing, "kept 0 wrong 0\n"),
    (HALTS, Kept::Halts, "kept 32 wrong 0\n"),
];

#[test]
fn nothing_wrong(rt: HostRuntime) {
    for (row, kept, text) in RIGHT {
        only_reads(&rt, "audit", &row, &[], &bytes_of(&rt, kept), text);
    }
}

/// Offsets from the first row's outcome, and the outcomes to write there.
type Changes = &'static [(usize, u8)];

// A changed outcome is reported with the true one, in a whole file and in a part of one. Several lines are in the
// order of the jobs: bit 2 of register 1, which is detected, and bit 7 of register 2, which is sent.
static WRONG: [(Kept, Changes, &str); 3] = [
    (
        Kept::Sends,
        &[(0, 0)],
        "wrong 2 1 0 no-effect address\nkept 96 wrong 1\n",
    ),
    (
        Kept::Stopped,
        &[(0, 4)],
        "wrong 2 1 0 timeout address\nkept 40 wrong 1\n",
    ),
    (
        Kept::Sends,
        &[(390, 0), (20, 1)],
        "wrong 2 1 2 silent detected\nwrong 2 2 7 no-effect silent\nkept 96 wrong 2\n",
    ),
];

#[test]
fn wrong_outcomes(rt: HostRuntime) {
    for (kept, changes, text) in WRONG {
        let mut changed = bytes_of(&rt, kept);
        for (behind, outcome) in changes {
            set(
                &rt,
                &mut changed,
                FIRST_OUTCOME.wrapping_add(*behind),
                *outcome,
            );
        }
        only_reads(&rt, "audit", &SENDS, &[], &changed, text);
    }
}

// A file that is not a campaign file is refused, as by a report.
#[test]
fn another_file(rt: HostRuntime) {
    let mut disk = disk(&rt, b"no campaign", &[]);
    let told = (
        Status::BadKeep(Format(NotACampaign)),
        "campaign file refused: 1 NotACampaign\n",
    );
    call_tells(&rt, "audit", &SENDS, &[], &mut disk, told);
}
