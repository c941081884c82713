//! Which lines of `fail_answers` are valid, and what they say.

use super::tests_of_command_line::words_of;
use command_line::{AnswersLine, LineRefusal, read_answers};
use fs_model::Outcome;
use std::process::Abort;
use test_asserts::same;

// What a line says: the workers, the limit, whether the pc is a cell, and the outcomes.
type Fields<'a> = ((u32, u32, bool), &'a [Outcome]);

const SILENT: &[Outcome] = &[Outcome::Silent];

static TAKEN: [(&str, Fields<'static>); 8] = [
    ("fail_answers a b", ((4, 1000000, false), SILENT)),
    ("x a b --outcome silent", ((4, 1000000, false), SILENT)),
    (
        "x a b --outcome=timeout --workers 1 --pc",
        ((1, 1000000, true), &[Outcome::Timeout]),
    ),
    (
        "x a b --outcome silent,detected --workers=0x40",
        ((64, 1000000, false), &[Outcome::Silent, Outcome::Detected]),
    ),
    // The order of the words, and a word that is repeated.
    (
        "x a b --limit 5 --outcome detected,silent,detected",
        (
            (4, 5, false),
            &[Outcome::Detected, Outcome::Silent, Outcome::Detected],
        ),
    ),
    (
        "x a b --outcome no-effect,silent,detected,illegal,address,misaligned,timeout",
        ((4, 1000000, false), &Outcome::ALL),
    ),
    (
        "x a b --ram-code --rom 0x20000000:64 --ram 0x80000000:16 --",
        ((4, 1000000, false), SILENT),
    ),
    ("answers answers answers --limit=7", ((4, 7, false), SILENT)),
];

static REFUSED: [&str; 26] = [
    "",
    "x",
    "x a",
    "x a b c",
    "x -a b",
    "x a -b",
    "x --workers 1 a b",
    "x answers a b",
    "x a b --outcome",
    "x a b --outcome ",
    "x a b --outcome ,",
    "x a b --outcome silent,",
    "x a b --outcome ,silent",
    "x a b --outcome silent,,detected",
    "x a b --outcome Silent",
    "x a b --outcome no_effect",
    "x a b --outcome trap",
    "x a b --outcome all",
    "x a b --outcome silent --outcome detected",
    "x a b --outcomes silent",
    "x a b --workers 0",
    "x a b --workers 65",
    "x a b --page 7",
    "x a b --stop-after 1",
    "x a b --format json",
    "x a b --limit 0",
];

// Tests what a line says, or that it is refused.
fn says<R: Abort + AllocGlobal>(rt: &R, text: &str, wanted: Option<Fields<'_>>) {
    let words = words_of(rt, ' ', text);
    let read = read_answers(rt.alloc(), &words);
    let found = said(rt, &read);
    same(text, found, wanted).expect(rt, "not the same");
}

// Returns what a line says, or `None` if it is refused.
fn said<'l>(rt: &impl Abort, read: &'l Result<AnswersLine<'_>, LineRefusal>) -> Option<Fields<'l>> {
    match read {
        Ok(asked) => {
            assert!(rt; asked.case.files.len() == 2);
            let numbers = (asked.workers, asked.case.limit, asked.case.pc_cell);
            Some((numbers, asked.chosen.as_slice()))
        }
        Err(LineRefusal::Usage) => None,
        Err(LineRefusal::NoMemory) => panic!(rt; "memory"),
    }
}

#[test]
fn taken(rt: HostRuntime) {
    for (text, fields) in TAKEN.as_slice() {
        says(&rt, text, Some(*fields));
    }
}

#[test]
fn refused(rt: HostRuntime) {
    for text in REFUSED.as_slice() {
        says(&rt, text, None);
    }
}
