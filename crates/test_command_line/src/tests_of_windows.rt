//! Which lines of `fail_window` are valid, and what they say.

use super::tests_of_command_line::words_of;
use command_line::{Format, LineRefusal, Range, WindowLine, read_window};
use std::process::Abort;
use test_asserts::same;

// A range as its start and its end.
type Bounds = Option<(u64, u64)>;

// What a line says: the cycles, the addresses and the function; the workers, the page, the budget and whether the
// report is JSON; and the limit, and whether the pc is a cell.
type Fields<'a> = (
    (Bounds, Bounds, Option<&'a str>),
    (u32, u32, Option<u32>, bool),
    (u32, bool),
);

const USUAL: (u32, u32, Option<u32>, bool) = (4, 4096, None, false);

const CASE: (u32, bool) = (1000000, false);

static TAKEN: [(&str, Fields<'static>); 9] = [
    (
        "fail_window a b --cycles 0..1",
        ((Some((0, 1)), None, None), USUAL, CASE),
    ),
    (
        "x a b --code 0x20000000..0x20000100",
        ((None, Some((536870912, 536871168)), None), USUAL, CASE),
    ),
    (
        "x a b --function main",
        ((None, None, Some("main")), USUAL, CASE),
    ),
    (
        "x a b --function=main.part.0 --cycles=0x10..17 --code 0..4294967296",
        (
            (Some((16, 17)), Some((0, 4294967296)), Some("main.part.0")),
            USUAL,
            CASE,
        ),
    ),
    // A number of digits, and a name, that are not those of a number or a function of C.
    (
        "x a b --cycles 00..0X100000000 --function 12 --",
        ((Some((0, 4294967296)), None, Some("12")), USUAL, CASE),
    ),
    (
        "run run run --function run --format json --workers 64 --page 1 --stop-after 0",
        ((None, None, Some("run")), (64, 1, Some(0), true), CASE),
    ),
    (
        "--cycles a b --pc --limit 5 --cycles 4..5 --ram-code --format=text",
        ((Some((4, 5)), None, None), USUAL, (5, true)),
    ),
    (
        "x a b --rom 0x20000000:64 --ram 0x80000000:16 --limit 7 --code 1..3",
        ((None, Some((1, 3)), None), USUAL, (7, false)),
    ),
    ("x a b --function ", ((None, None, Some("")), USUAL, CASE)),
];

static REFUSED: [&str; 40] = [
    "",
    "x",
    "x a",
    "x a b",
    "x a b --limit 5",
    "x a --cycles 0..1",
    "x --cycles 0..1 a b",
    "x a b c --cycles 0..1",
    "x a -b --cycles 0..1",
    "x a b --cycles",
    "x a b --cycles 1..1",
    "x a b --cycles 2..1",
    "x a b --cycles 0..=1",
    "x a b --cycles 0...1",
    "x a b --cycles 0.1",
    "x a b --cycles 0:1",
    "x a b --cycles 0-1",
    "x a b --cycles ..1",
    "x a b --cycles 1..",
    "x a b --cycles ..",
    "x a b --cycles 1",
    "x a b --cycles -1..1",
    "x a b --cycles +0..1",
    "x a b --cycles 0..4294967297",
    "x a b --cycles 0..1 --cycles 0..1",
    "x a b --code 0..1 --code=0..1",
    "x a b --code main",
    "x a b --code 0x20000000:0x100",
    "x a b --code 4..0x4",
    "x a b --function",
    "x a b --function a --function a",
    "x a b --functions a",
    "x a b --cycle 0..1",
    "x a b --cycles 0..1 --shard 1/2",
    "x a b --cycles 0..1 --fresh",
    "x a b --cycles 0..1 --format csv",
    "x a b --cycles 0..1 --workers 0",
    "x a b --cycles 0..1 --page 65536",
    "x a b --cycles 0..1 --limit 0",
    "x run a b --cycles 0..1",
];

fn bounds_of(range: Option<Range>) -> Bounds {
    match range {
        Some(range) => Some((range.start, range.end)),
        None => None,
    }
}

// Returns what a line says, or `None` if it is refused.
fn said<'w>(rt: &impl Abort, read: &Result<WindowLine<'w>, LineRefusal>) -> Option<Fields<'w>> {
    match read {
        Ok(asked) => {
            let part = (
                bounds_of(asked.part.cycles),
                bounds_of(asked.part.code),
                asked.part.function,
            );
            let running = asked.running;
            let json = running.format == Format::Json;
            assert!(rt; asked.case.files.len() == 2);
            Some((
                part,
                (running.workers, running.page, running.stop_after, json),
                (asked.case.limit, asked.case.pc_cell),
            ))
        }
        Err(LineRefusal::Usage) => None,
        Err(LineRefusal::NoMemory) => panic!(rt; "memory"),
    }
}

// Tests what a line says.
fn says<R: Abort + AllocGlobal>(rt: &R, text: &str, wanted: Option<Fields<'_>>) {
    let words = words_of(rt, ' ', text);
    let read = read_window(rt.alloc(), &words);
    same(text, said(rt, &read), wanted).expect(rt, "not the same");
}

#[test]
fn window_lines(rt: HostRuntime) {
    for (text, wanted) in TAKEN.as_slice() {
        says(&rt, text, Some(*wanted));
    }
    for text in REFUSED.as_slice() {
        says(&rt, text, None);
    }
}
