//! Which lines of `fail_replay` are valid, and what they say.

use super::tests_of_command_line::words_of;
use command_line::{Command, LineRefusal, ReplayLine, View, read_replay};
use std::process::Abort;
use test_asserts::same;

// What a line says: the view, the last site and the number of sites, the limit, and whether the pc is a cell.
#[derive(Clone, Copy)]
struct Asked {
    view: View,
    last: (u32, u32, u8),
    sites: usize,
    limit: u32,
    pc: bool,
}

// The fields, to be compared.
type Fields = (View, (u32, u32, u8), usize, (u32, bool));

static TAKEN: [(&str, Asked); 7] = [
    (
        "fail_replay a 0 1 31",
        Asked {
            view: View::FromFlip,
            last: (0, 1, 31),
            sites: 1,
            limit: 1000000,
            pc: false,
        },
    ),
    (
        "x --whole a 3 32 0 4 33 7 --limit 5",
        Asked {
            view: View::Whole,
            last: (4, 33, 7),
            sites: 2,
            limit: 5,
            pc: false,
        },
    ),
    (
        "x --brief a 0x10 0 0x1f --pc",
        Asked {
            view: View::Brief,
            last: (16, 0, 31),
            sites: 1,
            limit: 1000000,
            pc: true,
        },
    ),
    // The greatest numbers, whether or not a case has such a site.
    (
        "run a 4294967295 0xffffffff 255 --pc --limit=0x10",
        Asked {
            view: View::FromFlip,
            last: (4294967295, 4294967295, 255),
            sites: 1,
            limit: 16,
            pc: true,
        },
    ),
    // The same site twice, and a program and an image with these names.
    (
        "--whole brief 1 1 1 1 1 1",
        Asked {
            view: View::FromFlip,
            last: (1, 1, 1),
            sites: 2,
            limit: 1000000,
            pc: false,
        },
    ),
    (
        "--brief --brief whole 9 8 7 --",
        Asked {
            view: View::Brief,
            last: (9, 8, 7),
            sites: 1,
            limit: 1000000,
            pc: false,
        },
    ),
    (
        "x 1 2 3 4 5 6 7 8 9 10",
        Asked {
            view: View::FromFlip,
            last: (8, 9, 10),
            sites: 3,
            limit: 1000000,
            pc: false,
        },
    ),
];

static REFUSED: [&str; 25] = [
    "",
    "x",
    "x a",
    "x --whole",
    "x --whole a",
    "x a 0",
    "x a 0 1",
    "x --brief a 0 1",
    "x a 0 1 31 2",
    "x a 0 1 31 2 3",
    "x a 0 1 b",
    "x a 0 b 1",
    "x a b 0 1",
    "x a 0 1 256",
    "x a 0 4294967296 1",
    "x a 4294967296 0 1",
    "x a 0 1 -1",
    "x a 0 1 1.0",
    "x --whole --brief a 0 1 1",
    "x a --whole 0 1 1",
    "x a 0 1 1 --whole",
    "x --whole --limit 5 a 0 1 1",
    "x a 0 1 1 --workers 2",
    "x a 0 1 1 --limit",
    "x a 0 1 1 --format csv",
];

fn fields_of(one: &Asked) -> Fields {
    (one.view, one.last, one.sites, (one.limit, one.pc))
}

// Returns what a line says, or `None` if it is refused.
fn said(rt: &impl Abort, read: &Result<ReplayLine<'_>, LineRefusal>) -> Option<Fields> {
    match read {
        Ok(asked) => {
            let last = asked.sites.last().expect(rt, "a line without a site");
            let site = (last.cycle, last.cell, last.bit);
            let case = (asked.case.limit, asked.case.pc_cell);
            Some((asked.view, site, asked.sites.len(), case))
        }
        Err(LineRefusal::Usage) => None,
        Err(LineRefusal::NoMemory) => panic!(rt; "memory"),
    }
}

// Tests what a line says.
fn says<R: Abort + AllocGlobal>(rt: &R, text: &str, wanted: Option<Fields>) {
    let words = words_of(rt, ' ', text);
    let read = read_replay(rt.alloc(), &words);
    same(text, said(rt, &read), wanted).expect(rt, "not the same");
}

#[test]
fn replay_lines(rt: HostRuntime) {
    for (text, wanted) in TAKEN.as_slice() {
        says(&rt, text, Some(fields_of(wanted)));
    }
    for text in REFUSED.as_slice() {
        says(&rt, text, None);
    }
}
