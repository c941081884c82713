//! Traces of short programs.

use super::{MEMORY, code_of, gives, image_of, program_of, writes};
use fail_cli::Status;
use std::alloc::{AllocError, Global};
use test_asserts::same;
use test_devices::{Fails, NO_FAILS, call, image_line};
use test_programs::{COUNTS_DOWN, DETECTS, DIVIDES, HALTS, ROM, SENDS, Segment};

// A program, the limit, and the text: ends at the halt, at the limit, and at the port that detects.
static TRACES: [(&[u32], &str, &str); 3] = [
    (
        &HALTS,
        "100",
        "0 20000000 f00000b7\n1 20000004 0000a423\noutput -\nend halted 0\n",
    ),
    (
        &COUNTS_DOWN,
        "3",
        "0 20000000 00200113\n1 20000004 fff10113\n2 20000008 fe011ee3\noutput -\nend limit\n",
    ),
    (
        &DETECTS,
        "100",
        "0 20000000 f00000b7\n1 20000004 0000a223\noutput -\nend detected\n",
    ),
];

// Returns the trace of the program that divides.
fn divides(alloc: Global) -> Result<String, AllocError> {
    let mut text = String::new(alloc);
    for (cycle, word) in DIVIDES.iter().enumerate() {
        let pc = ROM.wrapping_add(4 * cycle as u32);
        text.push_str(format!(in alloc; "{cycle} {pc:08x} {word:08x}\n")?.as_str())?;
    }
    text.push_str("output ff0780\nend halted 0\n")?;
    Ok(text)
}

#[test]
fn short_programs(rt: HostRuntime) {
    for (words, limit, text) in TRACES {
        writes(
            &rt,
            &image_line("trace", limit),
            program_of(&rt, words),
            text,
        );
    }
    // Its output is shown in digits.
    let text = divides(rt.alloc()).expect(&rt, MEMORY);
    let image = program_of(&rt, &DIVIDES);
    writes(&rt, &image_line("trace", "100"), image, text.as_str());
}

// Nothing can be fetched at the entry; and a second segment lies over the instruction that loads the byte to be
// sent.
#[test]
fn other_images(rt: HostRuntime) {
    let halts = code_of(&rt, &HALTS);
    let program = Segment {
        at: ROM,
        bytes: &halts,
    };
    let text = "0 00000000 --------\noutput -\nend trapped\n";
    let entry_0 = image_of(&rt, 0, &[program]);
    writes(&rt, &image_line("trace", "100"), entry_0, text);

    let sends = code_of(&rt, &SENDS);
    let later = code_of(&rt, &[0x0420_0113]);
    let first = Segment {
        at: ROM,
        bytes: &sends,
    };
    let second = Segment {
        at: ROM + 4,
        bytes: &later,
    };
    let text =
        "0 20000000 f00000b7\n1 20000004 04200113\n2 20000008 00208023\n3 2000000c 0000a423\noutput 42\nend halted 0\n";
    let file = image_of(&rt, ROM, &[first, second]);
    writes(&rt, &image_line("trace", "100"), file, text);
}

// An output that fails at its first write, and a format of other commands.
#[test]
fn no_trace(rt: HostRuntime) {
    let fails = Fails {
        reads: None,
        writes: Some(1),
    };
    let line = "output could not be written\n";
    let image = program_of(&rt, &HALTS);
    let told = (Status::WriteFault, "", line);
    gives(&rt, &image_line("trace", "100"), image, &fails, told);
    let words = ["fail_star", "trace", "image.elf", "--format", "text"];
    let ended = call(&rt, rt.alloc(), &words, program_of(&rt, &HALTS), &NO_FAILS).expect(
        &rt, MEMORY,
    );
    same("no trace", ended.status, Status::Usage).expect(&rt, "not the same");
}
