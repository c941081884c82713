//! `run` and `brute` must both give the counts of the reference.

use super::{MEMORY, program_of, writes};
use std::alloc::{AllocError, Global};
use test_devices::line;
use test_programs::{PROGRAMS, Program};

// Returns the words of `brute` with this limit.
const fn brute_line<'a>(limit: &'a str) -> [&'a str; 9] {
    [
        "fail_star",
        "brute",
        "image.elf",
        "--rom",
        "0x20000000:256",
        "--ram",
        "0x80000000:16",
        "--limit",
        limit,
    ]
}

// Returns the report of a program.
fn report(alloc: Global, one: &Program) -> Result<String, AllocError> {
    let instructions = one.instructions;
    let sites = instructions as u64 * 1120;
    let [
        no_effect,
        silent,
        detected,
        illegal,
        address,
        misaligned,
        timeout,
    ] = one.totals;
    let mut text = format!(in alloc;
        "instructions {instructions}\nsites {sites}\nno-effect {no_effect}\n"
    )?;
    text.push_str(format!(in alloc;
        "silent {silent}\ndetected {detected}\nillegal {illegal}\n"
    )?.as_str())?;
    text.push_str(format!(in alloc;
        "address {address}\nmisaligned {misaligned}\ntimeout {timeout}\n"
    )?.as_str())?;
    Ok(text)
}

#[test]
fn run_and_brute_agree(rt: HostRuntime) {
    for one in PROGRAMS.as_slice() {
        let report = report(rt.alloc(), one).expect(&rt, MEMORY);
        let limit = format!(in rt.alloc(); "{}", one.limit).expect(&rt, MEMORY);
        let run_words = line("0x20000000:256", "0x80000000:16", limit.as_str());
        let brute_words = brute_line(limit.as_str());
        for words in [&run_words[..], &brute_words[..]] {
            writes(&rt, words, program_of(&rt, one.words), report.as_str());
        }
    }
}
