//! Plans of short programs.

use super::{MEMORY, program_of, tells, writes};
use fail_cli::Status;
use golden_trace::GoldenFault;
use std::alloc::{AllocError, Global};
use test_asserts::same;
use test_devices::image_line;
use test_programs::{COUNTS_DOWN, HALTS, RUNS_ON, SENDS};

// A program and its plan.
static PLANS: [(&[u32], &str); 3] = [
    (
        &RUNS_ON,
        "instructions 3\nsites 3360\njobs 64\nlive 64\ndead 3296\n",
    ),
    (
        &SENDS,
        "instructions 4\nsites 4480\njobs 96\nlive 128\ndead 4352\n",
    ),
    (
        &COUNTS_DOWN,
        "instructions 7\nsites 7840\njobs 160\nlive 160\ndead 7680\n",
    ),
];

const COLUMNS: [&str; 8] = [
    "fail_star",
    "plan",
    "image.elf",
    "--format=csv",
    "--rom",
    "0x20000000:64",
    "--ram",
    "0x80000000:16",
];

// Returns the plan as columns: a line for each bit of the register with the port's address.
fn columns(alloc: Global) -> Result<String, AllocError> {
    let mut text = format!(in alloc; "cycle,cell,bit,weight\n")?;
    for bit in 0..32 {
        text.push_str(format!(in alloc; "1,1,{bit},1\n")?.as_str())?;
    }
    Ok(text)
}

// Plans as text and as columns, where each bit of the register with the port's address is a job of its own. A
// program that does not halt has no plan.
#[test]
fn plans(rt: HostRuntime) {
    for (words, plan) in PLANS {
        writes(
            &rt,
            &image_line("plan", "100"),
            program_of(&rt, words),
            plan,
        );
    }
    let text = columns(rt.alloc()).expect(&rt, MEMORY);
    writes(&rt, &COLUMNS, program_of(&rt, &HALTS), text.as_str());

    let status = Status::BadGolden(GoldenFault::GoldenLong(6));
    same("its number", status.number(), 4).expect(&rt, "not the same");
    let line = "golden run did not halt within 6 instructions\n";
    let image = program_of(&rt, &COUNTS_DOWN);
    tells(&rt, &image_line("plan", "6"), image, status, line);
}
