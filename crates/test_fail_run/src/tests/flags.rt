//! Programs whose pc is a cell, and programs that run from RAM.

use super::{image_at, tells, with_flags, writes};
use fail_cli::Status;
use golden_trace::GoldenFault;
use test_devices::{image_line, line};
use test_programs::{
    COUNTS_DOWN, FENCES, HALTS, RAM, ROM, SENDS, STORES, STORES_OVER_ITSELF, STORES_OVER_THE_NEXT,
};

/// A program with its flags, and the texts for it.
struct Flagged {
    /// The address of its words, the first of which is the entry.
    at: u32,
    words: &'static [u32],
    flags: &'static [&'static str],
    limit: &'static str,
    /// The report of `run` and of `brute`.
    report: &'static str,
    plan: &'static str,
}

// The reference in tests/ gives the same texts.
static FLAGGED: [Flagged; 14] = [
    // The cells are x1 and the pc: bit 2 of the pc at cycle 1 runs the first word again, without effect.
    Flagged {
        at: ROM,
        words: &HALTS,
        flags: &["--pc"],
        limit: "100",
        report: "instructions 2\nsites 2304\nno-effect 2209\nsilent 0\ndetected 0\nillegal 6\naddress 83\nmisaligned 6\ntimeout 0\n",
        plan: "instructions 2\nsites 2304\njobs 96\nlive 96\ndead 2208\n",
    },
    // Code in RAM: the cells are x1 and the bytes of both words.
    Flagged {
        at: RAM,
        words: &HALTS,
        flags: &["--ram-code"],
        limit: "100",
        report: "instructions 2\nsites 2240\nno-effect 2122\nsilent 2\ndetected 0\nillegal 24\naddress 86\nmisaligned 6\ntimeout 0\n",
        plan: "instructions 2\nsites 2240\njobs 96\nlive 128\ndead 2112\n",
    },
    // Code in RAM of 16 bytes: the cells are x1, the bytes of both words, and the pc.
    Flagged {
        at: RAM,
        words: &HALTS,
        flags: &["--pc", "--ram-code"],
        limit: "100",
        report: "instructions 2\nsites 2304\nno-effect 2123\nsilent 2\ndetected 0\nillegal 26\naddress 143\nmisaligned 10\ntimeout 0\n",
        plan: "instructions 2\nsites 2304\njobs 160\nlive 192\ndead 2112\n",
    },
    // Code in ROM: the flag for code in RAM changes nothing.
    Flagged {
        at: ROM,
        words: &HALTS,
        flags: &["--ram-code"],
        limit: "100",
        report: "instructions 2\nsites 2240\nno-effect 2208\nsilent 0\ndetected 0\nillegal 0\naddress 30\nmisaligned 2\ntimeout 0\n",
        plan: "instructions 2\nsites 2240\njobs 32\nlive 32\ndead 2208\n",
    },
    Flagged {
        at: ROM,
        words: &SENDS,
        flags: &["--pc"],
        limit: "100",
        report: "instructions 4\nsites 4608\nno-effect 4378\nsilent 14\ndetected 2\nillegal 8\naddress 196\nmisaligned 10\ntimeout 0\n",
        plan: "instructions 4\nsites 4608\njobs 224\nlive 256\ndead 4352\n",
    },
    Flagged {
        at: ROM,
        words: &COUNTS_DOWN,
        flags: &["--pc"],
        limit: "71",
        report: "instructions 7\nsites 8064\nno-effect 7713\nsilent 0\ndetected 0\nillegal 14\naddress 213\nmisaligned 16\ntimeout 108\n",
        plan: "instructions 7\nsites 8064\njobs 384\nlive 384\ndead 7680\n",
    },
    Flagged {
        at: ROM,
        words: &STORES,
        flags: &["--pc", "--ram-code"],
        limit: "100",
        report: "instructions 8\nsites 9216\nno-effect 8605\nsilent 189\ndetected 1\nillegal 8\naddress 387\nmisaligned 26\ntimeout 0\n",
        plan: "instructions 8\nsites 9216\njobs 544\nlive 632\ndead 8584\n",
    },
    // An instruction that does nothing reads the pc and its own word.
    Flagged {
        at: ROM,
        words: &FENCES,
        flags: &["--pc"],
        limit: "100",
        report: "instructions 3\nsites 3456\nno-effect 3331\nsilent 0\ndetected 0\nillegal 8\naddress 109\nmisaligned 8\ntimeout 0\n",
        plan: "instructions 3\nsites 3456\njobs 128\nlive 128\ndead 3328\n",
    },
    Flagged {
        at: RAM,
        words: &FENCES,
        flags: &["--ram-code"],
        limit: "100",
        report: "instructions 3\nsites 3360\nno-effect 3173\nsilent 3\ndetected 0\nillegal 49\naddress 127\nmisaligned 8\ntimeout 0\n",
        plan: "instructions 3\nsites 3360\njobs 128\nlive 224\ndead 3136\n",
    },
    Flagged {
        at: RAM,
        words: &FENCES,
        flags: &["--pc", "--ram-code"],
        limit: "100",
        report: "instructions 3\nsites 3456\nno-effect 3176\nsilent 3\ndetected 0\nillegal 51\naddress 212\nmisaligned 14\ntimeout 0\n",
        plan: "instructions 3\nsites 3456\njobs 224\nlive 320\ndead 3136\n",
    },
    // A store over its own word reads that word first. A store over the next word changes the next instruction.
    Flagged {
        at: RAM,
        words: &STORES_OVER_ITSELF,
        flags: &["--ram-code"],
        limit: "100",
        report: "instructions 4\nsites 4480\nno-effect 4077\nsilent 4\ndetected 3\nillegal 65\naddress 306\nmisaligned 25\ntimeout 0\n",
        plan: "instructions 4\nsites 4480\njobs 224\nlive 448\ndead 4032\n",
    },
    Flagged {
        at: RAM,
        words: &STORES_OVER_ITSELF,
        flags: &["--pc", "--ram-code"],
        limit: "100",
        report: "instructions 4\nsites 4608\nno-effect 4081\nsilent 4\ndetected 3\nillegal 67\naddress 420\nmisaligned 33\ntimeout 0\n",
        plan: "instructions 4\nsites 4608\njobs 352\nlive 576\ndead 4032\n",
    },
    Flagged {
        at: RAM,
        words: &STORES_OVER_THE_NEXT,
        flags: &["--ram-code"],
        limit: "100",
        report: "instructions 4\nsites 4480\nno-effect 4088\nsilent 4\ndetected 0\nillegal 59\naddress 309\nmisaligned 20\ntimeout 0\n",
        plan: "instructions 4\nsites 4480\njobs 192\nlive 424\ndead 4056\n",
    },
    Flagged {
        at: RAM,
        words: &STORES_OVER_THE_NEXT,
        flags: &["--pc", "--ram-code"],
        limit: "100",
        report: "instructions 4\nsites 4608\nno-effect 4092\nsilent 4\ndetected 0\nillegal 59\naddress 425\nmisaligned 28\ntimeout 0\n",
        plan: "instructions 4\nsites 4608\njobs 320\nlive 552\ndead 4056\n",
    },
];

#[test]
fn run_brute_and_plan(rt: HostRuntime) {
    for one in FLAGGED.as_slice() {
        let run = line("0x20000000:64", "0x80000000:16", one.limit);
        let brute = image_line("brute", one.limit);
        let plan = image_line("plan", one.limit);
        for (usual, text) in [
            (run.as_slice(), one.report),
            (brute.as_slice(), one.report),
            (plan.as_slice(), one.plan),
        ] {
            let words = with_flags(&rt, usual, one.flags);
            writes(&rt, &words, image_at(&rt, one.at, one.words), text);
        }
    }
}

// Traces of programs in RAM. For the program that stores over its next word, the trace shows the word that is
// fetched.
static TRACES: [(&[u32], &str); 2] = [
    (
        &HALTS,
        "0 80000000 f00000b7\n1 80000004 0000a423\noutput -\nend halted 0\n",
    ),
    (
        &STORES_OVER_THE_NEXT,
        "0 80000000 f00000b7\n1 80000004 00000197\n2 80000008 000185a3\n3 8000000c 0000a423\noutput -\nend halted 0\n",
    ),
];

#[test]
fn traces(rt: HostRuntime) {
    for (words, text) in TRACES {
        let line = with_flags(&rt, &image_line("trace", "100"), &["--ram-code"]);
        writes(&rt, &line, image_at(&rt, RAM, words), text);
    }
}

// Without the flag nothing can be fetched from RAM, whatever the other flag says.
#[test]
fn code_in_ram_without_the_flag(rt: HostRuntime) {
    let text = "0 80000000 --------\noutput -\nend trapped\n";
    let image = image_at(&rt, RAM, &HALTS);
    writes(&rt, &image_line("trace", "100"), image, text);
    let status = Status::BadGolden(GoldenFault::GoldenTrap(0));
    let text = "golden run trapped at cycle 0\n";
    for flags in [[].as_slice(), &["--pc"]] {
        let brute = with_flags(&rt, &image_line("brute", "100"), flags);
        tells(&rt, &brute, image_at(&rt, RAM, &HALTS), status, text);
        let run = with_flags(&rt, &line("0x20000000:64", "0x80000000:16", "100"), flags);
        tells(&rt, &run, image_at(&rt, RAM, &HALTS), status, text);
    }
}
