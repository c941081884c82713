//! Which lines are valid, and what they say.

use super::lines::{
    CAMPAIGNS, COMMANDS, DEMOS, EXPORTS, FLAGGED, MERGES, SAME, SAMPLES, SHARDS, TAKEN,
};
use super::refused::{REFUSED, REFUSED_EXPORTS, REFUSED_OPTIONS, REFUSED_SPACES};
use command_line::{
    CaseLine, Command, Format, LineRefusal, Request, number_in, read_export, read_line, read_region,
};
use std::process::Abort;
use test_asserts::same;

// What a line says, and the number of files that it names.
#[derive(Clone, Copy)]
struct Meaning {
    command: Command,
    format: Format,
    files: usize,
    rom: (u32, u32),
    ram: (u32, u32),
    limit: u32,
    workers: u32,
    page: u32,
    stop_after: Option<u32>,
    shard: Option<(u32, u32)>,
    fresh: bool,
    pc_cell: bool,
    ram_code: bool,
    seed: u64,
    blocks: u32,
    count: u32,
    live: bool,
}

// The fields of a meaning, to be compared: a tuple takes less time to prove than a struct that is compared.
type Fields = (
    (Command, Format, usize),
    ((u32, u32), (u32, u32), u32),
    (u32, u32, Option<u32>, Option<(u32, u32)>),
    (bool, bool, bool, bool),
    (u64, u32, u32),
);

// What a line of `run` without options says.
const USUAL: Meaning = Meaning {
    command: Command::Run,
    format: Format::Text,
    files: 2,
    rom: (536870912, 65536),
    ram: (2147483648, 16384),
    limit: 1000000,
    workers: 4,
    page: 4096,
    stop_after: None,
    shard: None,
    fresh: false,
    pc_cell: false,
    ram_code: false,
    seed: 0,
    blocks: 8,
    count: 1000,
    live: false,
};

// What a line of `demo` without options says.
const DEMO: Meaning = Meaning {
    command: Command::Demo,
    format: Format::Text,
    files: 0,
    rom: (536870912, 8192),
    ram: (2147483648, 16),
    limit: 10000,
    workers: 4,
    page: 4096,
    stop_after: None,
    shard: None,
    fresh: false,
    pc_cell: false,
    ram_code: false,
    seed: 0,
    blocks: 8,
    count: 1000,
    live: false,
};

// Returns the words of a text, which this character separates.
pub fn words_of<R: Abort + AllocGlobal>(rt: &R, between: char, line: &str) -> Vec<String> {
    let mut words = Vec::new(rt.alloc());
    for word in line.split(between) {
        let word = String::from_str(rt.alloc(), word).expect(rt, "memory");
        words.push(word).expect(rt, "memory");
    }
    words
}

// Returns what a line says of its case, and the usual values of all options that are not of the case.
fn usual(command: Command, case: &CaseLine<'_>) -> Meaning {
    Meaning {
        command,
        files: case.files.len(),
        rom: (case.map.rom_base(), case.map.rom_size()),
        ram: (case.map.ram_base(), case.map.ram_size()),
        limit: case.limit,
        pc_cell: case.pc_cell,
        ram_code: case.ram_code,
        ..USUAL
    }
}

fn meaning_of(request: &Request<'_>) -> Meaning {
    let usual = usual(request.command(), request.case());
    match request {
        Request::Run(_, campaign) => Meaning {
            format: campaign.format,
            workers: campaign.workers,
            page: campaign.page,
            stop_after: campaign.stop_after,
            shard: campaign.shard.map(|shard| (shard.number(), shard.of())),
            fresh: campaign.fresh,
            ..usual
        },
        Request::Brute(_, format) | Request::Plan(_, format) | Request::Report(_, format) => {
            Meaning {
                format: *format,
                ..usual
            }
        }
        Request::Sample(_, draws) => Meaning {
            count: draws.count,
            seed: draws.seed,
            live: draws.live,
            ..usual
        },
        Request::Merge(_, merging) => Meaning {
            page: merging.page,
            format: merging.format,
            ..usual
        },
        Request::Demo(_, program) => Meaning {
            seed: program.seed,
            blocks: program.blocks,
            ..usual
        },
        Request::Trace(_) | Request::Audit(_) | Request::Symbols(_) => usual,
    }
}

fn fields_of(one: &Meaning) -> Fields {
    (
        (one.command, one.format, one.files),
        (one.rom, one.ram, one.limit),
        (one.workers, one.page, one.stop_after, one.shard),
        (one.fresh, one.pc_cell, one.ram_code, one.live),
        (one.seed, one.blocks, one.count),
    )
}

// Returns what a line says, or `None` if it is refused.
fn said(rt: &impl Abort, read: Result<Meaning, LineRefusal>) -> Option<Fields> {
    match read {
        Ok(meaning) => Some(fields_of(&meaning)),
        Err(LineRefusal::Usage) => None,
        Err(LineRefusal::NoMemory) => panic!(rt; "memory"),
    }
}

// Tests what a line says.
fn meets(rt: &impl Abort, text: &str, read: Result<Meaning, LineRefusal>, wanted: Option<Meaning>) {
    let wanted = match wanted {
        Some(meaning) => Some(fields_of(&meaning)),
        None => None,
    };
    same(text, said(rt, read), wanted).expect(rt, "not the same");
}

// Tests what the words of a line say.
fn words_say<R: Abort + AllocGlobal>(
    rt: &R,
    text: &str,
    words: &[String],
    wanted: Option<Meaning>,
) {
    let read = match read_line(rt.alloc(), words) {
        Ok(request) => Ok(meaning_of(&request)),
        Err(refusal) => Err(refusal),
    };
    meets(rt, text, read, wanted);
}

fn says<R: Abort + AllocGlobal>(rt: &R, text: &str, wanted: Option<Meaning>) {
    words_say(rt, text, &words_of(rt, ' ', text), wanted);
}

// Does the same for `fail_export`.
fn words_export<R: Abort + AllocGlobal>(
    rt: &R,
    text: &str,
    words: &[String],
    wanted: Option<Meaning>,
) {
    let read = match read_export(rt.alloc(), words) {
        Ok(case) => Ok(usual(USUAL.command, &case)),
        Err(refusal) => Err(refusal),
    };
    meets(rt, text, read, wanted);
}

fn exports<R: Abort + AllocGlobal>(rt: &R, text: &str, wanted: Option<Meaning>) {
    words_export(rt, text, &words_of(rt, ' ', text), wanted);
}

#[test]
fn taken_lines(rt: HostRuntime) {
    for taken in TAKEN.as_slice() {
        let wanted = Meaning {
            rom: taken.rom,
            ram: taken.ram,
            limit: taken.limit,
            ..USUAL
        };
        says(&rt, taken.line, Some(wanted));
    }
    for campaign in CAMPAIGNS.as_slice() {
        let wanted = Meaning {
            workers: campaign.workers,
            page: campaign.page,
            stop_after: campaign.stop_after,
            fresh: campaign.fresh,
            ..USUAL
        };
        says(&rt, campaign.line, Some(wanted));
    }
}

#[test]
fn commands(rt: HostRuntime) {
    for (text, command, files, format) in COMMANDS.as_slice() {
        let wanted = Meaning {
            command: *command,
            files: *files,
            format: *format,
            ..USUAL
        };
        says(&rt, text, Some(wanted));
    }
    for (text, seed, blocks) in DEMOS.as_slice() {
        let wanted = Meaning {
            seed: *seed,
            blocks: *blocks,
            ..DEMO
        };
        says(&rt, text, Some(wanted));
    }
}

#[test]
fn samples(rt: HostRuntime) {
    for (text, count, seed, live) in SAMPLES.as_slice() {
        let wanted = Meaning {
            command: Command::Sample,
            files: 1,
            count: *count,
            seed: *seed,
            live: *live,
            ..USUAL
        };
        says(&rt, text, Some(wanted));
    }
}

#[test]
fn merges_and_shards(rt: HostRuntime) {
    for (text, page) in MERGES.as_slice() {
        let wanted = Meaning {
            command: Command::Merge,
            files: 3,
            page: *page,
            ..USUAL
        };
        says(&rt, text, Some(wanted));
    }
    for (text, number, count) in SHARDS.as_slice() {
        let wanted = Meaning {
            shard: Some((*number, *count)),
            ..USUAL
        };
        says(&rt, text, Some(wanted));
    }
}

#[test]
fn export_lines(rt: HostRuntime) {
    for (text, limit, pc_cell, ram_code) in EXPORTS.as_slice() {
        let wanted = Meaning {
            files: 3,
            limit: *limit,
            pc_cell: *pc_cell,
            ram_code: *ram_code,
            ..USUAL
        };
        exports(&rt, text, Some(wanted));
    }
}

#[test]
fn flags(rt: HostRuntime) {
    for (text, command, files, pc_cell, ram_code) in FLAGGED.as_slice() {
        let wanted = Meaning {
            command: *command,
            files: *files,
            pc_cell: *pc_cell,
            ram_code: *ram_code,
            ..USUAL
        };
        says(&rt, text, Some(wanted));
    }
}

// Tests which files a line names.
fn names_files<R: Abort + AllocGlobal>(rt: &R, text: &str) {
    let words = words_of(rt, ' ', text);
    match read_line(rt.alloc(), &words) {
        Ok(request) => names_two(rt, text, request.case().files),
        Err(_) => panic!(rt; "a line that is refused"),
    }
}

fn names_two(rt: &impl Abort, text: &str, files: &[String]) {
    assert!(rt; files.len() == 2);
    let found = (files[0].as_str(), files[1].as_str());
    same(text, found, ("a", "b")).expect(rt, "not the same");
}

// Tests that the files are the three a, b and c.
fn names_three(rt: &impl Abort, text: &str, files: &[String]) {
    assert!(rt; files.len() == 3);
    let found = (files[0].as_str(), files[1].as_str(), files[2].as_str());
    same(text, found, ("a", "b", "c")).expect(rt, "not the same");
}

#[test]
fn three_files(rt: HostRuntime) {
    let merge = words_of(&rt, ' ', "f merge a b c --pc");
    match read_line(rt.alloc(), &merge) {
        Ok(request) => names_three(&rt, "merge", request.case().files),
        Err(_) => panic!(rt; "a line that is refused"),
    }
    let export = words_of(&rt, ' ', "f a b c --pc");
    match read_export(rt.alloc(), &export) {
        Ok(case) => names_three(&rt, "export", case.files),
        Err(_) => panic!(rt; "a line that is refused"),
    }
}

// Returns a line of `run` with these options.
fn with_options<R: Abort + AllocGlobal>(rt: &R, options: &str) -> String {
    format!(in rt.alloc(); "f run a b{options}").expect(rt, "memory")
}

#[test]
fn options_in_any_order(rt: HostRuntime) {
    let wanted = Meaning {
        rom: (4096, 8),
        ram: (8192, 16),
        limit: 300,
        ..USUAL
    };
    for options in SAME.as_slice() {
        let text = with_options(&rt, options);
        says(&rt, text.as_str(), Some(wanted));
        names_files(&rt, text.as_str());
    }
}

#[test]
fn refused_lines(rt: HostRuntime) {
    words_say(&rt, "no word", &[], None);
    for line in REFUSED.as_slice() {
        says(&rt, line, None);
    }
    for options in REFUSED_OPTIONS.as_slice() {
        let text = with_options(&rt, options);
        says(&rt, text.as_str(), None);
    }
}

#[test]
fn refused_spaces(rt: HostRuntime) {
    for line in REFUSED_SPACES.as_slice() {
        words_say(&rt, line, &words_of(&rt, ',', line), None);
    }
}

#[test]
fn refused_exports(rt: HostRuntime) {
    words_export(&rt, "no word", &[], None);
    for line in REFUSED_EXPORTS.as_slice() {
        exports(&rt, line, None);
    }
}

// The least and the greatest number, a text, and the number that the text gives.
static NUMBERS: [(u64, u64, &str, Option<u64>); 7] = [
    (0, u64::MAX, "18446744073709551615", Some(u64::MAX)),
    (0, u64::MAX, "18446744073709551616", None),
    (
        0,
        u64::MAX,
        "0xfedcba9876543210",
        Some(18364758544493064720),
    ),
    (3, 5, "2", None),
    (3, 5, "3", Some(3)),
    (3, 5, "5", Some(5)),
    (3, 5, "6", None),
];

#[test]
fn numbers_and_regions(rt: HostRuntime) {
    for (least, most, text, number) in NUMBERS.as_slice() {
        same(text, number_in(*least, *most, text), *number).expect(&rt, "not the same");
    }
    let region = read_region("0xffffffff:4294967295").expect(&rt, "a region");
    same(
        "a region",
        (region.base, region.size),
        (4294967295, 4294967295),
    )
    .expect(&rt, "not the same");
}
