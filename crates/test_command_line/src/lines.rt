//! Valid lines, with what each says. One space separates words, and two spaces surround an empty word.
use command_line::{Command, Format};

// A line, with the bases and sizes of ROM and RAM and the limit that it says.
pub struct Taken {
    pub line: &'static str,
    pub rom: (u32, u32),
    pub ram: (u32, u32),
    pub limit: u32,
}

pub static TAKEN: [Taken; 6] = [
    Taken {
        line: "fail_star run row.elf row.keep --rom 0x20000000:64 --ram 0x80000000:16 --limit 100",
        rom: (536870912, 64),
        ram: (2147483648, 16),
        limit: 100,
    },
    Taken {
        line: "fail_star run row.elf row.keep",
        rom: (536870912, 65536),
        ram: (2147483648, 16384),
        limit: 1000000,
    },
    Taken {
        line: " run   --rom 0:4 --ram 4294967292:4 --limit 1",
        rom: (0, 4),
        ram: (4294967292, 4),
        limit: 1,
    },
    Taken {
        line: "--limit run a- a- --ram=0xfFfEf000:65536 --limit=16777216 --rom=0X1000:0x40000",
        rom: (4096, 262144),
        ram: (4294897664, 65536),
        limit: 16777216,
    },
    Taken {
        line: "f run run run --rom 00000000000000000064:8 --ram 0x0000000080000000:16 --limit 00000000000000000100",
        rom: (64, 8),
        ram: (2147483648, 16),
        limit: 100,
    },
    Taken {
        line: "f run a b --rom 0xeffffffc:4 --ram 0xf0001000:4 --limit 0x0000000000000064",
        rom: (4026531836, 4),
        ram: (4026535936, 4),
        limit: 100,
    },
];

// Options for `f run a b` that say a ROM of 8 bytes at 0x1000, a RAM of 16 bytes at 0x2000, and 300 instructions.
pub static SAME: [&str; 12] = [
    " --rom 4096:8 --ram 8192:16 --limit 300",
    " --rom 4096:8 --limit 300 --ram 8192:16",
    " --ram 8192:16 --rom 4096:8 --limit 300",
    " --ram 8192:16 --limit 300 --rom 4096:8",
    " --limit 300 --rom 4096:8 --ram 8192:16",
    " --limit 300 --ram 8192:16 --rom 4096:8",
    " --rom=0x1000:0x8 --ram=0x2000:0x10 --limit=0x12c",
    " --rom=0X1000:0X8 --ram 0x2000:16 --limit=0X12C",
    " --format text --rom 4096:8 --ram 8192:16 --limit 300",
    " --rom 4096:8 --ram 8192:16 --limit 300 --format=text",
    " --rom 4096:8 --ram 8192:16 --limit 300 --",
    " --limit=0x000000000000012c --rom 4096:8 --ram 8192:16",
];

// Lines of each command in each of its formats, without a ROM, a RAM or a limit.
pub static COMMANDS: [(&str, Command, usize, Format); 21] = [
    ("f run a b", Command::Run, 2, Format::Text),
    ("f run a b --format json", Command::Run, 2, Format::Json),
    ("f brute a", Command::Brute, 1, Format::Text),
    ("f brute a --format=json", Command::Brute, 1, Format::Json),
    ("f trace a", Command::Trace, 1, Format::Text),
    ("f trace a --", Command::Trace, 1, Format::Text),
    ("f plan a --format text", Command::Plan, 1, Format::Text),
    ("f plan a --format csv", Command::Plan, 1, Format::Csv),
    ("f report a b", Command::Report, 2, Format::Text),
    (
        "f report a b --format text",
        Command::Report,
        2,
        Format::Text,
    ),
    (
        "f report a b --format=json",
        Command::Report,
        2,
        Format::Json,
    ),
    (
        "f report a b --format csv --",
        Command::Report,
        2,
        Format::Csv,
    ),
    ("f audit a b", Command::Audit, 2, Format::Text),
    ("f audit a b --", Command::Audit, 2, Format::Text),
    ("f sample a", Command::Sample, 1, Format::Text),
    ("f sample a --", Command::Sample, 1, Format::Text),
    ("f merge a b c", Command::Merge, 3, Format::Text),
    (
        "f merge a b c --format text",
        Command::Merge,
        3,
        Format::Text,
    ),
    (
        "f merge merge b c --format=json --",
        Command::Merge,
        3,
        Format::Json,
    ),
    ("f symbols a b", Command::Symbols, 2, Format::Text),
    ("f symbols a b --", Command::Symbols, 2, Format::Text),
];

// What a line of `run` says about its campaign, apart from ROM, RAM and limit.
pub struct Campaign {
    pub line: &'static str,
    pub workers: u32,
    pub page: u32,
    pub stop_after: Option<u32>,
    pub fresh: bool,
}

pub static CAMPAIGNS: [Campaign; 13] = [
    Campaign {
        line: "f run a b",
        workers: 4,
        page: 4096,
        stop_after: None,
        fresh: false,
    },
    Campaign {
        line: "f run a b --page 1",
        workers: 4,
        page: 1,
        stop_after: None,
        fresh: false,
    },
    Campaign {
        line: "f run a b --page=65535 --stop-after 0",
        workers: 4,
        page: 65535,
        stop_after: Some(0),
        fresh: false,
    },
    Campaign {
        line: "f run a b --stop-after 40 --page 0x28",
        workers: 4,
        page: 40,
        stop_after: Some(40),
        fresh: false,
    },
    Campaign {
        line: "f run a b --stop-after=2147483647 --format text",
        workers: 4,
        page: 4096,
        stop_after: Some(2147483647),
        fresh: false,
    },
    Campaign {
        line: "f run a b --stop-after 0X7fffFFFF --page 0XFFFF --",
        workers: 4,
        page: 65535,
        stop_after: Some(2147483647),
        fresh: false,
    },
    Campaign {
        line: "f run a b --fresh",
        workers: 4,
        page: 4096,
        stop_after: None,
        fresh: true,
    },
    Campaign {
        line: "f run a b --fresh --stop-after 96 --page 00000000000000000001",
        workers: 4,
        page: 1,
        stop_after: Some(96),
        fresh: true,
    },
    Campaign {
        line: "f run a b --page 5 --fresh --stop-after 6",
        workers: 4,
        page: 5,
        stop_after: Some(6),
        fresh: true,
    },
    Campaign {
        line: "f run a b --workers 1",
        workers: 1,
        page: 4096,
        stop_after: None,
        fresh: false,
    },
    Campaign {
        line: "f run a b --workers=64 --page 40",
        workers: 64,
        page: 40,
        stop_after: None,
        fresh: false,
    },
    Campaign {
        line: "f run a b --fresh --page 3 --workers 0x40 --stop-after 2",
        workers: 64,
        page: 3,
        stop_after: Some(2),
        fresh: true,
    },
    Campaign {
        line: "f run a b --limit 0xf4240 --stop-after=0x0 --fresh --",
        workers: 4,
        page: 4096,
        stop_after: Some(0),
        fresh: true,
    },
];

// Lines with flags: the command, the number of files that it names, whether the pc is a cell, and whether code may
// be in RAM.
pub static FLAGGED: [(&str, Command, usize, bool, bool); 19] = [
    ("f run a b --pc", Command::Run, 2, true, false),
    ("f run a b --ram-code", Command::Run, 2, false, true),
    (
        "f run a b --ram-code --format text --pc --",
        Command::Run,
        2,
        true,
        true,
    ),
    ("f brute a --pc", Command::Brute, 1, true, false),
    ("f brute a --pc --ram-code", Command::Brute, 1, true, true),
    ("f trace a --ram-code", Command::Trace, 1, false, true),
    ("f trace a --ram-code --", Command::Trace, 1, false, true),
    ("f plan a --pc --format=text", Command::Plan, 1, true, false),
    ("f plan a --ram-code", Command::Plan, 1, false, true),
    ("f report a b --pc", Command::Report, 2, true, false),
    (
        "f report a b --ram-code --limit=1000000",
        Command::Report,
        2,
        false,
        true,
    ),
    ("f audit a b --pc", Command::Audit, 2, true, false),
    ("f audit a b --ram-code --pc", Command::Audit, 2, true, true),
    ("f sample a --pc", Command::Sample, 1, true, false),
    (
        "f sample a --ram-code --limit=1000000",
        Command::Sample,
        1,
        false,
        true,
    ),
    ("f merge a b c --pc", Command::Merge, 3, true, false),
    (
        "f merge a b c --ram-code --limit=1000000 --pc",
        Command::Merge,
        3,
        true,
        true,
    ),
    ("f symbols a b --pc", Command::Symbols, 2, true, false),
    (
        "f symbols a b --limit 1000000 --ram-code --",
        Command::Symbols,
        2,
        false,
        true,
    ),
];

// Lines of `demo`, with the seed and the number of blocks that each says.
pub static DEMOS: [(&str, u64, u32); 5] = [
    ("f demo", 0, 8),
    (
        "f demo --seed 18446744073709551615 --blocks 1024",
        18446744073709551615,
        1024,
    ),
    ("f demo --seed=0x10", 16, 8),
    ("f demo --blocks 1", 0, 1),
    ("f demo --blocks=2 --seed 0 --", 0, 2),
];

// Lines of a sample, with the number of draws and the seed that each says, and whether it draws only live sites.
pub static SAMPLES: [(&str, u32, u64, bool); 7] = [
    ("f sample a", 1000, 0, false),
    ("f sample a --count 1", 1, 0, false),
    ("f sample a --count=1000000 --seed 42", 1000000, 42, false),
    ("f sample a --live", 1000, 0, true),
    ("f sample a --live --seed 42 --count 3", 3, 42, true),
    (
        "f sample a --seed=0x10 --count 0xf4240 --live --",
        1000000,
        16,
        true,
    ),
    (
        "f sample a --seed 18446744073709551615",
        1000,
        18446744073709551615,
        false,
    ),
];

// Lines of a merge, with the page that each says.
pub static MERGES: [(&str, u32); 3] = [
    ("f merge a b c --page 1", 1),
    ("f merge a b c --page=65535 --limit 1000000", 65535),
    ("f merge a b c --page 0x28 --", 40),
];

// Lines of `run` with a shard: its number and the number of shards.
pub static SHARDS: [(&str, u32, u32); 8] = [
    ("f run a b --shard 1/1", 1, 1),
    ("f run a b --shard 1/2", 1, 2),
    ("f run a b --shard=2/2", 2, 2),
    ("f run a b --shard 2/3 --limit 1000000", 2, 3),
    ("f run a b --shard=1/65535", 1, 65535),
    ("f run a b --shard 65535/65535", 65535, 65535),
    ("f run a b --shard 010/0011 --", 10, 11),
    (
        "f run a b --shard 00000000000000000001/00000000000000000002",
        1,
        2,
    ),
];

// Lines of `fail_export`, with the limit that each says, whether the pc is a cell, and whether code may be in RAM.
pub static EXPORTS: [(&str, u32, bool, bool); 6] = [
    ("fail_export a b c", 1000000, false, false),
    ("fail_export a b :memory: --", 1000000, false, false),
    ("run audit a b --limit=5 --pc", 5, true, false),
    ("--pc a b c", 1000000, false, false),
    (
        " a  c --ram-code --rom 0x20000000:65536 --pc --limit 0x10 --",
        16,
        true,
        true,
    ),
    (
        "x a b c --ram=2147483648:0x4000 --ram-code",
        1000000,
        false,
        true,
    ),
];
