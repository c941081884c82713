//! The reports of some of the programs. Another implementation gives the same totals.

use crate::words;

/// A program at the start of ROM, a limit, and the report.
#[derive(Clone, Copy)]
pub struct Row<'a> {
    pub words: &'a [u32],
    pub limit: &'a str,
    pub report: &'a str,
}

/// It halts at once.
pub const HALTS: Row<'static> = Row {
    words: &words::HALTS,
    limit: "100",
    report: "instructions 2\nsites 2240\nno-effect 2208\nsilent 0\ndetected 0\nillegal 0\naddress 30\nmisaligned 2\ntimeout 0\n",
};

/// It halts at once, and the pc is a cell.
pub const HALTS_WITH_PC: Row<'static> = Row {
    words: &words::HALTS,
    limit: "100",
    report: "instructions 2\nsites 2304\nno-effect 2209\nsilent 0\ndetected 0\nillegal 6\naddress 83\nmisaligned 6\ntimeout 0\n",
};

/// It halts by an address that two instructions make. With one flip it sends a byte instead, and runs on.
pub const RUNS_ON: Row<'static> = Row {
    words: &words::RUNS_ON,
    limit: "100",
    report: "instructions 3\nsites 3360\nno-effect 3296\nsilent 0\ndetected 0\nillegal 1\naddress 59\nmisaligned 4\ntimeout 0\n",
};

/// It sends a byte.
pub const SENDS: Row<'static> = Row {
    words: &words::SENDS,
    limit: "100",
    report: "instructions 4\nsites 4480\nno-effect 4376\nsilent 10\ndetected 2\nillegal 0\naddress 90\nmisaligned 2\ntimeout 0\n",
};

/// An injected run halts at instruction 71, which the limit admits.
pub const LIMIT_71: Row<'static> = Row {
    words: &words::COUNTS_DOWN,
    limit: "71",
    report: "instructions 7\nsites 7840\nno-effect 7702\nsilent 0\ndetected 0\nillegal 0\naddress 30\nmisaligned 2\ntimeout 106\n",
};

pub const LIMIT_70: Row<'static> = Row {
    words: &words::COUNTS_DOWN,
    limit: "70",
    report: "instructions 7\nsites 7840\nno-effect 7698\nsilent 0\ndetected 0\nillegal 0\naddress 30\nmisaligned 2\ntimeout 110\n",
};

/// The golden run takes the whole limit.
pub const LIMIT_7: Row<'static> = Row {
    words: &words::COUNTS_DOWN,
    limit: "7",
    report: "instructions 7\nsites 7840\nno-effect 7681\nsilent 0\ndetected 0\nillegal 0\naddress 30\nmisaligned 2\ntimeout 127\n",
};

/// It stores a word, overwrites a byte of it, and sends and halts with what it loads.
pub const STORES: Row<'static> = Row {
    words: &words::STORES,
    limit: "100",
    report: "instructions 8\nsites 8960\nno-effect 8596\nsilent 181\ndetected 1\nillegal 0\naddress 172\nmisaligned 10\ntimeout 0\n",
};

/// It divides by zero and on overflow, both signed, and sends bytes of the results.
pub const DIVIDES: Row<'static> = Row {
    words: &words::DIVIDES,
    limit: "100",
    report: "instructions 13\nsites 14560\nno-effect 13899\nsilent 287\ndetected 10\nillegal 0\naddress 360\nmisaligned 4\ntimeout 0\n",
};
