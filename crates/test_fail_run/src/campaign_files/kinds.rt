//! Campaign files of each kind of case. The other kinds refuse each of them.

use super::files::disk;
use super::{call_tells, call_writes, only_reads};
use fail_cli::Status;
use result_keeper::KeepRefusal::OtherCase;
use test_asserts::same;
use test_programs::reports::{HALTS, HALTS_WITH_PC, Row};

/// The place of the kind in a file: the first byte of its card.
const KIND: usize = 13;

// A kind, its flags, the program that halts at once, and the text of `audit` for its whole file.
static KINDS: [(u8, &[&str], Row<'static>, &str); 4] = [
    (1, &[], HALTS, "kept 32 wrong 0\n"),
    (2, &["--pc"], HALTS_WITH_PC, "kept 96 wrong 0\n"),
    (3, &["--ram-code"], HALTS, "kept 32 wrong 0\n"),
    (
        4,
        &["--pc", "--ram-code"],
        HALTS_WITH_PC,
        "kept 96 wrong 0\n",
    ),
];

#[test]
fn each_by_its_own_kind(rt: HostRuntime) {
    for (kind, flags, row, audit) in KINDS {
        let mut kept = disk(&rt, &[], &[]);
        call_writes(&rt, "run", &row, flags, &mut kept, row.report);
        same("the kind", kept.bytes().get(KIND).copied(), Some(kind)).expect(&rt, "not the same");
        only_reads(&rt, "run", &row, flags, kept.bytes(), row.report);
        only_reads(&rt, "report", &row, flags, kept.bytes(), row.report);
        only_reads(&rt, "audit", &row, flags, kept.bytes(), audit);
    }
}

// The kind is compared first in the card, and the rest of the file does not matter.
#[test]
fn none_by_another(rt: HostRuntime) {
    let told = (
        Status::BadKeep(OtherCase { at: 0 }),
        "campaign file refused: 6 OtherCase at 0\n",
    );
    for (kind, flags, row, _) in KINDS {
        let mut kept = disk(&rt, &[], &[]);
        call_writes(&rt, "run", &row, flags, &mut kept, row.report);
        for (other, others, _, _) in KINDS {
            if other != kind {
                for command in ["run", "report", "audit"] {
                    let mut again = disk(&rt, kept.bytes(), &[]);
                    call_tells(&rt, command, &row, others, &mut again, told);
                    same("the file", again.bytes(), kept.bytes()).expect(&rt, "not the same");
                }
            }
        }
    }
}
