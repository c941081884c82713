//! The file of a program of two instructions, `lui x1,0xF0000; sw x0,8(x1)`, as it was written down from the
//! format, and the refusals of changed files.

use fs_model::{Outcome, Row};
use keep_format::{
    FormatFault, FormatRefusal, read_batches, read_header, write_batch, write_header,
};
use std::alloc::Global;
use std::process::Abort;
use test_asserts::same;
use test_programs::{HALTS, case_of};

// The header, and the card up to the end of the code. 56 bytes of ROM and 16 of RAM follow, all 0.
static HEAD: [u8; 46] = [
    0xa5, 0x46, 0x41, 0x49, 0x4c, 0x43, 0x4d, 0x50, 0x01, 0x69, 0x00, 0x00, 0x00, 0x01, 0x00, 0x00,
    0x00, 0x20, 0x00, 0x00, 0x00, 0x20, 0x40, 0x00, 0x00, 0x00, 0x00, 0x00, 0x00, 0x80, 0x10, 0x00,
    0x00, 0x00, 0x64, 0x00, 0x00, 0x00, 0xb7, 0x00, 0x00, 0xf0, 0x23, 0xa4, 0x00, 0x00,
];

// Returns the outcome's number for a bit of the address to which a word is stored: the address is not a multiple
// of 4, or no port has it.
fn number_of(bit: u8) -> u8 {
    if bit < 2 { 7 } else { 6 }
}

fn put(rt: &impl Abort, file: &mut Vec<u8>, bytes: &[u8]) {
    file.extend_from_slice(bytes).expect(rt, "memory");
}

// Appends the row of this cell and bit at cycle 1, with this last byte.
fn put_row(rt: &impl Abort, file: &mut Vec<u8>, cell: u8, bit: u8, byte: u8) {
    put(rt, file, &[0x01, 0, 0, 0, cell, 0, 0, 0, bit, byte]);
}

// Returns the bytes before the rows of a file that has `rows` rows in one batch.
fn before_rows<R: Abort + AllocGlobal>(rt: &R, rows: u8) -> Vec<u8> {
    let mut file = Vec::new(rt.alloc());
    for part in [&HEAD[..], &[0; 72], &[0xa5, rows, 0x00]] {
        put(rt, &mut file, part);
    }
    file
}

// Returns the complete file, byte by byte: each bit of the register that is read at cycle 1 has a row.
fn complete<R: Abort + AllocGlobal>(rt: &R) -> Vec<u8> {
    let mut file = before_rows(rt, 0x20);
    for bit in 0..32u8 {
        put_row(rt, &mut file, 0x01, bit, number_of(bit));
    }
    put(rt, &mut file, &[0]);
    same("the file", file.len(), 442).expect(rt, "not the same");
    file
}

// Returns the number of rows of a file and the place of its last gate, or its first fault.
fn read(alloc: Global, file: &[u8]) -> Result<(usize, u64), FormatRefusal> {
    let header = match read_header(file) {
        Ok(header) => header,
        Err(fault) => return Err(FormatRefusal::Fault(fault)),
    };
    let kept = read_batches(alloc, file, header.gate)?;
    Ok((kept.rows().len(), kept.gate()))
}

// Returns the rows of the program's jobs.
fn rows<R: Abort + AllocGlobal>(rt: &R) -> Vec<Row> {
    let mut rows = Vec::new(rt.alloc());
    for bit in 0..32u8 {
        let outcome = if bit < 2 {
            Outcome::Misaligned
        } else {
            Outcome::Address
        };
        let row = Row {
            cycle: 1,
            cell: 1,
            bit,
            outcome,
        };
        rows.push(row).expect(rt, "memory");
    }
    rows
}

// Writes the header of the program's case, and opens its gate.
fn begun<R: Abort + AllocGlobal>(rt: &R) -> Vec<u8> {
    let case = case_of(rt.alloc(), &HALTS, 100).expect(rt, "a case");
    let mut file = Vec::new(rt.alloc());
    write_header(&case, &mut file).expect(rt, "memory");
    same("the gate", file.pop(), Some(0)).expect(rt, "not the same");
    put(rt, &mut file, &[0xa5]);
    file
}

#[test]
fn written(rt: HostRuntime) {
    let mut file = begun(&rt);
    let rows = rows(&rt);
    assert!(rt; rows.len() == 32);
    file.reserve(323).expect(&rt, "memory");
    write_batch(&rows, &mut file);
    let wanted = complete(&rt);
    same("the file", file.as_slice(), wanted.as_slice()).expect(&rt, "not the same");
}

fn reads_back<R: Abort + AllocGlobal>(rt: &R, file: &[u8]) {
    let header = read_header(file).expect(rt, "a header");
    let found = (header.card_start, header.card_len, header.gate);
    same("the header", found, (13, 105, 118)).expect(rt, "not the same");
    let kept = read_batches(rt.alloc(), file, header.gate).expect(rt, "batches");
    same("the gate", kept.gate(), 441).expect(rt, "not the same");
    assert!(rt; kept.rows().len() == 32);
    let last = kept.rows()[31];
    let found = (last.at, last.cycle, last.cell, last.bit, last.outcome);
    same(
        "the last row",
        found,
        (431, 1, 1, 31, Some(Outcome::Address)),
    )
    .expect(rt, "not the same");
}

// The complete file, and each shorter one.
#[test]
fn whole_and_cut(rt: HostRuntime) {
    let mut file = complete(&rt);
    reads_back(&rt, &file);
    same("the complete file", read(rt.alloc(), &file), Ok((32, 441))).expect(&rt, "not the same");
    for _ in 0..442 {
        let _ = file.pop();
        let fault = if file.len() < 8 {
            FormatFault::NotACampaign
        } else {
            FormatFault::Cut
        };
        let wanted = Err(FormatRefusal::Fault(fault));
        same(file.len(), read(rt.alloc(), &file), wanted).expect(&rt, "not the same");
    }
}

// Sets bytes of the file from a place on.
fn set(rt: &impl Abort, file: &mut Vec<u8>, at: usize, bytes: &[u8]) {
    for (i, byte) in bytes.iter().enumerate() {
        let place = at.saturating_add(i);
        assert!(rt; place < file.len());
        file[place] = *byte;
    }
}

// Returns the complete file with other bytes at a place.
fn changed<R: Abort + AllocGlobal>(rt: &R, at: usize, bytes: &[u8]) -> Vec<u8> {
    let mut file = complete(rt);
    set(rt, &mut file, at, bytes);
    file
}

// The place of a change in the file, the new bytes, and the fault.
static CHANGES: [(usize, &[u8], Option<FormatFault>); 15] = [
    (0, &[0x00], Some(FormatFault::NotACampaign)),
    (7, &[0x51], Some(FormatFault::NotACampaign)),
    (8, &[0x02], Some(FormatFault::Version)),
    (9, &[0xff, 0xff, 0xff, 0xff], Some(FormatFault::Cut)),
    (130, &[0x08], Some(FormatFault::BadRow { at: 121 })),
    // Another outcome in a row with the first row's name, and in two such rows.
    (
        139,
        &[0x00, 0x01],
        Some(FormatFault::Conflict {
            first: 121,
            second: 131,
        }),
    ),
    (
        429,
        &[0x00, 0x01],
        Some(FormatFault::Conflict {
            first: 121,
            second: 421,
        }),
    ),
    // A bad outcome is reported before a conflict, and an open gate at the end before both.
    (139, &[0x00, 0x09], Some(FormatFault::BadRow { at: 131 })),
    (441, &[0xa5], Some(FormatFault::Cut)),
    // A repeated row with the same outcome is no conflict, and neither are an old row and a trap, in either order.
    (139, &[0x00], None),
    (139, &[0x00, 0x03], None),
    (130, &[0x03, 0x01, 0, 0, 0, 0x01, 0, 0, 0, 0x00, 0x05], None),
    // An old row conflicts with any other outcome: here with the first of three rows of a name.
    (
        130,
        &[
            0x03, 0x01, 0, 0, 0, 0x01, 0, 0, 0, 0x00, 0x05, 0x01, 0, 0, 0, 0x01, 0, 0, 0, 0x00,
            0x00,
        ],
        Some(FormatFault::Conflict {
            first: 121,
            second: 141,
        }),
    ),
    // Two traps of different kinds conflict too: here the second and the third row.
    (
        130,
        &[
            0x03, 0x01, 0, 0, 0, 0x01, 0, 0, 0, 0x00, 0x05, 0x01, 0, 0, 0, 0x01, 0, 0, 0, 0x00,
            0x06,
        ],
        Some(FormatFault::Conflict {
            first: 131,
            second: 141,
        }),
    ),
    // In a third run of ascending names, the first name occurs for the third time.
    (
        139,
        &[
            0x00, 0x07, 0x01, 0, 0, 0, 0x01, 0, 0, 0, 0x05, 0x06, 0x01, 0, 0, 0, 0x01, 0, 0, 0,
            0x00, 0x04,
        ],
        Some(FormatFault::Conflict {
            first: 121,
            second: 151,
        }),
    ),
];

// Returns the file that the older version wrote, byte by byte: 3 for each trap.
fn old_file<R: Abort + AllocGlobal>(rt: &R) -> Vec<u8> {
    let mut file = complete(rt);
    for bit in 0..32usize {
        let at = bit.saturating_mul(10).saturating_add(130);
        set(rt, &mut file, at, &[3]);
    }
    file
}

// The rows of an older file have no outcomes.
#[test]
fn old_rows(rt: HostRuntime) {
    let file = old_file(&rt);
    let kept = read_batches(rt.alloc(), &file, 118).expect(&rt, "batches");
    same("the gate", kept.gate(), 441).expect(&rt, "not the same");
    assert!(rt; kept.rows().len() == 32);
    for row in kept.rows() {
        same(row.at, row.outcome, None).expect(&rt, "not the same");
    }
}

#[test]
fn changed_bytes(rt: HostRuntime) {
    for (at, bytes, fault) in CHANGES.as_slice() {
        let file = changed(&rt, *at, bytes);
        let wanted = match fault {
            Some(fault) => Err(FormatRefusal::Fault(*fault)),
            None => Ok((32, 441)),
        };
        same(*at, read(rt.alloc(), &file), wanted).expect(&rt, "not the same");
    }
}

// Returns the rows of cycle 1 and cell 1 with these bits and last bytes.
fn bytes_of<R: Abort + AllocGlobal>(rt: &R, rows: &[(u8, u8)]) -> Vec<u8> {
    let mut bytes = Vec::new(rt.alloc());
    for (bit, byte) in rows {
        put_row(rt, &mut bytes, 0x01, *bit, *byte);
    }
    bytes
}

// The first rows of the file, and the two rows that disagree. The bits of the other rows continue to ascend.
static RUNS: [(&str, &[(u8, u8)], Option<(u64, u64)>); 8] = [
    (
        "three runs, no conflict",
        &[
            (0, 7),
            (1, 7),
            (2, 6),
            (0, 7),
            (1, 7),
            (2, 6),
            (0, 7),
            (1, 7),
            (2, 6),
        ],
        None,
    ),
    (
        "the first and the third",
        &[(0, 7), (1, 7), (2, 6), (0, 7), (2, 6), (0, 7), (1, 0)],
        Some((131, 181)),
    ),
    (
        "the second and the third",
        &[(0, 7), (2, 6), (0, 7), (1, 7), (2, 6), (0, 7), (1, 0)],
        Some((151, 181)),
    ),
    (
        "both and the third",
        &[(0, 7), (1, 7), (0, 7), (1, 7), (2, 6), (0, 7), (1, 0)],
        Some((131, 181)),
    ),
    (
        "an old row agrees with two that do not",
        &[(0, 3), (1, 7), (0, 5), (1, 7), (0, 6)],
        Some((141, 161)),
    ),
    (
        "a name that the second run passes",
        &[(0, 7), (5, 6), (5, 6), (0, 0)],
        Some((121, 151)),
    ),
    (
        "two conflicts: the first row that disagrees with an earlier one counts",
        &[(1, 7), (2, 6), (0, 7), (2, 6), (0, 0), (1, 0)],
        Some((141, 161)),
    ),
    (
        "a name twice, one behind the other, and once more",
        &[(4, 6), (4, 6), (4, 6), (4, 1)],
        Some((121, 151)),
    ),
];

fn conflict(first: u64, second: u64) -> FormatRefusal {
    FormatRefusal::Fault(FormatFault::Conflict { first, second })
}

#[test]
fn rows_in_runs(rt: HostRuntime) {
    for (key, rows, places) in RUNS.as_slice() {
        let file = changed(&rt, 121, &bytes_of(&rt, rows));
        let wanted = match places {
            Some((first, second)) => Err(conflict(*first, *second)),
            None => Ok((32, 441)),
        };
        same(*key, read(rt.alloc(), &file), wanted).expect(&rt, "not the same");
    }
}

// Each row with a lesser bit than the row before begins a run, so the file has two runs, then three, up to about
// twenty. Bit 31 is in the first row and in the last.
#[test]
fn ever_more_runs(rt: HostRuntime) {
    let mut bytes = Vec::new(rt.alloc());
    for i in 0..20u8 {
        put_row(&rt, &mut bytes, 0x01, 31u8.saturating_sub(i), 6);
        agrees_until_the_end(&rt, i, &bytes);
    }
}

// Tests the file with other bytes from its first row on, and then with another outcome in its last row.
fn agrees_until_the_end<R: Abort + AllocGlobal>(rt: &R, key: u8, bytes: &[u8]) {
    let mut file = changed(rt, 121, bytes);
    same(key, read(rt.alloc(), &file), Ok((32, 441))).expect(rt, "not the same");
    assert!(rt; file.len() == 442);
    file[440] = 0;
    let wanted = Err(conflict(121, 431));
    same(key, read(rt.alloc(), &file), wanted).expect(rt, "not the same");
}

// Returns a file whose rows have the cells from this number down to 1, so that each row is a run. A last row has
// the first row's name and this outcome.
fn in_runs<R: Abort + AllocGlobal>(rt: &R, runs: u8, last: u8) -> Vec<u8> {
    let mut file = before_rows(rt, runs.saturating_add(1));
    for i in 0..runs {
        put_row(rt, &mut file, runs.saturating_sub(i), 0, 6);
    }
    put_row(rt, &mut file, runs, 0, last);
    put(rt, &mut file, &[0]);
    file
}

// Returns what is read of such a file.
fn read_runs<R: Abort + AllocGlobal>(
    rt: &R,
    runs: u8,
    last: u8,
) -> Result<(usize, u64), FormatRefusal> {
    read(rt.alloc(), &in_runs(rt, runs, last))
}

// Up to 64 runs are searched one by one. For more, the rows are looked up in a map.
#[test]
fn many_runs(rt: HostRuntime) {
    for runs in [1u8, 2, 3, 16, 17, 63, 64, 65, 66, 200] {
        let second = (runs as u64 * 10).saturating_add(121);
        let rows = (runs as usize).saturating_add(1);
        let wanted = Ok((rows, second.saturating_add(10)));
        same(runs, read_runs(&rt, runs, 6), wanted).expect(&rt, "not the same");
        let wanted = Err(conflict(121, second));
        same(runs, read_runs(&rt, runs, 0), wanted).expect(&rt, "not the same");
    }
}
