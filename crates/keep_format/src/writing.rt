//! Writing the header and batches.
ghost use Rattle.std.specs.Prelude.{All, ◌≡◌, ◌+◌, ◌*◌, ◌≤◌, ◌<◌, ◌^◌, ◌++◌, [], ◌∷◌, length, vec_len, vec_capacity, OnErr, OnOk};
ghost use Rattle.fs_model.specs.Card.{card};
ghost use Rattle.keep_format.specs.KeepFile.{IsWritable, row_bytes, rows_bytes, batch_bytes, head_bytes};

use crate::layout::{CARD_START, CLOSED};
use crate::numbers::{bytes_of_half, bytes_of_word};
use fs_model::{Case, NoMemory, Row};

// Appends bytes, for which there is room.
fn put(out: &mut Vec<u8>, bytes: &[u8])
    requires { vec_len out.old + length bytes.now ≤ vec_capacity out.old }
    ensures items { out.new.items ≡ out.old.items ++ bytes.now }
    ensures room { vec_capacity out.old ≤ vec_capacity out.new }
{
    match out.extend_from_slice(bytes) {
        Ok(()) => {}
        Err(_) => unreachable!(),
    }
}

// Appends a card, for which there is room.
fn put_card(case: &Case, out: &mut Vec<u8>)
    requires { vec_len out.old + length (card case.now) ≤ vec_capacity out.old }
    ensures items { out.new.items ≡ out.old.items ++ card case.now }
    ensures room { vec_capacity out.old ≤ vec_capacity out.new }
{
    for i in 0..case.card_len() {
        put(out, &[case.card_at(i)]);
    }
}

/// Appends the header of a case's file, up to its first gate. The file's gate is open, and that one is closed.
///
/// # Errors
///
/// `NoMemory` if memory for the bytes is refused.
pub fn write_header(case: &Case, out: &mut Vec<u8>) -> Result<(), NoMemory>
    ensures ok { OnOk result (out.new.items ≡ out.old.items ++ (head_bytes (card case.now) ++ 0 ∷ [])) }
    ensures err { OnErr result (out.new.items ≡ out.old.items) }
{
    let len = case.card_len();
    out.reserve(CARD_START as usize + len as usize + 1)?;
    put(out, b"\xA5FAILCMP\x01");
    put(out, &bytes_of_word(len));
    put_card(case, out);
    put(out, &[CLOSED]);
    Ok(())
}

fn put_row(out: &mut Vec<u8>, row: &Row)
    requires { vec_len out.old + 10 ≤ vec_capacity out.old }
    ensures items { out.new.items ≡ out.old.items ++ row_bytes row.now }
    ensures writable { IsWritable row.now }
    ensures room { vec_capacity out.old ≤ vec_capacity out.new }
{
    let Row { cycle, cell, .. } = *row;
    let [c0, c1, c2, c3] = bytes_of_word(cycle);
    let [d0, d1, d2, d3] = bytes_of_word(cell);
    let code = row.outcome.number();
    // All bytes at once, because the test for room takes longer than the write.
    put(out, &[c0, c1, c2, c3, d0, d1, d2, d3, row.bit, code]);
}

/// Appends a batch without its own gate: the count, the rows, and the next gate, which is closed. Takes no
/// memory.
pub fn write_batch(rows: &[Row], out: &mut Vec<u8>)
    requires some { 0 < length rows.now }
    requires few { length rows.now < 2 ^ 16 }
    requires room { vec_len out.old + 3 + 10 * length rows.now ≤ vec_capacity out.old }
    ensures items { out.new.items ≡ out.old.items ++ (batch_bytes rows.now ++ 0 ∷ []) }
    ensures room { vec_capacity out.old ≤ vec_capacity out.new }

    // The type of a row gives the bounds of its numbers.
    ensures writable { All IsWritable rows.now }
{
    put(out, &bytes_of_half(rows.len() as u16));
    for row in rows {
        put_row(out, row);
    }
    put(out, &[CLOSED]);
}
