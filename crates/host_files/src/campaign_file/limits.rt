//! The process's limit on the length of files (`ulimit -f`). The system ends a process that writes past it by a
//! signal, so the limit is read before, from Linux's table of limits.
use crate::image::read_again;
use std::{fs, io};

const TABLE: &str = "/proc/self/limits";

const ROW: &[u8] = b"Max file size";
// The table has some 1,300 bytes.
const ROOM: usize = 4096;

/// Returns the greatest length of a file that the process may write, in bytes. Without such a table any length
/// is allowed.
pub(super) fn longest(files: &HostRuntime) -> u64 {
    let mut room = [0; ROOM];
    match read_table(files, &mut room) {
        Ok(count) if count <= ROOM => limit_in(&room[..count]),
        Ok(_) | Err(_) => u64::MAX,
    }
}

fn read_table(files: &HostRuntime, room: &mut [u8]) -> io::Result<usize> {
    let mut file = fs::open(files, TABLE)?;
    read_again(&mut file, room)
}

// Returns the first number of the row, which is the limit in force.
fn limit_in(table: &[u8]) -> u64 {
    for at in 0..table.len() {
        if table[at..].starts_with(ROW) {
            return number_in(&table[at..], ROW.len());
        }
    }
    u64::MAX
}

// Returns the number that begins at a place, after spaces. A word there means that there is no limit.
fn number_in(row: &[u8], from: usize) -> u64 {
    let mut found = None;
    for byte in row.iter().skip(from) {
        let byte = *byte;
        if byte.is_ascii_digit() {
            let digit = u64::from(byte - b'0');
            found = Some(
                found
                    .unwrap_or(0_u64)
                    .saturating_mul(10)
                    .saturating_add(digit),
            );
        } else if byte != b' ' || found.is_some() {
            break;
        }
    }
    found.unwrap_or(u64::MAX)
}
