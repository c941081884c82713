//! Rows of a campaign file.
ghost use Rattle.std.specs.Prelude.{◌≡◌};
ghost use Rattle.keep_format.specs.KeepFile.{byte_of, kept_row};

use crate::layout::OLD_TRAP;
use crate::raw_rows::RawRow;
use fs_model::Outcome;

/// A row, and the offset of its first byte. An old row has no outcome, because it says only that the run
/// trapped.
#[derive(Clone, Copy, PartialEq, Eq, Debug)]
pub struct KeptRow {
    pub at: u64,
    pub cycle: u32,
    pub cell: u32,
    pub bit: u8,
    pub outcome: Option<Outcome>,
}

/// Returns the last byte of a row.
pub(crate) fn byte_of(outcome: Option<Outcome>) -> u8
    ensures { result ≡ byte_of outcome }
{
    match outcome {
        None => OLD_TRAP,
        Some(outcome) => outcome.number(),
    }
}

/// Returns the row with these numbers.
pub(crate) fn kept_row(raw: RawRow) -> KeptRow
    ensures { result ≡ kept_row raw }
{
    KeptRow {
        at: raw.at,
        cycle: raw.cycle,
        cell: raw.cell,
        bit: raw.bit,
        outcome: Outcome::of_number(raw.code),
    }
}
