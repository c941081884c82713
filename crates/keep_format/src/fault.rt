//! What is wrong with a campaign file.

/// What is wrong with a file, in the order of the checks. Places are offsets in the file.
#[derive(Clone, Copy, PartialEq, Eq, Debug)]
pub enum FormatFault {
    /// It does not begin with an open gate and the name.
    NotACampaign,
    /// It has an unknown version.
    Version,
    /// It ends before its first gate, or within a batch.
    Cut,
    /// The row at this offset has an undefined last byte, or names no job.
    BadRow { at: u64 },
    /// Two rows of one name disagree: `second` is the first row that disagrees with an earlier one, and `first`
    /// the first row that it disagrees with.
    Conflict { first: u64, second: u64 },
}
