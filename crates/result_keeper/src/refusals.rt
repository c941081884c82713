//! Why a campaign file was not opened.

use keep_format::FormatFault;

/// Why a file was refused for a case.
#[derive(Clone, Copy, PartialEq, Eq, Debug)]
pub enum KeepRefusal {
    Format(FormatFault),
    /// The file belongs to another case; `at` is the least index at which the two cards differ.
    OtherCase { at: u64 },
}

/// Why a file was not opened.
#[derive(Clone, Copy, Debug, PartialEq, Eq)]
pub enum AdoptRefusal {
    /// The disk failed, and its count of faults rose.
    DiskFault,
    /// The file does not belong to this case.
    Refused(KeepRefusal),
    NoMemory,
}

/// Why bytes give no board.
#[derive(Clone, Copy, Debug, PartialEq, Eq)]
pub enum BoardRefusal {
    /// They are not a file of this case.
    Refused(KeepRefusal),
    NoMemory,
}
