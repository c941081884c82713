//! The results of filing a row.

/// The result of filing a row. The causes are checked from the last to the first.
#[derive(Clone, Copy, PartialEq, Eq, Debug)]
pub enum Filing {
    /// The desk has it now.
    Filed,
    /// The desk already had a row with its name.
    Known,
    /// No job of the page has its name.
    OutsidePage,
    /// It belongs to another case.
    Stranger,
    /// The desk's count of filings is at its largest value.
    Spent,
}
