//! Why answers were not written.

/// Why answers were not written.
#[derive(Clone, Copy, Debug, PartialEq, Eq)]
pub enum AnswersRefusal {
    /// The sink failed. It may have taken a part of the text.
    Failed,
    /// Memory was refused. The sink may have taken a part of the text before.
    NoMemory,
}
