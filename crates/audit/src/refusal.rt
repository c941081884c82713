//! Why an audit was not written.

/// Why an audit was not written.
#[derive(Clone, Copy, Debug, PartialEq, Eq)]
pub enum AuditRefusal {
    /// The sink failed. It may have taken a part of the text.
    Failed,
    /// Memory for the stored states or the machine was refused, and nothing was written.
    NoMemory,
}
