//! The events of the concurrent core of a campaign.

/// An event of the core.
#[derive(Clone, Copy, PartialEq, Eq, Debug)]
pub enum CoreEvent {
    /// A worker claims the job at the front of the queue.
    Claim { worker: u32, job: u32 },
    /// A worker files the job that it claimed.
    File { worker: u32, job: u32 },
    /// The filed jobs are kept.
    Keep,
    /// The run ends. With `whole` the filed jobs are kept, and otherwise they are lost.
    Stop { whole: bool },
    /// The run begins or continues.
    Resume,
}

/// A job that a worker has claimed and not filed.
#[derive(Clone, Copy, PartialEq, Eq, Debug)]
pub struct HeldJob {
    pub worker: u32,
    pub job: u32,
}
