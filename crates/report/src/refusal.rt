//! Why a report was not written.
ghost use Rattle.std.specs.Prelude.{◌≡◌, ◌≢◌, Err};
ghost use Rattle.fs_outside.specs.Faults.{IsCaused};
ghost use Rattle.fs_outside.specs.Writing.{Writes};
ghost use Rattle.report.specs.Refusal.{is_failed};

use fs_outside::{Failed, Sink, write_whole};

/// Why a report was not written.
#[derive(Clone, Copy, Debug, PartialEq, Eq)]
pub enum ReportRefusal {
    /// The sink failed. It may have taken a part of the report.
    Failed,
    /// Memory for the report was refused, and nothing was written.
    NoMemory,
}

/// Writes the whole text of a report.
pub(crate) fn write_made<O: Sink>(out: &mut O, text: &[u8]) -> Result<(), ReportRefusal>
    ensures bytes { O.tells → Writes (O.taken out.old) (O.taken out.new) text.now result }
    ensures cause { IsCaused (is_failed result) (O.faults out.old) (O.faults out.new) }
    ensures made { result ≢ Err ReportRefusal.NoMemory }
{
    match write_whole(out, text) {
        Ok(()) => Ok(()),
        Err(Failed) => Err(ReportRefusal::Failed),
    }
}
