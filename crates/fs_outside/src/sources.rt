//! Where bytes come from.
ghost use Rattle.std.specs.Prelude.{◌≡◌, ◌≤◌, List, ℕ, length, IfOk, OnErr};
ghost use Rattle.fs_outside.specs.Faults.{HasCause};
ghost use Rattle.fs_outside.specs.Stream.{Reads};

use crate::Failed;

/// Bytes that are read once, from front to back.
///
/// A source counts its failures, and the count never falls. A call returns `Failed` only if the count rose in
/// that call, or is at its largest value; with any other result the count stays.
///
/// A source that tells reports which bytes it has left. The clauses about bytes apply only to such a source; the
/// others apply to every source.
pub trait Source {
    /// Whether the source tells the bytes that are left: `Unit {0}` for bytes in memory, `⊥` for a file.
    ghost tells: { Type 0 };

    /// The bytes that are left. They mean nothing if the source does not tell.
    ghost left: { Self → List ℕ };

    /// The number of its failures, saturating.
    ghost faults: { Self → ℕ };

    /// Reads the next bytes into the buffer, and returns their number: at least one if the buffer is not empty,
    /// or 0 at the end. A call that fails takes no byte.
    fn read(&mut self, buf: &mut [u8]) -> Result<usize, Failed>
        ensures fits { IfOk result (λ n. n ≤ length buf.old) }
        ensures bytes { tells
            → IfOk result (λ n. Reads (left self.old) (left self.new) buf.old buf.new n) }
        ensures err { tells → OnErr result (left self.new ≡ left self.old) }
        ensures cause { HasCause (faults self.old) (faults self.new) result };
}
