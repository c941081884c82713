//! Where bytes go.
ghost use Rattle.std.specs.Prelude.{◌≡◌, ◌++◌, ◌<◌, ◌≤◌, List, ℕ, length, take, IfOk, OnErr};
ghost use Rattle.fs_outside.specs.Faults.{HasCause};

use crate::Failed;

/// A device that takes bytes in order.
///
/// A sink counts its failures, and the count never falls. A call returns `Failed` only if the count rose in that
/// call, or is at its largest value; with any other result the count stays. A sink that takes no byte of a piece
/// has failed.
///
/// A sink that tells reports which bytes it took. The clauses about bytes apply only to such a sink; the others
/// apply to every sink.
pub trait Sink {
    /// Whether the sink tells the bytes that it took: `Unit {0}` for bytes in memory, `⊥` for a file.
    ghost tells: { Type 0 };

    /// The bytes that it took. They mean nothing if the sink does not tell.
    ghost taken: { Self → List ℕ };

    /// The number of its failures, saturating.
    ghost faults: { Self → ℕ };

    /// Takes bytes from the front of a piece that is not empty, at least one, and returns their number. A call
    /// that fails takes none.
    fn write(&mut self, piece: &[u8]) -> Result<usize, Failed>
        requires { 0 < length piece.now }
        ensures fits { IfOk result (λ n. (0 < n) × (n ≤ length piece.now)) }
        ensures bytes { tells → IfOk result (λ n. taken self.new ≡ taken self.old ++ take n piece.now) }
        ensures err { tells → OnErr result (taken self.new ≡ taken self.old) }
        ensures cause { HasCause (faults self.old) (faults self.new) result };
}
