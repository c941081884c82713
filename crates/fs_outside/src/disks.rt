//! The disk of a campaign file.
ghost use Rattle.std.specs.Prelude.{◌≡◌, ◌≤◌, ℕ, length, IfOk, MatchResult, OnErr, OnOk};
ghost use Rattle.fs_outside.specs.Faults.{HasCause, and_more};
ghost use Rattle.fs_outside.specs.Past.{Past, Wrote, Synced, IsImage, IsTorn, content};
ghost use Rattle.fs_outside.specs.Stream.{ReadsAt};

use crate::Failed;

/// Bytes that are kept, and that a crash may damage if they were written since the last sync.
///
/// A disk counts its failures, and the count never falls. A call returns `Failed` only if the count rose in that
/// call, or is at its largest value; with any other result the count stays.
///
/// A disk that tells reports everything that happened to it, its `Past`. What a read returns, what a crash may
/// leave now, and what a crash at an earlier moment could have left follow from it (`specs/Past.antt`). It also
/// reports the number of bytes that its reads returned. The clauses about both apply only to such a disk; the
/// others apply to every disk.
pub trait Disk {
    /// Whether the disk tells what happened to it: `Unit {0}` for bytes in memory, `⊥` for a file.
    ghost tells: { Type 0 };

    /// What happened to the disk. It means nothing if the disk does not tell.
    ghost past: { Self → Past };

    /// The number of bytes that its reads returned, saturating. It means nothing if the disk does not tell.
    ghost given: { Self → ℕ };

    /// The number of its failures, saturating.
    ghost faults: { Self → ℕ };

    /// Returns the number of bytes that a read finds.
    fn len(&mut self) -> Result<u64, Failed>
        ensures len { tells → IfOk result (λ n. n ≡ length (content (past self.old))) }
        ensures same { tells → past self.new ≡ past self.old }
        ensures given { tells → given self.new ≡ given self.old }
        ensures cause { HasCause (faults self.old) (faults self.new) result };

    /// Reads the bytes from `at` on into the buffer, and returns their number: at least one if the buffer is not
    /// empty, or 0 at the end or after it.
    fn read_at(&mut self, at: u64, buf: &mut [u8]) -> Result<usize, Failed>
        ensures fits { IfOk result (λ n. n ≤ length buf.old) }
        ensures bytes { tells
            → IfOk result (λ n. ReadsAt (content (past self.old)) at buf.old buf.new n) }
        ensures same { tells → past self.new ≡ past self.old }
        ensures given { tells → MatchResult result
            (λ n. given self.new ≡ and_more (given self.old) n)
            (λ _. given self.new ≡ given self.old) }
        ensures cause { HasCause (faults self.old) (faults self.new) result };

    /// Overwrites the bytes from `at` on, and extends the content if necessary. A write that fails may have
    /// written some of them.
    fn write_at(&mut self, at: u64, bytes: &[u8]) -> Result<(), Failed>
        requires { tells → at ≤ length (content (past self.old)) }
        ensures ok { tells
            → OnOk result (past self.new ≡ Wrote (past self.old) at (length bytes.now) bytes.now) }
        ensures err { tells
            → OnErr result (IsTorn (past self.old) at (length bytes.now) (past self.new)) }
        ensures given { tells → given self.new ≡ given self.old }
        ensures cause { HasCause (faults self.old) (faults self.new) result };

    /// Makes the content durable: after success, a crash leaves what a read returns.
    fn sync(&mut self) -> Result<(), Failed>
        ensures ok { tells → OnOk result (past self.new ≡ Synced (past self.old)) }
        ensures err { tells → OnErr result (past self.new ≡ past self.old) }
        ensures given { tells → given self.new ≡ given self.old }
        ensures cause { HasCause (faults self.old) (faults self.new) result };

    /// What a read returns is one of the contents that a crash may leave now.
    ghost reads_image: { (disk : Self) → tells → IsImage (past disk) (content (past disk)) };
}
