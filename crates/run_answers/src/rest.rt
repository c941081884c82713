//! The rest of a run after a cycle.

ghost use Rattle.std.specs.Prelude.{◌≡◌, ◌≤◌, drop, length};

use fs_model::Event;

/// The bytes that a run sends after a cycle, and its last event.
#[derive(Clone, Copy)]
pub(crate) struct Rest<'a> {
    pub(crate) bytes: &'a [u8],
    pub(crate) last: Event,
}

/// Returns the bytes after the first `sent`.
pub(crate) fn bytes_after(bytes: &[u8], sent: usize) -> &[u8]
    requires { sent ≤ length bytes.now }
    ensures { result.now ≡ drop sent bytes.now }
{
    &bytes[sent..]
}
