//! The front of a disk.
ghost use Rattle.std.specs.Prelude.{◌≤◌, length};

/// The first bytes of a disk, and its length.
#[derive(Drop)]
pub(crate) struct Front {
    pub(crate) bytes: Vec<u8>,
    pub(crate) len: u64,
    ghost within: { length bytes.items ≤ len },
}
