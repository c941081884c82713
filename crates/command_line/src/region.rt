//! Regions of memory on the command line.
ghost use Rattle.std.specs.Prelude.{◌≡◌};
ghost use Rattle.command_line.specs.Region.{region};

use crate::number::number_in;

/// The base of a region of memory, and its size in bytes.
#[derive(Clone, Copy, Debug, PartialEq, Eq)]
pub struct Region {
    pub base: u32,
    pub size: u32,
}

/// Returns the region that the text writes as `BASE:SIZE`.
pub fn read_region(text: &str) -> Option<Region>
    ensures { result ≡ region text.now }
{
    let (base, size) = text.split_once(':')?;
    let base = number_in(0, 0xffff_ffff, base)?;
    let size = number_in(0, 0xffff_ffff, size)?;
    Some(Region {
        base: base as u32,
        size: size as u32,
    })
}
