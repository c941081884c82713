//! What a line asks of its image, and why words are no line.
ghost use Rattle.std.specs.Prelude.{◌≤◌};
ghost use Rattle.fs_model.specs.Case.{max_limit};

use fs_model::Map;

/// What a line asks of its image: the words of its files, and the options of a case.
#[derive(Clone, Copy)]
pub struct CaseLine<'w> {
    /// The words that can name a file: none, or IMAGE and those after it.
    pub files: &'w [String],
    /// The bases and sizes of ROM and RAM.
    pub map: Map,
    /// The limit: the most instructions of a run.
    pub limit: u32,
    /// Whether the pc is a cell, in which flips are counted too.
    pub pc_cell: bool,
    /// Whether code in RAM may run.
    pub ram_code: bool,
    ghost least: { 1 ≤ limit },
    ghost most: { limit ≤ max_limit },
}

/// Why the words are no line.
#[derive(Clone, Copy, Debug, PartialEq, Eq)]
pub enum LineRefusal {
    /// The words are not a valid command line.
    Usage,
    NoMemory,
}
