//! A law about the answers of `fail_run`: the contract of a call that does nothing.

ghost use Rattle.fail_cli.specs.Laws.{AllCounts};

use fs_outside::{Disk, Sink, Source};

/// One statement about the texts of all commands, which follows from `cause` and `report`: with `Done`, the output took
/// what the command writes of the case of its image, if the outcomes on the boards of its campaign files are right.
pub fn all_counts<S: Source, T: Source, D: Disk, O: Sink>()
    ensures { AllCounts S.tells D.tells T.tells O.tells }
{}
