//! Laws about states that differ from those of the golden run, each the contract of a call that does nothing.

ghost use Rattle.dead_cells.specs.Differs.{UnreadCells};
ghost use Rattle.dead_cells.specs.DeadCells.{DeadOutcome, LaterSite, LaterJob, OneDeadCell, SameDead};
ghost use Rattle.dead_cells.specs.Rounds.{RoundsGoOn};
ghost use Rattle.dead_cells.specs.Live.{LiveEnd, RomLiveness};

/// A step that reads none of some cells does the same whatever they hold.
pub fn unread_cells()
    ensures { UnreadCells }
{}

/// Take a state with the golden pc, which differs from the golden state only in cells that the golden run writes
/// before it reads them or never touches again. A run from there has no effect if it sent the same before, and is
/// silent otherwise.
pub fn dead_cells()
    ensures outcome { DeadOutcome }
{}

/// A run that differs from the golden run in one bit of one cell, and sent the same, has the outcome of the site
/// there, and so of its job.
pub fn later_job()
    ensures site { LaterSite }
    ensures job { LaterJob }
{}

/// A flip in a dead cell has no effect. Logs that agree have the same dead cells.
pub fn one_dead_cell()
    ensures log { SameDead }
    ensures outcome { OneDeadCell }
{}

/// Runs from states that differ only in registers that are not live, and that sent the same, end alike. One pass
/// over ROM checks enough for a liveness, also if code is in RAM.
pub fn live_registers()
    ensures end { LiveEnd }
    ensures rom { RomLiveness }
{}

/// A run through known rounds, each from one state to the next, continues for all their steps.
pub fn rounds()
    ensures go_on { RoundsGoOn }
{}
