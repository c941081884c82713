//! Laws about lines, each the contract of a call that does nothing.

ghost use Rattle.site_counts.specs.Boards.{OnBoard, Once};
ghost use Rattle.site_counts.specs.Laws.{PrunedWhere, PrunedBoard, SpreadIsRight, LiveLine, DeadLine, CellLine, CellWhole, LinesAddUp, CaseLinesAddUp};

/// A line of a table counts some of the sites: the live sites whose job passes one test, and the dead sites that
/// pass another test. For each outcome, the number of these sites is the sum of the weights of the jobs that pass
/// the test and have the outcome. For no effect, the number of the dead sites that pass is added to it.
pub fn pruned_where()
    ensures of_case { PrunedWhere }
    ensures of_board { PrunedBoard }
    ensures right { SpreadIsRight }
    ensures live { LiveLine }
    ensures dead { DeadLine }
{}

/// Whether a site passes a test of cells does not depend on its job, and the number of sites that pass follows
/// from the bits of the cells that do.
pub fn cell_lines()
    ensures line { CellLine }
    ensures whole { CellWhole }
{}

/// Lines that divide the sites among them add up to all sites.
pub fn lines_add_up()
    ensures of_log { LinesAddUp }
    ensures of_case { CaseLinesAddUp }
{}

/// Each board of a log's jobs gives an outcome to each of their sites.
pub fn on_board()
    ensures board { OnBoard }
    ensures once { Once }
{}
