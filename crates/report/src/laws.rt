//! Laws about the counts by function and object, each the contract of a call that does nothing.

ghost use Rattle.report.specs.SymbolLaws.{AllFunctions, AllObjects, FunctionsAddUp, FunctionsAreRight, ObjectsAddUp, ObjectsAreRight};

/// For a board with an outcome for every job, the lines of the functions add up to the counts of all sites, and
/// so do those of the objects. If its outcomes are right, each line counts its own sites.
pub fn of_board()
    ensures functions { FunctionsAddUp }
    ensures objects { ObjectsAddUp }
    ensures right_functions { FunctionsAreRight }
    ensures right_objects { ObjectsAreRight }
{}

/// For every case, the sites of all lines together, each by its own run, have the counts of the case.
pub fn of_case()
    ensures functions { AllFunctions }
    ensures objects { AllObjects }
{}
