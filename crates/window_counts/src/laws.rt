//! Laws about windows, each the contract of a call that does nothing.

ghost use Rattle.window_counts.specs.Laws.{PrunedWindow, WindowWhole, WindowSize, DueWeight, SitesInside, WindowsAddUp, AllCycles};

/// The count of an outcome in a window is the sum of the clipped weights of the jobs that have it, and to no
/// effect, the window's dead sites are added. The clipped weight of a job is the number of its sites in the window,
/// and only due jobs have such sites.
pub fn pruned_window()
    ensures counts { PrunedWindow }
    ensures due { DueWeight }
    ensures inside { SitesInside }
    ensures whole { WindowWhole }
    ensures size { WindowSize }
{}

/// Windows that divide the cycles among them add up to the whole.
pub fn windows_add_up()
    ensures tiles { WindowsAddUp }
    ensures all { AllCycles }
{}
