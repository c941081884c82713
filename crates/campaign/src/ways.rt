//! The two ways in which the runs of a page end. Only contracts tell them apart.
ghost use Rattle.std.specs.Prelude.{Bool, false};

/// How the runs of a page end.
pub(crate) trait Way {
    // Whether a run may end at a known state, on machines that have shortcuts or have none.
    ghost ends_early: { Bool → Bool };
}

/// Each run goes on as if nothing was known, even on machines that have shortcuts.
pub(crate) struct ToTheEnd;

impl Way for ToTheEnd {
    ghost ends_early = { λ shortcuts. false };
}

/// The runs use the shortcuts of the machines, if they have any.
pub(crate) struct ByShortcuts;

impl Way for ByShortcuts {
    ghost ends_early = { λ shortcuts. shortcuts };
}
