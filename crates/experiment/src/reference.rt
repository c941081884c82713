//! What the injected runs of a case are compared with.

ghost use Rattle.std.specs.Prelude.{◌≡◌, length};
ghost use Rattle.golden_trace.specs.Goldens.{IsGolden};
ghost use Rattle.experiment.specs.Goldens.{IsGolden-prop};

use fs_model::Case;
use golden_trace::Golden;
use snapshot_store::Snaps;

/// A case, its golden run, and the stored states of that run.
#[derive(Drop)]
pub struct Reference<'a, 'c> {
    pub case: &'c Case,
    pub golden: &'a Golden,
    pub snaps: &'a Snaps<'c>,
    pub ghost golden_is: { IsGolden case.now golden.now } by { IsGolden-prop case.now golden.now },
    pub ghost snaps_are: { snaps.now.case ≡ case.now },
    pub ghost count_is: { snaps.now.count ≡ length golden.now.touches },
}
