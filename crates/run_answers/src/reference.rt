//! What the injected runs of a case are compared with, and where they begin.

ghost use Rattle.std.specs.Prelude.{◌≡◌, length};
ghost use Rattle.golden_trace.specs.Goldens.{IsGolden};

use fs_model::Case;
use golden_trace::Golden;
use snapshot_store::Snaps;
use std::marker::Model;

/// A case, its golden run, and the stored states of that run.
#[derive(Drop)]
pub struct Reference<'a> {
    pub(crate) case: &'a Case,
    pub(crate) golden: &'a Golden,
    pub(crate) snaps: &'a Snaps<'a>,
}

impl<'a> Model for Reference<'a> {
    ghost use Rattle.fs_model.specs.Case.{CaseData};
    ghost use Rattle.run_answers.specs.Reference.{IsReferenceOf};

    ghost Value = { CaseData };

    ghost view = { λ r. r.case.now };

    ghost invariant = { λ r. IsReferenceOf r.case.now r.golden.now r.snaps.now };
}

impl<'a> Reference<'a> {
    /// Returns the reference of a case.
    pub fn new(case: &'a Case, golden: &'a Golden, snaps: &'a Snaps<'a>) -> Reference<'a>
        requires golden { IsGolden case.now golden.now }
        requires snaps { snaps.now.case ≡ case.now }
        requires count { snaps.now.count ≡ length golden.now.touches }
        ensures { result ≡ case.now }
    {
        Reference {
            case,
            golden,
            snaps,
        }
    }
}
