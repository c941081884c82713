//! The sites that a call names.
ghost use Rattle.std.specs.Prelude.{All, IfNone, IfSome};
ghost use Rattle.golden_trace.specs.Goldens.{IsGolden};
ghost use Rattle.phases.specs.Sites.{IsFirstMissing, IsSite};

use fs_model::{Case, Site, is_site};
use golden_trace::Golden;

/// Returns the first site that the case does not have, if there is one.
pub fn first_missing(case: &Case, golden: &Golden, sites: &[Site]) -> Option<Site>
    requires { IsGolden case.now golden.now }
    ensures none { IfNone result (All (IsSite case.now) sites.now) }
    ensures some { IfSome result (IsFirstMissing case.now sites.now) }
{
    for site in sites {
        if !is_site(case, golden.count(), site) {
            return Some(*site);
        }
    }
    None
}
