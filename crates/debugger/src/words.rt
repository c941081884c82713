//! The words of `fail_debug`: those of `fail_replay` with one site.
ghost use Rattle.std.specs.Prelude.{◌≡◌, IfOk, Some, None, Err, map, string_bytes};
ghost use Rattle.command_line.specs.Said.{case_of};
ghost use Rattle.command_line.specs.declared.line.LineRefusal.{LineRefusal};
ghost use Rattle.debugger.specs.Debug as spec;

use command_line::{CaseLine, LineRefusal, View, read_replay};
use fs_model::Site;
use std::alloc::Global;

/// The meaning of the words.
#[derive(Drop)]
pub(crate) struct DebugLine<'w> {
    /// IMAGE and the words of the site, as files, and the options of the case.
    pub(crate) case: CaseLine<'w>,
    pub(crate) site: Site,
}

// Returns the site, if it is the only one.
fn only(sites: &[Site]) -> Option<Site>
    ensures { result ≡ spec.only sites.now }
{
    match sites {
        [site] => Some(*site),
        _ => None,
    }
}

fn site_of(view: View, sites: &[Site]) -> Option<Site>
    ensures { result ≡ spec.asked_site view sites.now }
{
    match view {
        View::FromFlip => only(sites),
        View::Whole | View::Brief => None,
    }
}

/// Reads the words, of which the first is the program's name.
///
/// # Errors
///
/// `Usage` if the words are not a valid line, and `NoMemory` if memory is refused.
pub(crate) fn read_debug<'w>(
    alloc: Global,
    words: &'w [String],
) -> Result<DebugLine<'w>, LineRefusal>
    ensures ok { IfOk result (λ d. spec.debug_line (map string_bytes words.entry.now) ≡ Some (spec.asked_for (case_of d.case) d.site)) }
    ensures usage { result ≡ Err LineRefusal.Usage → spec.debug_line (map string_bytes words.entry.now) ≡ None }
{
    let asked = match read_replay(alloc, words) {
        Ok(asked) => asked,
        Err(refusal) => return Err(refusal),
    };
    match site_of(asked.view, asked.sites.as_slice()) {
        Some(site) => Ok(DebugLine {
            case: asked.case,
            site,
        }),
        None => Err(LineRefusal::Usage),
    }
}
