//! The sites of a call.
ghost use Rattle.std.specs.Prelude.{◌≡◌, [], All, length};
ghost use Rattle.fs_outside.specs.Faults.{HasCause};
ghost use Rattle.fs_outside.specs.Writing.{Writes};
ghost use Rattle.golden_trace.specs.Goldens.{IsGolden};
ghost use Rattle.phases.specs.Sites.{IsSite};
ghost use Rattle.replay.specs.Text.{replay_text};
ghost use Rattle.phases.specs.Output.{IsText, OutputStory};
ghost use Rattle.phases.specs.Status.{IsWriting};

use crate::site_texts::put_site_text;
use command_line::View;
use fs_model::{Case, Site};
use fs_outside::{Failed, Sink};
use golden_trace::Golden;
use phases::Status;
use report::{PIECE, flush};
use rv_machine::Machine;
use snapshot_store::{Snaps, spacing_of};
use std::alloc::Global;

// Puts the texts of the sites, and writes the bytes that wait.
fn put_sites<O: Sink>(
    out: &mut O,
    waiting: &mut Vec<u8>,
    case: &Case,
    golden: &Golden,
    snaps: &Snaps,
    machine: &mut Machine,
    other: &mut Machine,
    view: View,
    sites: &[Site],
) -> Result<(), Failed>
    requires golden { IsGolden case.now golden.now }
    requires sites { All (IsSite case.now) sites.now }
    requires snaps { snaps.now.case ≡ case.now }
    requires count { snaps.now.count ≡ length golden.now.touches }
    requires machine { machine.old.case ≡ case.now }
    requires other { other.old.case ≡ case.now }
    requires empty { waiting.old.items ≡ [] }
    ensures bytes { O.tells → Writes (O.taken out.old) (O.taken out.new) (replay_text case.now view sites.now) result }
    ensures cause { HasCause (O.faults out.old) (O.faults out.new) result }
{
    for site in sites {
        put_site_text(
            out, waiting, case, golden, snaps, machine, other, view, site,
        )?;
    }
    flush(out, waiting)
}

/// Writes the texts of the sites. Takes all memory before it writes the first byte.
pub(crate) fn write_sites<O: Sink>(
    alloc: Global,
    case: &Case,
    golden: &Golden,
    view: View,
    sites: &[Site],
    out: &mut O,
) -> Status
    requires golden { IsGolden case.now golden.now }
    requires sites { All (IsSite case.now) sites.now }
    ensures ends { IsWriting result }
    ensures output { OutputStory O.tells O.taken O.faults (IsText (replay_text case.now view sites.now)) out.old out.new result }
{
    let Ok(mut waiting) = Vec::with_capacity(alloc, PIECE) else {
        return Status::NoMemory;
    };
    let count = golden.count();
    let Ok(snaps) = Snaps::take(alloc, case, count, spacing_of(count)) else {
        return Status::NoMemory;
    };
    let Ok(mut machine) = Machine::new(alloc, case) else {
        drop(snaps);
        return Status::NoMemory;
    };
    let Ok(mut other) = machine.another(alloc) else {
        drop(snaps);
        drop(machine);
        return Status::NoMemory;
    };
    let put = put_sites(
        out,
        &mut waiting,
        case,
        golden,
        &snaps,
        &mut machine,
        &mut other,
        view,
        sites,
    );
    drop(snaps);
    drop(machine);
    drop(other);
    match put {
        Ok(()) => Status::Done,
        Err(Failed) => Status::WriteFault,
    }
}
