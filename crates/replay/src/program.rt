//! The whole program, over devices that the caller passes.
ghost use Rattle.std.specs.Prelude.{◌≡◌, ◌≢◌, ◌⊎◌, ◌++◌, None, false, map, string_bytes};
ghost use Rattle.command_line.specs.Replay.{replay_line};
ghost use Rattle.fs_outside.specs.Faults.{IsCaused};
ghost use Rattle.fs_outside.specs.Writing.{TookPart};
ghost use Rattle.golden_trace.specs.Goldens.{IsGolden};
ghost use Rattle.phases.specs.SiteCauses.{IsCaseAnswer, IsCause, IsOwn};
ghost use Rattle.phases.specs.SiteStatus.{is_hearing, is_reading, is_writing};
ghost use Rattle.phases.specs.Status.{HasNoFault};
ghost use Rattle.phases.specs.declared.site_status.SiteStatus.{SiteStatus};
ghost use Rattle.phases.specs.declared.site_status.SiteStatus.TheVariants.{Ended};
ghost use Rattle.phases.specs.declared.status.Status.{Status};
ghost use Rattle.replay.specs.Replay.{Replays, ReplaysPart, SitesStory, told_text};

use crate::sites::write_sites;
use command_line::{LineRefusal, View, read_replay};
use fs_model::{Case, Site};
use fs_outside::{Sink, Source};
use golden_trace::{Golden, GoldenRefusal, golden};
use phases::{SiteStatus, Status, first_missing, load_case, tell_site_status};
use std::alloc::Global;

const USAGE: &str = "usage: fail_replay [--whole | --brief] IMAGE CYCLE CELL BIT .. [options]\n";

/// Writes the line of a replay's status to the error output. A fault of that output has no other effect.
pub fn tell_replay<E: Sink>(err: &mut E, status: SiteStatus)
    ensures told { E.tells → HasNoFault (E.faults err.old) (E.faults err.new) → E.taken err.new ≡ E.taken err.old ++ told_text status }
    ensures part { E.tells → TookPart (E.taken err.old) (E.taken err.new) (told_text status) }
{
    tell_site_status(err, USAGE, status);
}

// Replays sites of a case whose golden run halts.
fn replay_golden<O: Sink>(
    alloc: Global,
    case: &Case,
    golden: &Golden,
    view: View,
    sites: &[Site],
    out: &mut O,
) -> SiteStatus
    requires { IsGolden case.now golden.now }
    ensures cause { IsCaseAnswer case.now sites.now result }
    ensures no_input { is_hearing result ≡ false }
    ensures output { SitesStory O.tells O.taken O.faults case.now view sites.now out.old out.new result }
{
    match first_missing(case, golden, sites) {
        Some(site) => SiteStatus::NoSite(site),
        None => SiteStatus::Ended(write_sites(alloc, case, golden, view, sites, out)),
    }
}

// Replays sites of a case.
fn replay_case<O: Sink>(
    alloc: Global,
    case: &Case,
    view: View,
    sites: &[Site],
    out: &mut O,
) -> SiteStatus
    ensures cause { IsCaseAnswer case.now sites.now result }
    ensures no_input { is_hearing result ≡ false }
    ensures output { SitesStory O.tells O.taken O.faults case.now view sites.now out.old out.new result }
{
    match golden(alloc, case) {
        Ok(golden) => {
            let status = replay_golden(alloc, case, &golden, view, sites, out);
            drop(golden);
            status
        }
        Err(GoldenRefusal::Fault(fault)) => SiteStatus::Ended(Status::BadGolden(fault)),
        Err(GoldenRefusal::NoMemory) => SiteStatus::Ended(Status::NoMemory),
    }
}

// Runs the replay of these words.
fn replay_words<S: Source, O: Sink>(
    alloc: Global,
    words: &[String],
    image: &mut S,
    out: &mut O,
) -> SiteStatus
    ensures cause { S.tells → IsCause (replay_line (map string_bytes words.now)) (S.left image.old) result }
    ensures usage { result ≡ Ended Status.Usage → replay_line (map string_bytes words.now) ≡ None }
    ensures no_line { replay_line (map string_bytes words.now) ≡ None → (result ≡ Ended Status.Usage) ⊎ (result ≡ Ended Status.NoMemory) }
    ensures said { S.tells → O.tells → result ≡ Ended Status.Done
        → Replays (replay_line (map string_bytes words.now)) (S.left image.old) (O.taken out.old) (O.taken out.new) }
    ensures part { S.tells → O.tells → result ≡ Ended Status.WriteFault
        → ReplaysPart (replay_line (map string_bytes words.now)) (S.left image.old) (O.taken out.old) (O.taken out.new) }
    ensures no_image { replay_line (map string_bytes words.now) ≡ None → image.new ≡ image.old }
    ensures nothing { result ≢ Ended Status.Done → result ≢ Ended Status.WriteFault → out.new ≡ out.old }
    ensures reads { IsCaused (is_reading result) (S.faults image.old) (S.faults image.new) }
    ensures writes { IsCaused (is_writing result) (O.faults out.old) (O.faults out.new) }
    ensures no_input { is_hearing result ≡ false }
{
    let asked = match read_replay(alloc, words) {
        Ok(asked) => asked,
        Err(LineRefusal::Usage) => return SiteStatus::Ended(Status::Usage),
        Err(LineRefusal::NoMemory) => return SiteStatus::Ended(Status::NoMemory),
    };
    match load_case(alloc, &asked.case, image) {
        Ok(loaded) => {
            let sites = asked.sites.as_slice();
            let status = replay_case(alloc, &loaded.case, asked.view, sites, out);
            drop(loaded);
            status
        }
        Err(failure) => SiteStatus::Ended(failure.status()),
    }
}

/// Runs the replay of these words, the program's name first, and returns how it ended.
///
/// The image is read from `image`. The text goes to `out`, and a line about a failure to `err`. The clauses about
/// bytes hold if the device tells its bytes, as a device in memory does.
pub fn replay_run<S: Source, O: Sink, E: Sink>(
    alloc: Global,
    words: &[String],
    image: &mut S,
    out: &mut O,
    err: &mut E,
) -> SiteStatus
    // An answer is given only if it has its cause. An answer that has its cause is given, unless a device failed
    // or memory ran out.
    ensures cause { S.tells → IsCause (replay_line (map string_bytes words.now)) (S.left image.old) result }
    ensures complete { S.tells → (status : SiteStatus) → IsOwn status → IsCause (replay_line (map string_bytes words.now)) (S.left image.old) status
        → HasNoFault (S.faults image.old) (S.faults image.new) → HasNoFault (O.faults out.old) (O.faults out.new)
        → (result ≡ status) ⊎ (result ≡ Ended Status.NoMemory) }
    ensures usage { result ≡ Ended Status.Usage → replay_line (map string_bytes words.now) ≡ None }
    ensures no_line { replay_line (map string_bytes words.now) ≡ None → (result ≡ Ended Status.Usage) ⊎ (result ≡ Ended Status.NoMemory) }
    ensures reads { IsCaused (is_reading result) (S.faults image.old) (S.faults image.new) }
    ensures writes { IsCaused (is_writing result) (O.faults out.old) (O.faults out.new) }
    // A replay has no input that could fail.
    ensures no_input { is_hearing result ≡ false }

    // The output takes the text of each site: the instructions of its injected run, what it sent, how it ended,
    // and its outcome.
    ensures said { S.tells → O.tells → result ≡ Ended Status.Done
        → Replays (replay_line (map string_bytes words.now)) (S.left image.old) (O.taken out.old) (O.taken out.new) }
    ensures part { S.tells → O.tells → result ≡ Ended Status.WriteFault
        → ReplaysPart (replay_line (map string_bytes words.now)) (S.left image.old) (O.taken out.old) (O.taken out.new) }
    // If the words are not a valid line, the image is not read.
    ensures no_image { replay_line (map string_bytes words.now) ≡ None → image.new ≡ image.old }
    ensures nothing { result ≢ Ended Status.Done → result ≢ Ended Status.WriteFault → out.new ≡ out.old }
    ensures told { E.tells → HasNoFault (E.faults err.old) (E.faults err.new) → E.taken err.new ≡ E.taken err.old ++ told_text result }
    ensures told_part { E.tells → TookPart (E.taken err.old) (E.taken err.new) (told_text result) }
{
    let status = replay_words(alloc, words, image, out);
    tell_replay(err, status);
    status
}
