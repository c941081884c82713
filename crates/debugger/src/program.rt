//! The whole program, over devices that the caller passes.
ghost use Rattle.std.specs.Prelude.{◌≡◌, ◌⊎◌, ◌++◌, ◌∷◌, [], None, MatchResult, OnOk, false, map, string_bytes};
ghost use Rattle.fs_outside.specs.Faults.{IsCaused};
ghost use Rattle.fs_outside.specs.Writing.{TookPart};
ghost use Rattle.golden_trace.specs.Goldens.{IsGolden};
ghost use Rattle.phases.specs.SiteCauses.{IsCaseAnswer, IsCause, IsOwn};
ghost use Rattle.phases.specs.SiteStatus.{is_hearing, is_reading, is_writing};
ghost use Rattle.phases.specs.Sites.{IsSite};
ghost use Rattle.phases.specs.Status.{HasNoFault};
ghost use Rattle.phases.specs.declared.site_status.SiteStatus.{SiteStatus};
ghost use Rattle.phases.specs.declared.site_status.SiteStatus.TheVariants.{Ended};
ghost use Rattle.phases.specs.declared.status.Status.{Status};
ghost use Rattle.debugger.specs.Debug.{CaseUntil, Debugs, Talked, Until, debug_line, may_talk, talk_status, told_text};
ghost use Rattle.debugger.specs.Talk.{is_input, is_output};

use crate::facts::facts_of;
use crate::serve::{TalkFailure, serve};
use crate::talk::Talk;
use crate::words::read_debug;
use command_line::LineRefusal;
use fs_model::{Case, NoMemory, Site};
use fs_outside::{Sink, Source};
use golden_trace::{Golden, GoldenRefusal, golden};
use phases::{SiteStatus, Status, first_missing, load_case, tell_site_status};
use std::alloc::Global;

const USAGE: &str = "usage: fail_debug IMAGE CYCLE CELL BIT [options]\n";

/// Writes the line of a status to the error output. A fault of that output has no other effect.
pub fn tell_debug<E: Sink>(err: &mut E, status: SiteStatus)
    ensures told { E.tells → HasNoFault (E.faults err.old) (E.faults err.new) → E.taken err.new ≡ E.taken err.old ++ told_text status }
    ensures part { E.tells → TookPart (E.taken err.old) (E.taken err.new) (told_text status) }
{
    tell_site_status(err, USAGE, status);
}

// Returns how a call ends that talked.
fn talk_status(talked: Result<(), TalkFailure>) -> SiteStatus
    ensures { result ≡ talk_status talked }
{
    match talked {
        Ok(()) => SiteStatus::Ended(Status::Done),
        Err(TalkFailure::InputFault) => SiteStatus::InputFault,
        Err(TalkFailure::OutputFault) => SiteStatus::Ended(Status::WriteFault),
        Err(TalkFailure::NoMemory) => SiteStatus::Ended(Status::NoMemory),
    }
}

// Talks about a site that the case has.
fn debug_site<I: Source, O: Sink>(
    alloc: Global,
    case: &Case,
    golden: &Golden,
    site: Site,
    input: &mut I,
    out: &mut O,
) -> Result<(), TalkFailure>
    requires golden { IsGolden case.now golden.now }
    requires site { IsSite case.now site }
    ensures talk { I.tells → O.tells → OnOk result (Talked case.now site (I.left input.old) (I.left input.new) (O.taken out.old) (O.taken out.new)) }
    ensures broken { I.tells → O.tells
        → CaseUntil (talk_status result) case.now site (I.left input.old) (I.left input.new) (O.taken out.old) (O.taken out.new) }
    ensures hears { MatchResult result (λ _. I.faults input.new ≡ I.faults input.old)
        (λ why. IsCaused (is_input why) (I.faults input.old) (I.faults input.new)) }
    ensures writes { MatchResult result (λ _. O.faults out.new ≡ O.faults out.old) (λ why. IsCaused (is_output why) (O.faults out.old) (O.faults out.new)) }
{
    let Ok(facts) = facts_of(alloc, case, golden, &site) else {
        return Err(TalkFailure::NoMemory);
    };
    match Talk::begin(alloc, case, site, facts) {
        Ok(mut talk) => {
            let mut buffer = Vec::new(alloc);
            let served = serve(&mut talk, &mut buffer, input, out);
            drop(talk);
            served
        }
        Err(NoMemory) => Err(TalkFailure::NoMemory),
    }
}

// Talks about a site of a case.
fn debug_case<I: Source, O: Sink>(
    alloc: Global,
    case: &Case,
    site: Site,
    input: &mut I,
    out: &mut O,
) -> SiteStatus
    ensures cause { IsCaseAnswer case.now (site ∷ []) result }
    ensures talk { I.tells → O.tells → result ≡ Ended Status.Done
        → Talked case.now site (I.left input.old) (I.left input.new) (O.taken out.old) (O.taken out.new) }
    ensures broken { I.tells → O.tells
        → CaseUntil result case.now site (I.left input.old) (I.left input.new) (O.taken out.old) (O.taken out.new) }
    ensures nothing { may_talk result ≡ false → out.new ≡ out.old }
    ensures unheard { may_talk result ≡ false → input.new ≡ input.old }
    ensures hears { IsCaused (is_hearing result) (I.faults input.old) (I.faults input.new) }
    ensures writes { IsCaused (is_writing result) (O.faults out.old) (O.faults out.new) }
{
    let golden = match golden(alloc, case) {
        Ok(golden) => golden,
        Err(GoldenRefusal::Fault(fault)) => return SiteStatus::Ended(Status::BadGolden(fault)),
        Err(GoldenRefusal::NoMemory) => return SiteStatus::Ended(Status::NoMemory),
    };
    if let Some(missing) = first_missing(case, &golden, &[site]) {
        drop(golden);
        return SiteStatus::NoSite(missing);
    }
    let talked = debug_site(alloc, case, &golden, site, input, out);
    drop(golden);
    talk_status(talked)
}

// Runs the debugger of these words.
fn debug_words<S: Source, I: Source, O: Sink>(
    alloc: Global,
    words: &[String],
    image: &mut S,
    input: &mut I,
    out: &mut O,
) -> SiteStatus
    ensures cause { S.tells → IsCause (debug_line (map string_bytes words.now)) (S.left image.old) result }
    ensures usage { result ≡ Ended Status.Usage → debug_line (map string_bytes words.now) ≡ None }
    ensures no_line { debug_line (map string_bytes words.now) ≡ None → (result ≡ Ended Status.Usage) ⊎ (result ≡ Ended Status.NoMemory) }
    ensures talk { S.tells → I.tells → O.tells → result ≡ Ended Status.Done
        → Debugs (debug_line (map string_bytes words.now)) (S.left image.old) (I.left input.old) (I.left input.new) (O.taken out.old) (O.taken out.new) }
    ensures broken { S.tells → I.tells → O.tells
        → Until result (debug_line (map string_bytes words.now)) (S.left image.old) (I.left input.old) (I.left input.new) (O.taken out.old) (O.taken out.new) }
    ensures nothing { may_talk result ≡ false → out.new ≡ out.old }
    ensures unheard { may_talk result ≡ false → input.new ≡ input.old }
    ensures no_image { debug_line (map string_bytes words.now) ≡ None → image.new ≡ image.old }
    ensures reads { IsCaused (is_reading result) (S.faults image.old) (S.faults image.new) }
    ensures hears { IsCaused (is_hearing result) (I.faults input.old) (I.faults input.new) }
    ensures writes { IsCaused (is_writing result) (O.faults out.old) (O.faults out.new) }
{
    let asked = match read_debug(alloc, words) {
        Ok(asked) => asked,
        Err(LineRefusal::Usage) => return SiteStatus::Ended(Status::Usage),
        Err(LineRefusal::NoMemory) => return SiteStatus::Ended(Status::NoMemory),
    };
    match load_case(alloc, &asked.case, image) {
        Ok(loaded) => {
            let status = debug_case(alloc, &loaded.case, asked.site, input, out);
            drop(loaded);
            status
        }
        Err(failure) => SiteStatus::Ended(failure.status()),
    }
}

/// Runs the debugger of these words, the program's name first, and returns how it ended.
///
/// The image is read from `image`, and the bytes that GDB sends from `input`. The answers go to `out`, and a line
/// about a failure to `err`. The clauses about bytes hold if the device tells its bytes, as a device in memory does.
pub fn debug_run<S: Source, I: Source, O: Sink, E: Sink>(
    alloc: Global,
    words: &[String],
    image: &mut S,
    input: &mut I,
    out: &mut O,
    err: &mut E,
) -> SiteStatus
    // An answer is given only if it has its cause. An answer that has its cause is given, unless a device failed
    // or memory ran out.
    ensures cause { S.tells → IsCause (debug_line (map string_bytes words.now)) (S.left image.old) result }
    ensures complete { S.tells → (status : SiteStatus) → IsOwn status → IsCause (debug_line (map string_bytes words.now)) (S.left image.old) status
        → HasNoFault (S.faults image.old) (S.faults image.new)
        → HasNoFault (I.faults input.old) (I.faults input.new) → HasNoFault (O.faults out.old) (O.faults out.new)
        → (result ≡ status) ⊎ (result ≡ Ended Status.NoMemory) }
    ensures usage { result ≡ Ended Status.Usage → debug_line (map string_bytes words.now) ≡ None }
    ensures no_line { debug_line (map string_bytes words.now) ≡ None → (result ≡ Ended Status.Usage) ⊎ (result ≡ Ended Status.NoMemory) }
    ensures reads { IsCaused (is_reading result) (S.faults image.old) (S.faults image.new) }
    ensures hears { IsCaused (is_hearing result) (I.faults input.old) (I.faults input.new) }
    ensures writes { IsCaused (is_writing result) (O.faults out.old) (O.faults out.new) }

    // The output takes what a talk about the site writes for the bytes of the input, to its end or until GDB leaves.
    ensures talk { S.tells → I.tells → O.tells → result ≡ Ended Status.Done
        → Debugs (debug_line (map string_bytes words.now)) (S.left image.old) (I.left input.old) (I.left input.new) (O.taken out.old) (O.taken out.new) }
    // If the output or the input failed, or memory ran out, it has taken this for the first bytes of the input. Whatever
    // came before a failed read is answered, so that each packet is answered before more of the input is read.
    ensures broken { S.tells → I.tells → O.tells
        → Until result (debug_line (map string_bytes words.now)) (S.left image.old) (I.left input.old) (I.left input.new) (O.taken out.old) (O.taken out.new) }
    // With every other answer nothing is written, and the input is not read.
    ensures nothing { may_talk result ≡ false → out.new ≡ out.old }
    ensures unheard { may_talk result ≡ false → input.new ≡ input.old }
    // If the words are not a valid line, the image is not read.
    ensures no_image { debug_line (map string_bytes words.now) ≡ None → image.new ≡ image.old }
    ensures told { E.tells → HasNoFault (E.faults err.old) (E.faults err.new) → E.taken err.new ≡ E.taken err.old ++ told_text result }
    ensures told_part { E.tells → TookPart (E.taken err.old) (E.taken err.new) (told_text result) }
{
    let status = debug_words(alloc, words, image, input, out);
    tell_debug(err, status);
    status
}
