//! The audit of a board: the wrong outcomes in the order of the jobs, and then two numbers.
ghost use Rattle.std.specs.Prelude.{◌≡◌, ◌↔◌, Err, IfOk, length};
ghost use Rattle.fs_model.specs.AccessLog.{log};
ghost use Rattle.fs_model.specs.Job.{HasOutcomes, jobs_in, jobs_of};
ghost use Rattle.fs_model.specs.Outcome.{outcome};
ghost use Rattle.fs_outside.specs.Faults.{HasCause, IsCaused};
ghost use Rattle.fs_outside.specs.Writing.{Writes};
ghost use Rattle.golden_trace.specs.Goldens.{IsGolden};
ghost use Rattle.def_use.specs.Board.{kept_of};
ghost use Rattle.audit.specs.Refusal.{is_failed};
ghost use Rattle.audit.specs.Reruns.{IsJobOf};
ghost use Rattle.audit.specs.Text as spec;
ghost use Rattle.audit.specs.Text.{audit_text, wrong_of};

use crate::lines::{write_numbers, write_wrong};
use crate::refusal::AuditRefusal;
use crate::reruns::Reruns;
use def_use::{Board, JobList};
use fs_model::{Case, Job, NoMemory, Outcome};
use fs_outside::{Failed, Sink};
use golden_trace::Golden;
use std::alloc::Global;

/// The result of an audit.
#[derive(Clone, Copy, Debug, PartialEq, Eq)]
pub struct Audited {
    /// The number of jobs that have an outcome.
    pub kept: u32,
    /// The number of jobs whose outcome is wrong.
    pub wrong: u32,
}

// Runs a job again if it has an outcome, and writes its line if that is wrong. Returns whether it is wrong.
fn audit_place<O: Sink>(
    reruns: &mut Reruns<'_>,
    job: &Job,
    place: Option<Outcome>,
    out: &mut O,
) -> Result<bool, Failed>
    requires { IsJobOf reruns.old job.now }
    ensures wrong { IfOk result (λ wrong. wrong ≡ spec.is_wrong reruns.old job.now place) }
    ensures bytes { O.tells → Writes (O.taken out.old) (O.taken out.new) (spec.place_text reruns.old job.now place) result }
    ensures cause { HasCause (O.faults out.old) (O.faults out.new) result }
    ensures same { reruns.new ≡ reruns.old }
{
    let Some(kept) = place else {
        return Ok(false);
    };
    let true_one = reruns.outcome_of(job);
    if kept == true_one {
        return Ok(false);
    }
    write_wrong(out, job, kept, true_one)?;
    Ok(true)
}

// Writes the lines of a board, and returns their number.
fn audit_places<O: Sink>(
    reruns: &mut Reruns<'_>,
    list: &JobList,
    board: &Board,
    out: &mut O,
) -> Result<u32, Failed>
    requires list { list.now.list ≡ jobs_in reruns.old }
    requires board { length board.now ≡ length list.now.list }
    ensures wrong { IfOk result (λ wrong. wrong ≡ wrong_of reruns.old board.now) }
    ensures bytes { O.tells → Writes (O.taken out.old) (O.taken out.new) (spec.audit_lines reruns.old board.now) result }
    ensures cause { HasCause (O.faults out.old) (O.faults out.new) result }
{
    let mut wrong = 0;
    let mut walk = list.walk();
    for number in 0..list.len() {
        let job = walk.get(number);
        let is_wrong = audit_place(reruns, &job, board.get(number), out)?;
        wrong += is_wrong as u32;
    }
    Ok(wrong)
}

// Writes the whole text for a board.
fn audit_board<O: Sink>(
    reruns: &mut Reruns<'_>,
    list: &JobList,
    board: &Board,
    out: &mut O,
) -> Result<Audited, Failed>
    requires list { list.now.list ≡ jobs_in reruns.old }
    requires board { length board.now ≡ length list.now.list }
    ensures kept { IfOk result (λ audited. audited.kept ≡ kept_of board.now) }
    ensures wrong { IfOk result (λ audited. audited.wrong ≡ wrong_of reruns.old board.now) }
    ensures bytes { O.tells → Writes (O.taken out.old) (O.taken out.new) (audit_text reruns.old board.now) result }
    ensures cause { HasCause (O.faults out.old) (O.faults out.new) result }
{
    let wrong = audit_places(reruns, list, board, out)?;
    let kept = board.kept();
    write_numbers(out, kept, wrong)?;
    Ok(Audited { kept, wrong })
}

/// Runs the job of each outcome on a board again. Writes a line for each wrong outcome, in the order of the
/// jobs, and then the numbers of jobs that have an outcome and of those whose outcome is wrong.
///
/// # Errors
///
/// `Failed` if the sink failed; it may have taken a part of the text. `NoMemory` if memory was refused, and then
/// nothing was written.
pub fn audit<O: Sink>(
    alloc: Global,
    case: &Case,
    golden: &Golden,
    list: &JobList,
    board: &Board,
    out: &mut O,
) -> Result<Audited, AuditRefusal>
    requires golden { IsGolden case.now golden.now }
    requires list { list.now ≡ jobs_of (log case.now) }
    requires board { length board.now ≡ length list.now.list }
    ensures kept { IfOk result (λ audited. audited.kept ≡ kept_of board.now) }
    ensures wrong { IfOk result (λ audited. audited.wrong ≡ wrong_of case.now board.now) }
    // No outcome is wrong exactly if each outcome on the board is that of its job's site.
    ensures right { IfOk result (λ audited. (audited.wrong ≡ 0) ↔ HasOutcomes (outcome case.now) (jobs_in case.now) board.now) }
    ensures bytes { O.tells → Writes (O.taken out.old) (O.taken out.new) (audit_text case.now board.now) result }
    ensures cause { IsCaused (is_failed result) (O.faults out.old) (O.faults out.new) }
    ensures nothing { result ≡ Err AuditRefusal.NoMemory → out.new ≡ out.old }
{
    let mut reruns = match Reruns::of(alloc, case, golden) {
        Ok(reruns) => reruns,
        Err(NoMemory) => return Err(AuditRefusal::NoMemory),
    };
    let audited = audit_board(&mut reruns, list, board, out);
    drop(reruns);
    match audited {
        Ok(audited) => Ok(audited),
        Err(Failed) => Err(AuditRefusal::Failed),
    }
}
