//! The command `symbols`: the outcomes of a campaign file by the functions and objects of its image.
ghost use Rattle.std.specs.Prelude.{◌≡◌, ◌+◌, false, Err, if◌then◌else◌, length};
ghost use Rattle.fs_outside.specs.Faults.{IsCaused};
ghost use Rattle.fs_outside.specs.Past.{content};
ghost use Rattle.fs_model.specs.declared.outcomes.Outcome.{Outcome};
ghost use Rattle.fs_model.specs.Filling.{board_total};
ghost use Rattle.fs_model.specs.Outcome.{same_outcome, total_at};
ghost use Rattle.def_use.specs.Board.{HasOutcomeBelow};
ghost use Rattle.fs_outside.specs.Writing.{Writes};
ghost use Rattle.report.specs.Refusal.{is_failed};
ghost use Rattle.phases.specs.Failures.{status_of};
ghost use Rattle.phases.specs.Output.{OutputStory};
ghost use Rattle.phases.specs.Status.{IsWriting, is_keep_fault};
ghost use Rattle.kept_commands.specs.Keep.{IsKeepCause};
ghost use Rattle.kept_commands.specs.Run.{no_job};
ghost use Rattle.kept_commands.specs.Symbols.{BoardSays, SymbolsSays, board_symbols};

use elf_symbols::Symbol;
use fs_model::{Case, Totals};
use fs_outside::{Disk, Failed, Sink};
use phases::{Answer, Opened, whole_totals};
use report::{ReportRefusal, laws, write_symbols, write_text};
use std::alloc::Global;

// Writes the lines of the symbols, and then the totals.
#[tactic(auto, using(fs_outside::proofs::Writes::writes))]
fn write_board<O: Sink>(
    alloc: Global,
    opened: &Opened<'_>,
    symbols: &[Symbol<'_>],
    totals: &Totals,
    out: &mut O,
) -> Result<(), ReportRefusal>
    requires whole { HasOutcomeBelow opened.now.board (length opened.now.board) }
    requires totals { (o : Outcome) → total_at totals.now o ≡ board_total opened.now.baseline.list.list opened.now.board o
        + (if same_outcome Outcome.NoEffect o then opened.now.baseline.list.dead else 0) }
    ensures bytes { O.tells → Writes (O.taken out.old) (O.taken out.new) (board_symbols opened.now.baseline.case symbols.now opened.now.board) result }
    ensures cause { IsCaused (is_failed result) (O.faults out.old) (O.faults out.new) }
    ensures nothing { result ≡ Err ReportRefusal.NoMemory → out.new ≡ out.old }
{
    let baseline = &opened.baseline;
    baseline.facts();
    let golden = baseline.golden();
    write_symbols(
        alloc,
        out,
        baseline.case(),
        golden.pcs(),
        baseline.list(),
        &opened.board,
        symbols,
    )?;
    match write_text(out, golden.count(), baseline.sites(), totals) {
        Ok(()) => Ok(()),
        Err(Failed) => Err(ReportRefusal::Failed),
    }
}

// Does the same, and returns the answer.
fn symbols_board<O: Sink>(
    alloc: Global,
    opened: &Opened<'_>,
    symbols: &[Symbol<'_>],
    totals: &Totals,
    out: &mut O,
) -> Answer
    requires whole { HasOutcomeBelow opened.now.board (length opened.now.board) }
    requires totals { (o : Outcome) → total_at totals.now o ≡ board_total opened.now.baseline.list.list opened.now.board o
        + (if same_outcome Outcome.NoEffect o then opened.now.baseline.list.dead else 0) }
    ensures ends { IsWriting (status_of result) }
    ensures output { OutputStory O.tells O.taken O.faults (BoardSays opened.now.baseline.case symbols.now opened.now.board) out.old out.new (status_of result) }
{
    opened.baseline.facts();
    laws::of_board();
    write_board(alloc, opened, symbols, totals, out)?;
    Ok(())
}

/// Runs a case without a fault, and reports what its campaign file keeps by these functions and objects of its
/// image, in their order: for each symbol the number of its sites with each outcome, and then the totals. Only
/// reads the file.
pub fn symbols<D: Disk, O: Sink>(
    alloc: Global,
    case: &Case,
    symbols: &[Symbol<'_>],
    disk: &mut D,
    out: &mut O,
) -> Answer
    ensures cause { IsKeepCause D.tells false no_job (content (D.past disk.old)) case.now (status_of result) }
    ensures output { OutputStory (D.tells × O.tells) O.taken O.faults
        (SymbolsSays symbols.now (content (D.past disk.old)) case.now) out.old out.new (status_of result) }
    ensures keeps { IsCaused (is_keep_fault (status_of result)) (D.faults disk.old) (D.faults disk.new) }
    ensures read { D.tells → D.past disk.new ≡ D.past disk.old }
{
    let opened = Opened::look_at(alloc, case, disk)?;
    match whole_totals(opened.baseline.list(), &opened.board) {
        Ok(totals) => {
            let answer = symbols_board(alloc, &opened, symbols, &totals, out);
            drop(opened);
            answer
        }
        Err(failure) => {
            drop(opened);
            Err(failure)
        }
    }
}
