//! Counts by function and object, for the symbols of an image.

ghost use Rattle.std.specs.Prelude.{◌≡◌, ◌+◌, Err, IfOk, length};
ghost use Rattle.fs_model.specs.AccessLog.{log};
ghost use Rattle.fs_model.specs.Job.{jobs_of};
ghost use Rattle.def_use.specs.Board.{HasOutcomeBelow};
ghost use Rattle.fs_outside.specs.Faults.{HasCause, IsCaused};
ghost use Rattle.fs_outside.specs.Writing.{Writes};
ghost use Rattle.report.specs.Refusal.{is_failed};
ghost use Rattle.report.specs.SymbolLines.{both_text, AreTotals};
ghost use Rattle.report.specs.Symbols.{symbols_text, ArePcs};

use crate::refusal::ReportRefusal;
use crate::symbol_counts::{function_totals, object_totals};
use crate::symbol_lines::write_group;
use def_use::{Board, JobList};
use elf_symbols::Symbol;
use fs_model::{Case, NoMemory, Totals};
use fs_outside::{Failed, Sink};
use std::alloc::Global;

/// The least number of symbols for which the numbers of the lines may not fit 32 bits.
const TOO_MANY: usize = 0xffff_fffe;

// The totals of each line: of functions, and of objects.
#[derive(Drop)]
struct Counts {
    functions: Vec<Totals>,
    objects: Vec<Totals>,
}

fn counts_of(
    alloc: Global,
    case: &Case,
    pcs: &[u32],
    list: &JobList,
    board: &Board,
    symbols: &[Symbol<'_>],
) -> Result<Counts, NoMemory>
    requires list { list.now ≡ jobs_of (log case.now) }
    requires pcs { ArePcs case.now pcs.now }
    requires same { length board.now ≡ length list.now.list }
    requires whole { HasOutcomeBelow board.now (length board.now) }
    ensures { IfOk result (λ counts. AreTotals case.now board.now symbols.now counts.functions.items counts.objects.items) }
{
    if symbols.len() >= TOO_MANY {
        return Err(NoMemory);
    }
    case.facts();
    let instructions = pcs.len() as u32;
    let functions = function_totals(alloc, case, pcs, list, board, symbols)?;
    let objects = object_totals(alloc, case, instructions, list, board, symbols)?;
    Ok(Counts { functions, objects })
}

// Writes the lines of functions, and those of objects.
fn write_groups<O: Sink>(
    out: &mut O,
    symbols: &[Symbol<'_>],
    functions: &[Totals],
    objects: &[Totals],
) -> Result<(), Failed>
    requires functions { length functions.now ≡ length symbols.now + 2 }
    requires objects { length objects.now ≡ length symbols.now + 2 }
    ensures bytes { O.tells → Writes (O.taken out.old) (O.taken out.new) (both_text symbols.now functions.now objects.now) result }
    ensures cause { HasCause (O.faults out.old) (O.faults out.new) result }
{
    write_group(out, true, "function", "(dead)", symbols, functions)?;
    write_group(out, false, "object", "(registers)", symbols, objects)
}

/// Writes for each function the number of its sites with each outcome, where a live site belongs to the
/// instruction of its job, and then for each object, by the byte that is hit.
///
/// `pcs` has the addresses of the golden run's instructions. The board has an outcome for each job.
///
/// # Errors
///
/// `Failed` if the sink fails. `NoMemory` if memory for the counts is refused, and then nothing is written.
pub fn write_symbols<O: Sink>(
    alloc: Global,
    out: &mut O,
    case: &Case,
    pcs: &[u32],
    list: &JobList,
    board: &Board,
    symbols: &[Symbol<'_>],
) -> Result<(), ReportRefusal>
    requires list { list.now ≡ jobs_of (log case.now) }
    requires pcs { ArePcs case.now pcs.now }
    requires same { length board.now ≡ length list.now.list }
    requires whole { HasOutcomeBelow board.now (length board.now) }
    ensures bytes { O.tells → Writes (O.taken out.old) (O.taken out.new) (symbols_text case.now board.now symbols.now) result }
    ensures cause { IsCaused (is_failed result) (O.faults out.old) (O.faults out.new) }
    ensures nothing { result ≡ Err ReportRefusal.NoMemory → out.new ≡ out.old }
{
    let Ok(counts) = counts_of(alloc, case, pcs, list, board, symbols) else {
        return Err(ReportRefusal::NoMemory);
    };
    match write_groups(out, symbols, &counts.functions, &counts.objects) {
        Ok(()) => Ok(()),
        Err(Failed) => Err(ReportRefusal::Failed),
    }
}
