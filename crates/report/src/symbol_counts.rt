//! The totals of the lines of functions and of objects.

ghost use Rattle.std.specs.Prelude.{◌≡◌, ℕ, ◌+◌, ◌<◌, ◌^◌, All, IfOk, if◌then◌else◌, length};
ghost use Rattle.fs_model.specs.declared.outcomes.Outcome.{Outcome};
ghost use Rattle.fs_model.specs.AccessLog.{log};
ghost use Rattle.fs_model.specs.Job.{jobs_of};
ghost use Rattle.fs_model.specs.Outcome.{no_totals, same_outcome, total_at};
ghost use Rattle.fs_model.specs.Run.{cycles};
ghost use Rattle.def_use.specs.Board.{HasOutcomeBelow};
ghost use Rattle.report.specs.SymbolLines.{AreCounts};
ghost use Rattle.report.specs.Symbols.{board_outcomes, function_counts, object_counts, ArePcs};

use crate::symbol_tables::{cell_lines, function_lines};
use def_use::{Board, JobList};
use elf_symbols::Symbol;
use fs_model::{Case, NoMemory, Outcome, Totals};
use site_counts::{Table, add_dead, bits_by, counts_by};
use std::alloc::Global;

// Returns totals of 0 for `count` lines.
fn no_counts(alloc: Global, count: usize) -> Result<Vec<Totals>, NoMemory>
    ensures count { IfOk result (λ totals. length totals.items ≡ count) }
    ensures zeros { IfOk result (λ totals. All (λ t. t ≡ no_totals) totals.items) }
{
    let mut totals = Vec::with_capacity(alloc, count)?;
    for _ in 0..count {
        totals.push(Totals::zero())?;
    }
    Ok(totals)
}

// Returns the totals of all dead sites, which have no effect.
fn dead_totals(list: &JobList) -> Totals
    ensures { (o : Outcome) → total_at result o ≡ (if same_outcome Outcome.NoEffect o then list.now.dead else 0) }
{
    let mut totals = Totals::zero();
    totals.add(Outcome::NoEffect, list.dead_weight());
    totals
}

/// Returns the totals of the lines of functions.
pub(crate) fn function_totals(
    alloc: Global,
    case: &Case,
    pcs: &[u32],
    list: &JobList,
    board: &Board,
    symbols: &[Symbol<'_>],
) -> Result<Vec<Totals>, NoMemory>
    requires few { length symbols.now + 2 < 2 ^ 32 }
    requires list { list.now ≡ jobs_of (log case.now) }
    requires pcs { ArePcs case.now pcs.now }
    requires same { length board.now ≡ length list.now.list }
    requires whole { HasOutcomeBelow board.now (length board.now) }
    ensures { IfOk result (λ totals. AreCounts symbols.now (function_counts case.now (board_outcomes case.now board.now) symbols.now) totals.items) }
{
    let lines = function_lines(alloc, case, pcs, symbols)?;
    let table = Table {
        lines: &lines,
        last: symbols.len() as u32 + 1,
        by_cell: false,
    };
    table.facts();
    let mut totals = no_counts(alloc, symbols.len() + 2)?;
    counts_by(list, board, &table, &mut totals);
    totals[symbols.len() + 1] = dead_totals(list);
    Ok(totals)
}

/// Returns the totals of the lines of objects.
pub(crate) fn object_totals(
    alloc: Global,
    case: &Case,
    instructions: u32,
    list: &JobList,
    board: &Board,
    symbols: &[Symbol<'_>],
) -> Result<Vec<Totals>, NoMemory>
    requires few { length symbols.now + 2 < 2 ^ 32 }
    requires list { list.now ≡ jobs_of (log case.now) }
    requires instructions { instructions ≡ cycles case.now }
    requires same { length board.now ≡ length list.now.list }
    requires whole { HasOutcomeBelow board.now (length board.now) }
    ensures { IfOk result (λ totals. AreCounts symbols.now (object_counts case.now (board_outcomes case.now board.now) symbols.now) totals.items) }
{
    let map = case.map();
    map.facts();
    let lines = cell_lines(alloc, case, symbols)?;
    let table = Table {
        lines: &lines,
        last: symbols.len() as u32 + 1,
        by_cell: true,
    };
    table.facts();
    let mut totals = no_counts(alloc, symbols.len() + 2)?;
    let mut bits = vec![in alloc; 0; symbols.len() + 2]?;
    counts_by(list, board, &table, &mut totals);
    bits_by(map.ram_size(), case.pc_cell(), &table, &mut bits);
    add_dead(instructions, &bits, &mut totals);
    Ok(totals)
}
