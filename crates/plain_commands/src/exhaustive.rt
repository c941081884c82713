//! Running all sites of a case, each separately from the first instruction.
ghost use Rattle.std.specs.Prelude.{◌≡◌, ◌+◌, ◌*◌, ◌^◌, ◌<◌, ◌≤◌, length, IfOk};
ghost use Rattle.fs_model.specs.declared.outcomes.Outcome.{Outcome};
ghost use Rattle.fs_model.specs.Cell.{IsCell, end_of_cells};
ghost use Rattle.fs_model.specs.Map.{max_ram};
ghost use Rattle.fs_model.specs.Outcome.{sum_of, total_at, count};
ghost use Rattle.fs_model.specs.Site.{cell_sites, cycle_sites, sites_of};
ghost use Rattle.golden_trace.specs.Goldens.{IsGolden};
ghost use Rattle.plain_commands.specs.Counting.{AddsOutcomes};

use experiment::run_site_plain;
use fs_model::{Case, NoMemory, Site, Totals, bits, end_of_cells, first_cell};
use golden_trace::Golden;
use rv_machine::Machine;
use std::alloc::Global;

// Counts the sites of a cell at a cycle.
fn count_cell(
    case: &Case,
    golden: &Golden,
    machine: &mut Machine,
    totals: &mut Totals,
    cycle: u32,
    cell: u32,
)
    requires golden { IsGolden case.now golden.now }
    requires machine { machine.old.case ≡ case.now }
    requires cycle { cycle < length golden.now.touches }
    requires cell { IsCell case.now cell }
    requires room { sum_of totals.old + 32 < 2 ^ 64 }
    ensures counts { AddsOutcomes case.now (cell_sites cycle cell) totals.old totals.new }
    ensures few { sum_of totals.new ≤ sum_of totals.old + 32 }
    ensures case { machine.new.case ≡ case.now }
{
    for bit in 0..bits(cell) {
        let outcome = run_site_plain(case, golden, machine, &Site { cycle, cell, bit });
        totals.add(outcome, 1);
    }
}

// Counts the sites of all cells at a cycle.
fn count_cycle(case: &Case, golden: &Golden, machine: &mut Machine, totals: &mut Totals, cycle: u32)
    requires golden { IsGolden case.now golden.now }
    requires machine { machine.old.case ≡ case.now }
    requires cycle { cycle < length golden.now.touches }
    requires room { sum_of totals.old + 32 * end_of_cells max_ram < 2 ^ 64 }
    ensures counts { AddsOutcomes case.now (cycle_sites case.now.pc_cell (length case.now.ram) cycle) totals.old totals.new }
    ensures few { sum_of totals.new ≤ sum_of totals.old + 32 * end_of_cells max_ram }
    ensures case { machine.new.case ≡ case.now }
{
    case.facts();
    let first = first_cell(case.pc_cell());
    let end = end_of_cells(case.ram().len() as u32);
    for cell in first..end {
        count_cell(case, golden, machine, totals, cycle, cell);
    }
}

/// Returns the number of sites with each outcome, by a run of each from the first instruction.
pub(crate) fn count_sites(alloc: Global, case: &Case, golden: &Golden) -> Result<Totals, NoMemory>
    requires { IsGolden case.now golden.now }
    ensures counts { IfOk result (λ totals. (o : Outcome) → total_at totals o ≡ count case.now o) }
    ensures sum { IfOk result (λ totals. sum_of totals ≡ length (sites_of case.now)) }
{
    let mut machine = Machine::new(alloc, case)?;
    let mut totals = Totals::zero();
    for cycle in 0..golden.count() {
        count_cycle(case, golden, &mut machine, &mut totals, cycle);
    }
    Ok(totals)
}
