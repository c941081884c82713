//! The number of bits of the cells of each line, and the number of dead sites that follows from it.

ghost use Rattle.std.specs.Prelude.{◌≡◌, ℕ, Bool, ◌+◌, ◌-◌, ◌*◌, ◌<◌, ◌≤◌, ◌^◌, ◌==◌, All, if◌then◌else◌, length, slice_set, slice_index};
ghost use Rattle.fs_model.specs.declared.sites.Site.{Site};
ghost use Rattle.fs_model.specs.declared.outcomes.Outcome.{Outcome};
ghost use Rattle.fs_model.specs.AccessLog.{AccessLog};
ghost use Rattle.fs_model.specs.Job.{job_list};
ghost use Rattle.fs_model.specs.Map.{max_ram};
ghost use Rattle.fs_model.specs.Outcome.{added, same_outcome, sum_of, total_at};
ghost use Rattle.site_counts.specs.Counts.{bits_where, count_where, dead_where, spread, weight_where};
ghost use Rattle.site_counts.specs.Lines.{totals_at};

use crate::lines::{Lines, add_at};
use fs_model::{Outcome, Totals, bits, end_of_cells, first_cell};

// Adds to the bits of a line.
fn add_bits(sums: &mut [u32], line: usize, count: u8)
    requires line { line < length sums.old }
    requires room { slice_index sums.old line + count < 2 ^ 32 }
    ensures { sums.new ≡ slice_set sums.old line (slice_index sums.old line + count) }
{
    sums[line] += count as u32;
}

/// Adds up the bits of the cells of each line, for lines that depend only on the cell. `pc` says whether the pc
/// is a cell.
pub fn bits_by<L: Lines>(ram: u32, pc: bool, lines: &L, sums: &mut [u32])
    requires ram { ram ≤ max_ram }
    requires by_cell { (cycle cell : ℕ) → L.line lines.now cycle cell ≡ L.line lines.now 0 cell }
    requires count { length sums.old ≡ L.count lines.now }
    requires low { (cycle cell : ℕ) → L.line lines.now cycle cell < L.count lines.now }
    requires zeros { All (λ n. n ≡ 0) sums.old }
    ensures count { length sums.new ≡ L.count lines.now }
    ensures bits { (k : ℕ) → k < L.count lines.now → slice_index sums.new k ≡ bits_where (λ cell. L.line lines.now 0 cell == k) ram pc }
    // For each cycle and each bit a line has a site, which belongs to a job of the line or is dead.
    ensures whole { (l : AccessLog) → l.ram ≡ ram → l.pc ≡ pc → (k : ℕ) → k < L.count lines.now
        → weight_where (λ site. L.line lines.now site.cycle site.cell == k) (job_list l)
        + dead_where l (λ site. L.line lines.now site.cycle site.cell == k) ≡ l.cycles * slice_index sums.new k }
{
    for cell in first_cell(pc)..end_of_cells(ram) {
        let line = lines.line_of(0, cell);
        add_bits(sums, line, bits(cell));
    }
}

/// Adds to the totals of each line its dead sites: one site for each cycle and bit, less the weights of its
/// jobs.
pub fn add_dead(cycles: u32, bits: &[u32], totals: &mut [Totals])
    requires same { length bits.now ≡ length totals.old }
    requires within { (k : ℕ) → k < length totals.old → sum_of (totals_at totals.old k) ≤ cycles * slice_index bits.now k }
    ensures count { length totals.new ≡ length totals.old }
    ensures dead { (k : ℕ) → k < length totals.old
        → totals_at totals.new k ≡ added (totals_at totals.old k) Outcome.NoEffect (cycles * slice_index bits.now k - sum_of (totals_at totals.old k)) }
    // After `counts_by` and `bits_by`, they are the counts of all sites of the line, live and dead.
    ensures counts { (l : AccessLog) (outcomes : Site → Outcome) (test : Site → Bool) (k : ℕ) → k < length totals.old → l.cycles ≡ cycles
        → sum_of (totals_at totals.old k) ≡ weight_where test (job_list l)
        → weight_where test (job_list l) + dead_where l test ≡ l.cycles * slice_index bits.now k
        → ((o : Outcome) → total_at (totals_at totals.old k) o + (if same_outcome Outcome.NoEffect o then dead_where l test else 0)
        ≡ count_where l (spread l outcomes) test test o)
        → (o : Outcome) → total_at (totals_at totals.new k) o ≡ count_where l (spread l outcomes) test test o }
{
    for line in 0..totals.len() {
        let sites = cycles as u64 * bits[line] as u64;
        let dead = sites - totals[line].sum();
        add_at(totals, line, Outcome::NoEffect, dead);
    }
}
