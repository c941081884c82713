//! The totals of the jobs by line.

ghost use Rattle.std.specs.Prelude.{◌≡◌, ℕ, Bool, ◌+◌, ◌<◌, ◌^◌, ◌==◌, All, if◌then◌else◌, length, slice_set, slice_index_or, sum_by};
ghost use Rattle.fs_model.specs.declared.sites.Site.{Site};
ghost use Rattle.fs_model.specs.declared.outcomes.Outcome.{Outcome};
ghost use Rattle.fs_model.specs.AccessLog.{AccessLog};
ghost use Rattle.fs_model.specs.Filling.{board_total};
ghost use Rattle.fs_model.specs.Job.{jobs_of, HasOutcomes};
ghost use Rattle.fs_model.specs.Outcome.{same_outcome, sum_of, total_at, no_totals, added};
ghost use Rattle.def_use.specs.Board.{HasOutcomeBelow};
ghost use Rattle.site_counts.specs.Counts.{count_where, dead_where, spread, weight_where};
ghost use Rattle.site_counts.specs.Lines.{totals_at};

use def_use::{Board, JobList};
use fs_model::{Outcome, Totals, bits};

/// Assigns a line to each job, by its cycle and its cell.
pub trait Lines {
    ghost use Rattle.std.specs.Prelude.{◌≡◌, ◌<◌, ℕ};

    /// The number of lines.
    ghost count: { Self → ℕ };

    ghost line: { Self → ℕ → ℕ → ℕ };

    fn line_of(&self, cycle: u32, cell: u32) -> usize
        ensures { result ≡ line self.now cycle cell };
}

/// Adds a weight to the total of an outcome on a line.
pub(crate) fn add_at(totals: &mut [Totals], line: usize, outcome: Outcome, weight: u64)
    requires line { line < length totals.old }
    requires room { sum_of (totals_at totals.old line) + weight < 2 ^ 64 }
    ensures { totals.new ≡ slice_set totals.old line (added (totals_at totals.old line) outcome weight) }
{
    totals[line].add(outcome, weight);
}

/// Adds the weights of all jobs to the totals of their lines, by the outcomes of a complete board.
pub fn counts_by<L: Lines>(list: &JobList, board: &Board, lines: &L, totals: &mut [Totals])
    requires same { length board.now ≡ length list.now.list }
    requires whole { HasOutcomeBelow board.now (length board.now) }
    requires count { length totals.old ≡ L.count lines.now }
    requires low { (cycle cell : ℕ) → L.line lines.now cycle cell < L.count lines.now }
    requires zeros { All (λ t. t ≡ no_totals) totals.old }
    ensures count { length totals.new ≡ L.count lines.now }
    // Each line has the weights of its jobs.
    ensures sum { (k : ℕ) → k < L.count lines.now
        → sum_of (totals_at totals.new k) ≡ weight_where (λ site. L.line lines.now site.cycle site.cell == k) list.now.list }
    // With the dead sites of a line they are the counts of its sites.
    ensures counts { (l : AccessLog) (outcomes : Site → Outcome) → list.now ≡ jobs_of l → HasOutcomes outcomes list.now.list board.now
        → (k : ℕ) → k < L.count lines.now → (still : Site → Bool) (o : Outcome)
        → total_at (totals_at totals.new k) o + (if same_outcome Outcome.NoEffect o then dead_where l still else 0)
        ≡ count_where l (spread l outcomes) (λ site. L.line lines.now site.cycle site.cell == k) still o }
    // All lines together are the weights on the board.
    ensures whole { (o : Outcome) → sum_by (λ t. total_at t o) totals.new ≡ board_total list.now.list board.now o }
{
    // This call gives the proof that the sum of all weights fits 64 bits.
    let _ = list.dead_weight();
    let reads = list.reads();
    let mut first = 0;
    for read in reads {
        let end = first + bits(read.cell) as u32;
        let line = lines.line_of(read.cycle, read.cell);
        for number in first..end {
            match board.get(number) {
                Some(outcome) => add_at(totals, line, outcome, read.weight as u64),
                None => unreachable!(),
            }
        }
        first = end;
    }
}
