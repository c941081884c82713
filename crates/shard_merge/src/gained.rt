//! The jobs that another board has and this one lacks, with their rows.
ghost use Rattle.std.specs.Prelude.{All, ◌≡◌, ◌+◌, ◌<◌, ◌≤◌, Some, ◌∷◌, length, take, drop, slice_get, vec_capacity};
ghost use Rattle.def_use.specs.Board.{place_at};
ghost use Rattle.def_use.specs.Rows.{rows_of};
ghost use Rattle.result_keeper.specs.Boards.{IsOnce};
ghost use Rattle.shard_merge.specs.Gained.{gain, gained, gained_behind, outcome_on};

use def_use::{Board, JobList};
use fs_model::{Job, Outcome, Row};

/// A job that one board gains from another, by number, with its outcome there.
#[derive(Clone, Copy, PartialEq, Eq, Debug)]
struct Gained {
    number: u32,
    outcome: Outcome,
}

// Returns the other board's outcome of a job that is blank here.
fn gained_at(board: &Board, other: &Board, number: u32) -> Option<Outcome>
    requires board { number < length board.now }
    requires other { number < length other.now }
    ensures { result ≡ gain (place_at board.now number) (place_at other.now number) }
{
    match board.get(number) {
        None => other.get(number),
        Some(_) => None,
    }
}

/// Returns the number of jobs that one board gains from another.
pub(crate) fn count_gained(board: &Board, other: &Board) -> u32
    requires { length other.now ≡ length board.now }
    ensures { result ≡ length (gained board.now other.now) }
{
    let mut count = 0;
    for number in 0..board.len() {
        if gained_at(board, other, number).is_some() {
            count += 1;
        }
    }
    count
}

// Returns the next job from `from` on that the board gains, if there is one.
fn next_gained(board: &Board, other: &Board, from: u32) -> Gained
    requires long { length other.now ≡ length board.now }
    requires there { 0 < length (gained_behind from board.now other.now) }
    ensures number { gained_behind from board.now other.now ≡ result.number ∷ gained_behind (result.number + 1) board.now other.now }
    ensures outcome { slice_get other.now result.number ≡ Some (Some result.outcome) }
    ensures within { result.number < length board.now }
    ensures low { from ≤ result.number }
{
    for number in from..board.len() {
        if let Some(outcome) = gained_at(board, other, number) {
            return Gained { number, outcome };
        }
    }
    unreachable!()
}

// Returns the row of a job with this outcome.
fn row_with(job: Job, outcome: Outcome) -> Row
    ensures { result ≡ record { cycle = job.cycle; cell = job.cell; bit = job.bit; outcome = outcome } }
{
    Row {
        cycle: job.cycle,
        cell: job.cell,
        bit: job.bit,
        outcome,
    }
}

/// Collects the rows of the next `count` jobs from `from` on that the board gains, and returns the number from
/// which the search for later ones continues.
pub(crate) fn next_rows(
    board: &Board,
    other: &Board,
    list: &JobList,
    from: u32,
    count: u32,
    rows: &mut Vec<Row>,
) -> u32
    requires board { length board.now ≡ length list.now.list }
    requires other { length other.now ≡ length list.now.list }
    requires once { IsOnce list.now.list }
    requires there { count ≤ length (gained_behind from board.now other.now) }
    requires room { count ≤ vec_capacity rows.old }
    ensures rows { rows.new.items ≡ rows_of (outcome_on list.now.list other.now) list.now.list (take count (gained_behind from board.now other.now)) }
    ensures behind { gained_behind result board.now other.now ≡ drop count (gained_behind from board.now other.now) }
    ensures below { All (λ number. number < result) (take count (gained_behind from board.now other.now)) }
    ensures room { vec_capacity rows.new ≡ vec_capacity rows.old }
{
    // This call gives the proof that the numbers of a board's places fit 32 bits.
    let _ = board.len();
    rows.clear();
    let mut walk = list.walk();
    let mut next = from;
    for _i in 0..count {
        let found = next_gained(board, other, next);
        let job = walk.get(found.number);
        rows.push_reserved(row_with(job, found.outcome));
        next = found.number + 1;
    }
    next
}
