//! Jobs that have different outcomes on two boards.
ghost use Rattle.std.specs.Prelude.{◌≡◌, ◌<◌, length, IfSome, MatchOption};
ghost use Rattle.shard_merge.specs.Union.{Agree, AgreeAt, IsFirstApart, IsApart};

use def_use::Board;
use fs_model::Outcome;

/// The outcomes of one job on two boards.
#[derive(Clone, Copy, PartialEq, Eq, Debug)]
pub(crate) struct Disagreement {
    pub(crate) job: u32,
    pub(crate) kept: Outcome,
    pub(crate) other: Outcome,
}

// Returns the outcomes of a job if both boards have one and these differ.
fn differing(board: &Board, other: &Board, job: u32) -> Option<Disagreement>
    requires board { job < length board.now }
    requires other { job < length other.now }
    ensures agree { result ≡ None → AgreeAt board.now other.now job }
    ensures apart { IfSome result (λ found. IsApart board.now other.now found.job found.kept found.other) }
    ensures job { IfSome result (λ found. found.job ≡ job) }
{
    let Some(kept) = board.get(job) else {
        return None;
    };
    let Some(other) = other.get(job) else {
        return None;
    };
    if kept == other {
        return None;
    }
    Some(Disagreement { job, kept, other })
}

/// Returns the least job that has different outcomes on two boards.
pub(crate) fn find_disagreement(board: &Board, other: &Board) -> Option<Disagreement>
    requires { length other.now ≡ length board.now }
    ensures { MatchOption result (Agree board.now other.now) (λ found. IsFirstApart board.now other.now found.job found.kept found.other) }
{
    for job in 0..board.len() {
        if let Some(found) = differing(board, other, job) {
            return Some(found);
        }
    }
    None
}
