//! The next page: the numbers of the jobs of a portion that are missing on a board.
ghost use Rattle.std.specs.Prelude.{All, ◌≡◌, ◌<◌, ◌≤◌, ◌+◌, ◌∷◌, length, take, drop, vec_capacity};
ghost use Rattle.job_queue.specs.Pages.{AreDistinct};
ghost use Rattle.campaign.specs.Portions.{due, due_behind, in_portion};

use crate::portion::Portion;
use def_use::{Board, JobList, Walk};

// Counts the missing jobs of the portion by a test of each missing job.
fn count_each(board: &Board, list: &JobList, portion: &Portion<'_>) -> u32
    requires { length board.now ≡ length list.now.list }
    ensures { result ≡ length (due (in_portion portion.now list.now.list) board.now) }
{
    // This call gives the proof that the numbers of a board's places fit 32 bits.
    let _ = board.len();
    let mut walk = list.walk();
    let mut count = 0;
    let mut from = 0;
    'counting: while let Some(number) = board.next_missing(from) {
        if portion.has(&mut walk, number) {
            count += 1;
        }
        from = number + 1;
    }
    count
}

/// Returns the number of missing jobs of the portion.
pub(crate) fn count_due(board: &Board, list: &JobList, portion: &Portion<'_>) -> u32
    requires { length board.now ≡ length list.now.list }
    ensures { result ≡ length (due (in_portion portion.now list.now.list) board.now) }
{
    if portion.has_all() {
        return board.len() - board.kept();
    }
    count_each(board, list, portion)
}

// Returns the least number from `from` on whose job is missing and in the portion.
fn next_number(board: &Board, walk: &mut Walk<'_>, portion: &Portion<'_>, from: u32) -> u32
    requires same { length board.now ≡ length walk.old.list }
    requires there { 0 < length (due_behind (in_portion portion.now walk.old.list) from board.now) }
    ensures number { due_behind (in_portion portion.now walk.old.list) from board.now
        ≡ result ∷ due_behind (in_portion portion.now walk.old.list) (result + 1) board.now }
    ensures within { result < length board.now }
    ensures low { from ≤ result }
    ensures walk { walk.new ≡ walk.old }
{
    // This call gives the proof that the numbers of a board's places fit 32 bits.
    let _ = board.len();
    let mut at = from;
    'search: loop {
        match board.next_missing(at) {
            Some(number) => {
                if portion.has(walk, number) {
                    return number;
                }
                at = number + 1;
            }
            None => unreachable!(),
        }
    }
}

/// Finds the next `count` missing jobs of the portion from `from` on, and returns the number from which the search
/// for later ones continues.
pub(crate) fn next_numbers(
    board: &Board,
    list: &JobList,
    portion: &Portion<'_>,
    from: u32,
    count: u32,
    numbers: &mut Vec<u32>,
) -> u32
    requires same { length board.now ≡ length list.now.list }
    requires there { count ≤ length (due_behind (in_portion portion.now list.now.list) from board.now) }
    requires room { count ≤ vec_capacity numbers.old }
    ensures numbers { numbers.new.items ≡ take count (due_behind (in_portion portion.now list.now.list) from board.now) }
    ensures behind { due_behind (in_portion portion.now list.now.list) result board.now
        ≡ drop count (due_behind (in_portion portion.now list.now.list) from board.now) }
    ensures jobs { All (λ number. number < length board.now) numbers.new.items }
    ensures apart { AreDistinct numbers.new.items }
    ensures room { vec_capacity numbers.new ≡ vec_capacity numbers.old }
{
    // This call gives the proof that the numbers of a board's places fit 32 bits.
    let _ = board.len();
    numbers.clear();
    let mut walk = list.walk();
    let mut next = from;
    for _i in 0..count {
        let number = next_number(board, &mut walk, portion, next);
        numbers.push_reserved(number);
        next = number + 1;
    }
    next
}
