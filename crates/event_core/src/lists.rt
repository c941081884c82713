//! The lists of a state: tests of their content, and appending to them.

ghost use Rattle.std.specs.Prelude.{◌≡◌, ◌+◌, ◌≤◌, ◌<◌, ◌==◌, ◌∷◌, ◌++◌, [], IfSome, IsNone, true, filter, length, vec_len, vec_capacity};
ghost use Rattle.std.specs.List.{list_any};
ghost use Rattle.event_core.specs.declared.events.HeldJob.{HeldJob};
ghost use Rattle.event_core.specs.EventCore.{is_front, is_empty_hand, holds_job, times_listed, times_held, numbers_below};

use crate::events::HeldJob;

/// Returns whether the job is the first of the queue.
pub fn is_front(queue: &[u32], job: u32) -> bool
    ensures { result ≡ is_front queue.now job }
{
    match queue {
        [first, ..] => *first == job,
        [] => false,
    }
}

// Returns whether the worker has a job.
fn is_busy(hands: &[HeldJob], worker: u32) -> bool
    ensures { result ≡ list_any (λ (hand : HeldJob). hand.worker == worker) hands.now }
{
    hands.iter().any(|hand| hand.worker == worker)
}

/// Returns whether the worker has no job.
pub fn is_empty_hand(hands: &[HeldJob], worker: u32) -> bool
    ensures { result ≡ is_empty_hand hands.now worker }
{
    !is_busy(hands, worker)
}

/// Returns whether the worker has this job.
pub fn holds(hands: &[HeldJob], worker: u32, job: u32) -> bool
    ensures { result ≡ holds_job hands.now worker job }
{
    hands
        .iter()
        .any(|hand| hand.worker == worker && hand.job == job)
}

/// Returns a worker that has the job.
pub fn holder(hands: &[HeldJob], job: u32) -> Option<u32>
    ensures some { IfSome result (λ worker. holds_job hands.now worker job ≡ true) }
    ensures none { IsNone result → times_held job hands.now ≡ 0 }
{
    for hand in hands {
        if hand.job == job {
            return Some(hand.worker);
        }
    }
    None
}

/// Appends an item to a list that has room for it.
pub fn put<T: Drop>(list: &mut Vec<T>, item: T)
    requires { vec_len list.old < vec_capacity list.old }
    ensures items { list.new.items ≡ list.old.items ++ item ∷ [] }
    ensures room { vec_capacity list.old ≤ vec_capacity list.new }
{
    list.push(item).unwrap();
}

/// Appends numbers to a list that has room for them.
pub fn put_all(list: &mut Vec<u32>, numbers: &[u32])
    requires { vec_len list.old + length numbers.now ≤ vec_capacity list.old }
    ensures items { list.new.items ≡ list.old.items ++ numbers.now }
    ensures room { vec_capacity list.old ≤ vec_capacity list.new }
{
    list.extend_from_slice(numbers).unwrap();
}

/// Puts the jobs that are not kept into an empty queue with room for all, in ascending order.
pub fn queue_left(queue: &mut Vec<u32>, kept: &[u32], jobs: u32)
    requires empty { queue.old.items ≡ [] }
    requires room { jobs ≤ vec_capacity queue.old }
    ensures items { queue.new.items ≡ filter (λ job. times_listed job kept.now == 0) (numbers_below jobs) }
    ensures room { vec_capacity queue.old ≤ vec_capacity queue.new }
{
    for job in 0..jobs {
        if !kept.contains(&job) {
            put(queue, job);
        }
    }
}
