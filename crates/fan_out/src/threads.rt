//! Threads whose creator starts them, and only waits for them.
//!
//! The library's own calls of this kind give a part of the work to the caller. But a system may start a new
//! thread on its creator's processor although others are idle, and moves it only at its next tick, some
//! milliseconds later, unless the creator sleeps meanwhile.
ghost use Rattle.std.specs.Prelude.{◌≡◌, ◌+◌, ◌^◌, ◌<◌, length};
ghost use Rattle.std.specs.Thread.{IsSend, IsSync};
ghost use Rattle.std.specs.Fork.{AcceptsAt, AcceptsEach, ChangesAt, ChangesEach};
ghost use Rattle.fan_out.specs.Places.{AreEach, ChangesAll};

use std::thread::{Threads, join_mut};

fn at_one<T, F: Fn(usize, &mut T)>(f: &F, place: usize, it: &mut T)
    requires { AcceptsAt F.Fn f.now place it.old }
    ensures { ChangesAt F.Fn f.now place it.old it.new }
{
    f(place, it);
}

fn at_first<T, F: Fn(usize, &mut T)>(f: &F, place: usize, first: &mut [T])
    requires one { length first.old ≡ 1 }
    requires accepts { AreEach (AcceptsAt F.Fn f.now) place first.old }
    ensures { ChangesAll (ChangesAt F.Fn f.now) place first.old first.new }
{
    at_one(f, place, &mut first[0]);
}

// Runs the first element in a new thread, or last if no thread can be made, and the others each in one of its
// own.
#[cycle(starting)]
fn start_first<R: Threads + Sync, T: Send, F: Fn(usize, &mut T) + Sync>(
    rt: &R,
    f: &F,
    place: usize,
    first: &mut [T],
    next: usize,
    others: &mut [T],
)
    requires one { length first.old ≡ 1 }
    requires room { next + length others.old < 2 ^ 64 }
    requires first { AreEach (AcceptsAt F.Fn f.now) place first.old }
    requires others { AreEach (AcceptsAt F.Fn f.now) next others.old }
    ensures first { ChangesAll (ChangesAt F.Fn f.now) place first.old first.new }
    ensures others { ChangesAll (ChangesAt F.Fn f.now) next others.old others.new }
{
    let mut work = ||
        requires { IsSync F.row × IsSend T.row × (length first.now ≡ 1) × AreEach (AcceptsAt F.Fn f.now) place first.now }
        ensures { ChangesAll (ChangesAt F.Fn f.entry.now) place first.entry.now first.exit.now }
    { at_first(f, place, first) };
    let mut start = ||
        requires { IsSync R.row × IsSync F.row × IsSend T.row × (next + length others.now < 2 ^ 64) × AreEach (AcceptsAt F.Fn f.now) next others.now }
        ensures { ChangesAll (ChangesAt F.Fn f.entry.now) next others.entry.now others.exit.now }
    { start_from(rt, f, next, others) };
    join_mut(rt, &mut work, &mut start);
}

// `place` is the index of the first element in the whole list. Each thread is started before the next one, and
// joined after it.
#[cycle(starting)]
fn start_from<R: Threads + Sync, T: Send, F: Fn(usize, &mut T) + Sync>(
    rt: &R,
    f: &F,
    place: usize,
    all: &mut [T],
)
    requires room { place + length all.old < 2 ^ 64 }
    requires accepts { AreEach (AcceptsAt F.Fn f.now) place all.old }
    ensures { ChangesAll (ChangesAt F.Fn f.now) place all.old all.new }
{
    if all.is_empty() {
        return;
    }
    let (first, others) = all.split_at_mut(1);
    start_first(rt, f, place, first, place + 1, others);
}

/// Calls `f(i, &mut all[i])` for each index, each call in a thread of its own. If no thread can be made, or for
/// a single element, the call is made on the caller's thread. The caller waits for all of them, with a stack
/// frame for each.
pub fn for_each_mut<R: Threads + Sync, T: Send, F: Fn(usize, &mut T) + Sync>(
    rt: &R,
    all: &mut [T],
    f: &F,
)
    requires few { length all.old < 2 ^ 64 }
    requires accepts { AcceptsEach F.Fn f.now all.old }

    // Each element at the end is what a call for its index left there.
    ensures { ChangesEach F.Fn f.now all.old all.new }
{
    if all.len() == 1 {
        at_first(f, 0, all);
    } else {
        start_from(rt, f, 0, all);
    }
}
