//! Filling the queue with a page, and gathering the page.
ghost use Rattle.std.specs.Prelude.{◌≡◌, ◌+◌, ◌<◌, ◌≤◌, [], ◌++◌, length, take, drop, List, ℕ, IsPermutation};
ghost use Rattle.crossbeam_queue.specs.Passes.{view, IsPassOf, IsSamePass};
ghost use Rattle.job_queue.specs.Pages.{view_of, all_parts, pushed, MayPush, AreDistinct, IsEmptyAt, HasSame};
ghost use Rattle.job_queue.specs.Hands.{page_size_of, hands_of, filler_view, IsFillerOf, IsSettledFiller};

use crate::rule::{Anew, Gathering, Item, Pushing, Token};
use crate::{Filler, Gathered, Jobs};
use std::sync::Wait;

impl Jobs {
    // Pushes to a queue that has room.
    fn put<R: Wait>(&self, rt: &R, token: &mut Token, item: Item)
        requires queue { IsPassOf self.now.queue token.old }
        requires whole { ((view token.old).parts ≡ all_parts) × ((view token.old).claims ≡ []) }
        requires item { MayPush (view token.old) item }
        requires room { length (view token.old).page + (view token.old).due < self.now.page + self.now.hands }
        ensures queue { IsSamePass token.old token.new }
        ensures view { view token.new ≡ pushed (view token.old) item }
    {
        match self.queue.push_as::<Pushing, R>(rt, token, item) {
            Ok(()) => {}
            Err(_) => unreachable!(),
        }
    }

    // Begins a page: pushes its numbers, and a mark for each hand.
    fn put_all<R: Wait>(&self, rt: &R, token: &mut Token, numbers: &[u32])
        requires queue { IsPassOf self.now.queue token.old }
        requires settled { ((view token.old).parts ≡ all_parts) × ((view token.old).due ≡ 0) × HasSame (view token.old).page (view token.old).claims }
        requires apart { AreDistinct numbers.now }
        requires page { length numbers.now ≤ page_size_of self.now }
        ensures queue { IsSamePass token.old token.new }
        ensures view { view token.new ≡ view_of all_parts numbers.now [] 0 (hands_of self.now) }
    {
        let _spare = self.queue.another::<Anew>(token);
        for number in numbers {
            self.put(rt, token, Item::Number(*number));
        }
        for _i in 0..self.hands {
            self.put(rt, token, Item::End);
        }
    }

    /// Fills the queue with a page of different numbers. All of the last page must have been gathered.
    pub fn fill<R: Wait>(&self, rt: &R, filler: &mut Filler, numbers: &[u32])
        requires filler { IsFillerOf self.now filler.old × IsSettledFiller filler.old }
        requires apart { AreDistinct numbers.now }
        requires page { length numbers.now ≤ page_size_of self.now }
        ensures filler { IsFillerOf self.now filler.new }
        ensures filled { filler_view filler.new ≡ view_of all_parts numbers.now [] 0 (hands_of self.now) }
    {
        self.put_all(rt, &mut filler.token, numbers);
        filler.len = numbers.len() as u32;
    }

    // Takes everything that is left, and counts the numbers.
    fn take_rest<R: Wait>(&self, rt: &R, token: &mut Token, len: u32) -> u32
        requires queue { IsPassOf self.now.queue token.old }
        requires whole { (view token.old).parts ≡ all_parts }
        requires len { length (view token.old).page ≡ len }
        ensures queue { IsSamePass token.old token.new }
        ensures whole { ((view token.new).parts ≡ all_parts) × ((view token.new).due ≡ 0) × ((view token.new).page ≡ (view token.old).page) }
        ensures all { HasSame (view token.new).page (view token.new).claims }
        ensures rest { (rest : List ℕ) × ((view token.new).claims ≡ (view token.old).claims ++ rest) × (length rest ≡ result) }
        ensures behind { (view token.new).claims ≡ (view token.old).claims ++ drop (length (view token.old).claims) (view token.old).page }
        ensures empty { IsEmptyAt (view token.new) }
        ensures early { 0 < (view token.old).marks → result ≡ 0 }
    {
        let mut left = 0;
        for _ in rt.forever() {
            match self.queue.pop_as::<Gathering, R>(rt, token) {
                Some(Item::Number(_)) => left += 1,
                Some(Item::End) => {}
                None => return left,
            }
        }
        unreachable!()
    }

    /// Establishes that the claims of the hands and what is left in the queue are the page: the hands claimed
    /// its first numbers, and the others are left in order. Empties the queue.
    pub fn gather<R: Wait>(&self, rt: &R, filler: &mut Filler) -> Gathered
        requires filler { IsFillerOf self.now filler.old }
        requires back { (filler_view filler.old).parts ≡ all_parts }
        ensures filler { IsFillerOf self.now filler.new × IsSettledFiller filler.new }
        ensures page { (filler_view filler.new).page ≡ (filler_view filler.old).page }
        ensures rest { (rest : List ℕ) × ((filler_view filler.new).claims ≡ (filler_view filler.old).claims ++ rest) × (length rest ≡ result.left) }
        ensures first { HasSame (take result.claimed (filler_view filler.old).page) (filler_view filler.old).claims }
        ensures behind { (filler_view filler.new).claims ≡ (filler_view filler.old).claims ++ drop result.claimed (filler_view filler.old).page }
        ensures empty { IsEmptyAt (filler_view filler.new) }
        ensures permutation { IsPermutation (filler_view filler.old).page (filler_view filler.new).claims }
        ensures claimed { result.claimed ≡ length (filler_view filler.old).claims }
        ensures sum { result.claimed + result.left ≡ length (filler_view filler.old).page }
        ensures left { 0 < (filler_view filler.old).marks → result.left ≡ 0 }
    {
        let left = self.take_rest(rt, &mut filler.token, filler.len);
        Gathered {
            claimed: filler.len - left,
            left,
        }
    }
}
