//! Giving out a hand, claiming with it, and taking it back.
ghost use Rattle.std.specs.Prelude.{◌≡◌, ◌+◌, ◌<◌, ◌≤◌, ◌↔◌, true, [], ◌∷◌, ◌++◌, length, IfSome, IfNone, IsNone, MatchOption, Contains};
ghost use Rattle.crossbeam_queue.specs.Passes.{view, IsPassOf, IsSamePass};
ghost use Rattle.job_queue.specs.declared.rule.Item.TheVariants.{Number, End};
ghost use Rattle.job_queue.specs.Pages.{all_parts, spent, popped, AreDistinct, IsBehind, IsWithin, lender, handed, views_merged, IsClaim};
ghost use Rattle.job_queue.specs.Hands.{filler_view, hand_view, IsFillerOf, IsHandOf, claims_of, IsOut, has_ended};

use crate::rule::{Claiming, Counting, Idle, Item, Lent, Token};
use crate::{Filler, Hand, Jobs};
use std::mem;
use std::sync::Wait;

impl Jobs {
    /// Gives out the hand, with no claims and a mark that is still due to it.
    pub fn hand_out(&self, filler: &mut Filler, hand: &mut Hand)
        requires filler { IsFillerOf self.now filler.old × (0 < (filler_view filler.old).due) }
        requires hand { IsHandOf self.now hand.old × (hand_view hand.old ≡ spent) }
        ensures filler { IsFillerOf self.now filler.new × (filler_view filler.new ≡ lender (filler_view filler.old)) }
        ensures hand { IsHandOf self.now hand.new × (hand_view hand.new ≡ handed (filler_view filler.old)) }
        ensures claims { claims_of hand.new ≡ [] }
    {
        hand.claims.clear();
        hand.token = self.queue.another::<Lent>(&mut filler.token);
        hand.active = true;
    }

    /// Takes back the hand. Its claims stay.
    pub fn take_back(&self, filler: &mut Filler, hand: &mut Hand)
        requires filler { IsFillerOf self.now filler.old }
        requires hand { IsHandOf self.now hand.old × IsOut hand.old }
        ensures filler { IsFillerOf self.now filler.new × (filler_view filler.new ≡ views_merged (filler_view filler.old) (hand_view hand.old)) }
        ensures hand { IsHandOf self.now hand.new × (hand_view hand.new ≡ spent) }
        ensures claims { (claims_of hand.new ≡ claims_of hand.old) × ((filler_view filler.new).claims ≡ (filler_view filler.old).claims ++ claims_of hand.old) }
        ensures marks { has_ended hand.old ≡ true → (filler_view filler.new).marks ≡ (filler_view filler.old).marks + 1 }
        ensures parts { (filler_view filler.new).parts ≤ all_parts }
    {
        let spare = self.queue.another::<Idle>(&mut filler.token);
        let token = mem::replace(&mut hand.token, spare);
        hand.active = false;
        self.queue.absorb::<Lent>(&mut filler.token, token);
        self.queue.learn_as::<Counting>(&mut filler.token);
    }

    /// Claims the number at the front of the queue. In the page it comes after all earlier claims of the hand,
    /// and `gather` states that all hands together claimed the first numbers of the page. Returns `None` if the
    /// hand has ended or takes its mark.
    pub fn claim<R: Wait>(&self, rt: &R, hand: &mut Hand) -> Option<u32>
        requires { IsHandOf self.now hand.old }
        ensures hand { IsHandOf self.now hand.new × ((hand_view hand.new).page ≡ (hand_view hand.old).page)
            × ((hand_view hand.new).parts ≡ (hand_view hand.old).parts) }
        ensures claims { IfSome result (λ n. claims_of hand.new ≡ claims_of hand.old ++ n ∷ []) }
        ensures front { IfSome result (IsBehind (claims_of hand.old) (hand_view hand.new).page) }
        ensures of_page { IfSome result (λ n. Contains (hand_view hand.new).page n) }
        ensures within { IfSome result (λ n. IsWithin (claims_of hand.new) (hand_view hand.new).page) }
        ensures none { IfNone result (claims_of hand.new ≡ claims_of hand.old) }
        ensures ended { IsNone result ↔ (has_ended hand.new ≡ true) }
        ensures idle { has_ended hand.old ≡ true → hand_view hand.new ≡ hand_view hand.old }

        // A hand that was given out has its mark once it claims no more.
        ensures mark { IfNone result ((hand_view hand.new).marks ≡ (hand_view hand.new).parts) }
    {
        if !hand.active {
            return None;
        }
        match self.take(rt, &mut hand.token) {
            Some(number) => {
                hand.claims.push_reserved(number);
                Some(number)
            }
            None => {
                hand.active = false;
                None
            }
        }
    }

    // Takes the number at the front, or `None` for a mark, which is due to the pass.
    fn take<R: Wait>(&self, rt: &R, token: &mut Token) -> Option<u32>
        requires queue { IsPassOf self.now.queue token.old }
        requires part { 0 < (view token.old).parts }
        requires due { 0 < (view token.old).due }
        ensures queue { IsSamePass token.old token.new }
        ensures view { MatchOption result (view token.new ≡ popped (view token.old) End)
            (λ n. (view token.new ≡ popped (view token.old) (Number n)) × IsClaim (view token.old) n) }
    {
        match self.queue.pop_as::<Claiming, R>(rt, token) {
            Some(Item::Number(number)) => Some(number),
            Some(Item::End) => None,
            None => unreachable!(),
        }
    }
}

impl Hand {
    /// Returns whether the hand is not given out, or has its mark.
    pub fn ended(&self) -> bool
        ensures { result ≡ has_ended self.now }
    {
        !self.active
    }

    /// Returns the number of its claims.
    pub fn claimed(&self) -> u32
        ensures { result ≡ length (claims_of self.now) }
    {
        self.claims.len() as u32
    }

    /// Returns its claims since it was last given out, each once.
    pub fn claims(&self) -> &[u32]
        ensures claims { result.now ≡ claims_of self.now }
        ensures apart { AreDistinct (claims_of self.now) }
    {
        self.claims.as_slice()
    }
}
