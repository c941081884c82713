//! Making the queue, its filler and its hands.
ghost use Rattle.std.specs.Prelude.{◌≡◌, ◌<◌, ◌≤◌, All, vec_len, IfOk};
ghost use Rattle.fs_model.specs.Pages.{max_page};
ghost use Rattle.job_queue.specs.Pages.{spent, blank_view};
ghost use Rattle.job_queue.specs.Hands.{page_size_of, hands_of, filler_view, hand_view, IsFillerOf, IsHandOf};

use crate::rule::{Idle, Queue};
use crate::{Filler, Hand, Jobs};
use fs_model::NoMemory;
use std::alloc::Global;

impl Jobs {
    /// Returns a queue for pages of at most `page` numbers, its filler, and its hands, none of which is given
    /// out.
    pub fn new(alloc: Global, page: u32, hands: u32) -> Result<(Jobs, Filler, Vec<Hand>), NoMemory>
        requires page { (0 < page) × (page ≤ max_page) }
        requires hands { (0 < hands) × (hands ≤ 65) }
        ensures jobs { IfOk result (λ r. (page_size_of r.0 ≡ page) × (hands_of r.0 ≡ hands)) }
        ensures filler { IfOk result (λ r. IsFillerOf r.0 r.1 × (filler_view r.1 ≡ blank_view)) }
        ensures count { IfOk result (λ r. vec_len r.2 ≡ hands) }
        ensures hands { IfOk result (λ r. All (λ h. IsHandOf r.0 h × (hand_view h ≡ spent)) r.2.items) }
    {
        let (queue, token) = Queue::ruled(alloc, (page + hands) as usize)?;
        let jobs = Jobs { queue, page, hands };
        let mut filler = Filler { token, len: 0 };
        let all = jobs.all_hands(alloc, &mut filler)?;
        Ok((jobs, filler, all))
    }

    fn all_hands(&self, alloc: Global, filler: &mut Filler) -> Result<Vec<Hand>, NoMemory>
        requires { IsFillerOf self.now filler.old }
        ensures filler { IsFillerOf self.now filler.new × (filler_view filler.new ≡ filler_view filler.old) }
        ensures count { IfOk result (λ v. vec_len v ≡ hands_of self.now) }
        ensures hands { IfOk result (λ v. All (λ h. IsHandOf self.now h × (hand_view h ≡ spent)) v.items) }
    {
        let mut all = Vec::with_capacity(alloc, self.hands as usize)?;
        for _i in 0..self.hands {
            all.push(self.hand(alloc, filler)?)?;
        }
        Ok(all)
    }

    fn hand(&self, alloc: Global, filler: &mut Filler) -> Result<Hand, NoMemory>
        requires { IsFillerOf self.now filler.old }
        ensures filler { IsFillerOf self.now filler.new × (filler_view filler.new ≡ filler_view filler.old) }
        ensures hand { IfOk result (λ h. IsHandOf self.now h × (hand_view h ≡ spent)) }
    {
        let claims = Vec::with_capacity(alloc, self.page as usize)?;
        let token = self.queue.another::<Idle>(&mut filler.token);
        Ok(Hand {
            token,
            claims,
            active: false,
        })
    }
}
