//! Which of the missing jobs a campaign runs.
ghost use Rattle.std.specs.Prelude.{◌≡◌, ◌<◌, ◌↔◌, IsTrue, length, Some, None};
ghost use Rattle.campaign.specs.Shards.{IsShard, in_shard};
ghost use Rattle.campaign.specs.Portions.{in_portion, is_due_at};

use def_use::Walk;
use std::marker::Model;
use window_counts::Window;

/// The jobs of a shard, or all, and of these only the ones that are due in a window, if one is given.
#[derive(Drop)]
pub(crate) struct Portion<'a> {
    shard: Option<(u32, u32)>,
    window: Option<&'a Window>,
}

impl<'a> Model for Portion<'a> {
    ghost use Rattle.campaign.specs.Portions.{PortionData, window_at};
    ghost use Rattle.campaign.specs.Shards.{IsShard};

    ghost Value = { PortionData };

    ghost view = { λ p. record { shard = p.shard; window = window_at p.window } };

    ghost invariant = { λ p. IsShard p.shard };
}

// Returns whether the job with this number belongs to the shard.
#[tactic(auto, unfolding(crate::specs::Shards::in_shard))]
fn is_in(shard: Option<(u32, u32)>, number: u32) -> bool
    requires { IsShard shard }
    ensures { result ≡ in_shard shard number }
{
    match shard {
        None => true,
        Some((index, count)) => number % count == index - 1,
    }
}

// Returns whether the job with this number is due in the window.
fn is_due(window: &Window, walk: &mut Walk<'_>, number: u32) -> bool
    requires { number < length walk.old.list }
    ensures value { result ≡ is_due_at window.now walk.old.list number }
    ensures same { walk.new ≡ walk.old }
{
    window.is_due(&walk.get(number))
}

impl<'a> Portion<'a> {
    /// Returns the jobs of a shard, or all.
    pub(crate) fn of_shard(shard: Option<(u32, u32)>) -> Portion<'a>
        requires { IsShard shard }
        ensures { result ≡ record { shard = shard; window = None } }
    {
        Portion {
            shard,
            window: None,
        }
    }

    /// Returns whether it has all jobs because neither a shard nor a window is given.
    pub(crate) fn has_all(&self) -> bool
        ensures { IsTrue result ↔ (self.now ≡ record { shard = None; window = None }) }
    {
        self.shard.is_none() && self.window.is_none()
    }

    /// Returns whether it has the job with this number.
    pub(crate) fn has(&self, walk: &mut Walk<'_>, number: u32) -> bool
        requires { number < length walk.old.list }
        ensures value { result ≡ in_portion self.now walk.old.list number }
        ensures same { walk.new ≡ walk.old }
    {
        if !is_in(self.shard, number) {
            return false;
        }
        match self.window {
            None => true,
            Some(window) => is_due(window, walk, number),
        }
    }

    /// Keeps of its shard only the jobs that are due in this window.
    pub(crate) fn keep_to(&mut self, window: &'a Window)
        ensures { self.new ≡ record { shard = self.old.shard; window = Some window.now } }
    {
        self.window = Some(window);
    }
}
