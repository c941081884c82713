//! Job numbers that threads claim from one queue, each once.
#![tactic(auto)]

ghost use Rattle.std.specs.Prelude.{◌≡◌, ◌+◌, ◌<◌, ◌≤◌, [], if◌then◌else◌, length, vec_capacity};
ghost use Rattle.fs_model.specs.Pages.{max_page};
ghost use Rattle.crossbeam_queue.specs.Passes.{view, ruled_capacity};
ghost use Rattle.job_queue.specs.Pages.{AreDistinct};

mod hands;
mod making;
mod pages;
pub mod rule;

use crate::rule::{Queue, Token};

/// A queue of job numbers, for pages of a given size and a given number of hands.
#[derive(Drop)]
pub struct Jobs {
    queue: Queue,
    page: u32,
    hands: u32,
    ghost room: { ruled_capacity queue ≡ page + hands },
    ghost few: { hands ≤ 65 },
    ghost small: { page ≤ max_page },
}

/// Fills the queue, gives out the hands and gathers.
#[derive(Drop)]
pub struct Filler {
    token: Token,
    len: u32,
    ghost at_rest: { token.me.1 ≡ [] },
    ghost len_is: { length (view token).page ≡ len },
    ghost part: { (view token).due < (view token).parts },
}

/// A claim handle. It claims numbers while it is given out.
#[derive(Drop)]
pub struct Hand {
    token: Token,
    claims: Vec<u32>,
    active: bool,
    ghost at_rest: { token.me.1 ≡ [] },
    ghost one: { (view token).parts ≤ 1 },
    ghost marked: { (view token).due + (view token).marks ≡ (view token).parts },
    ghost due: { (view token).due ≡ (if active then 1 else 0) },
    ghost known: { (view token).parts ≡ 1 → (view token).claims ≡ claims.items },
    ghost room: { length (view token).page ≤ vec_capacity claims },
    ghost apart: { AreDistinct claims.items },
    ghost few: { length claims.items ≤ max_page },
}

/// The number of claims of all hands, and of the numbers that were left.
#[derive(Clone, Copy, PartialEq, Eq, Debug)]
pub struct Gathered {
    pub claimed: u32,
    pub left: u32,
}
