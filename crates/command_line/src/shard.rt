//! Shards of a campaign on the command line.
ghost use Rattle.std.specs.Prelude.{◌≡◌, ◌≤◌};
ghost use Rattle.command_line.specs.Ranges.{max_shards};
ghost use Rattle.command_line.specs.Shard.{shard_of};

use crate::number::decimal_in;
use crate::ranges::MAX_SHARDS;
use std::marker::Model;

/// One of the shards into which the jobs of a campaign are divided.
#[derive(Clone, Copy, PartialEq, Eq, Debug)]
pub struct Shard {
    number: u32,
    count: u32,
}

impl Model for Shard {
    ghost use Rattle.std.specs.Prelude.{ℕ, ◌≤◌};
    ghost use Rattle.command_line.specs.Ranges.{max_shards};

    ghost Value = { ℕ × ℕ };

    ghost view = { λ s. (s.number, s.count) };

    ghost invariant = { λ s. (1 ≤ s.number) × ((s.number ≤ s.count) × (s.count ≤ max_shards)) };

    ghost inverse = { λ s. record { number = s.0; count = s.1 } };
}

impl Shard {
    /// Returns the shard that the text writes as `i/n`.
    pub(crate) fn read(text: &str) -> Option<Shard>
        ensures { result ≡ shard_of text.now }
    {
        let (number, count) = text.split_once('/')?;
        let count = decimal_in(1, MAX_SHARDS, count)?;
        let number = decimal_in(1, count, number)?;
        Some(Shard {
            number: number as u32,
            count: count as u32,
        })
    }

    /// Returns the number of the shard, from 1.
    pub fn number(self) -> u32
        ensures value { result ≡ self.0 }
        ensures least { 1 ≤ result }
        ensures within { result ≤ self.1 }
    {
        self.number
    }

    /// Returns the number of shards.
    pub fn of(self) -> u32
        ensures value { result ≡ self.1 }
        ensures most { result ≤ max_shards }
    {
        self.count
    }
}
