//! The live sites by index: each job has as many indices as its weight, in the order of the jobs.

ghost use Rattle.std.specs.Prelude.{◌≡◌, ◌+◌, ◌-◌, ◌*◌, ◌^◌, ◌<◌, ◌≤◌, length, IfOk, slice_index, flat_map};
ghost use Rattle.fs_model.specs.Cell.{bits};
ghost use Rattle.def_use.specs.Reads.{jobs_of_read};
ghost use Rattle.def_use.specs.Firsts.{AreFirsts};
ghost use Rattle.def_use.specs.Lives.{live_in, AreLives, IsLiveAt, HoldsLive};

use crate::pass::Read;
use fs_model::{NoMemory, bits};
use std::alloc::Global;

// The number of reads in a block. To save memory, the table has an entry for each block and not for each read.
const BLOCK: usize = 64;

// Returns the sum of the weights of a read's jobs.
fn live_at(read: &Read) -> u64
    ensures value { result ≡ read.now.weight * bits read.now.cell }
{
    read.weight as u64 * bits(read.cell) as u64
}

/// Returns for each block of reads the sum of the weights of all jobs before it, and last the sum of all.
pub(crate) fn lives_of(alloc: Global, reads: &[Read]) -> Result<Vec<u64>, NoMemory>
    requires { live_in reads.now < 2 ^ 64 }
    ensures { IfOk result (λ lives. AreLives reads.now lives.items) }
{
    let mut lives = Vec::new(alloc);
    let mut live = 0;
    for i in 0..reads.len() {
        if i % BLOCK == 0 {
            lives.push(live)?;
        }
        live += live_at(&reads[i]);
    }
    lives.push(live)?;
    Ok(lives)
}

/// Returns the last number of such a table: the number of live sites.
pub(crate) fn all_of(lives: &[u64]) -> u64
    requires { 0 < length lives.now }
    ensures { result ≡ slice_index lives.now (length lives.now - 1) }
{
    lives[lives.len() - 1]
}

// Returns the last block with at most `index` live sites before it, by binary search.
fn block_with(lives: &[u64], index: u64) -> usize
    requires some { 1 < length lives.now }
    requires first { slice_index lives.now 0 ≤ index }
    requires last { index < slice_index lives.now (length lives.now - 1) }
    ensures inside { result + 1 < length lives.now }
    ensures below { slice_index lives.now result ≤ index }
    ensures above { index < slice_index lives.now (result + 1) }
{
    let mut low = 0;
    let mut high = lives.len() - 1;
    while high - low > 1 {
        let middle = low + (high - low) / 2;
        if lives[middle] <= index {
            low = middle;
        } else {
            high = middle;
        }
    }
    low
}

// Returns the index of the read that has a live site, and the site's index in that read: by binary search for
// the block, then along its reads.
fn place_of_live(reads: &[Read], lives: &[u64], index: u64) -> (usize, u64)
    requires lives { AreLives reads.now lives.now }
    requires index { index < live_in reads.now }
    ensures { IsLiveAt reads.now index result.0 result.1 }
{
    let block = block_with(lives, index);
    let mut left = index - lives[block];
    for place in block * BLOCK..reads.len() {
        let live = live_at(&reads[place]);
        if left < live {
            return (place, left);
        }
        left -= live;
    }
    unreachable!()
}

/// Returns the number of the job that has the live site with this index.
pub(crate) fn number_of_live(reads: &[Read], firsts: &[u32], lives: &[u64], index: u64) -> u32
    requires firsts { AreFirsts reads.now firsts.now }
    requires few { length (flat_map jobs_of_read reads.now) < 2 ^ 32 }
    requires lives { AreLives reads.now lives.now }
    requires index { index < live_in reads.now }
    ensures { HoldsLive (flat_map jobs_of_read reads.now) index result }
{
    let (place, left) = place_of_live(reads, lives, index);
    let bit = left / reads[place].weight as u64;
    firsts[place] + bit as u32
}
