//! The image of `demo`: a program of small instructions, drawn by a linear congruential generator.
ghost use Rattle.std.specs.Prelude.{◌≡◌, ◌≤◌, ◌+◌, ◌*◌, ◌++◌, length, IfOk};
ghost use Rattle.phases.specs.Demo as spec;
ghost use Rattle.phases.specs.Demo.{block_bytes, demo_image, one_block};
ghost use Rattle.phases.specs.Loading.{max_image};

use elf_loader::{bytes_of_word, plain_image};
use fs_model::NoMemory;
use std::alloc::Global;

// The start of the program, and its entry.
const ROM: u32 = 0x2000_0000;

// lui x1,0xF0000; lui x3,0x80000
static HEAD: [u8; 8] = [0xB7, 0x00, 0x00, 0xF0, 0xB7, 0x01, 0x00, 0x80];

// sw x2,8(x1)
static TAIL: [u8; 4] = [0x23, 0xA4, 0x20, 0x00];

fn next_state(state: u64) -> u64
    ensures { result ≡ spec.next_draw state }
{
    state
        .wrapping_mul(6364136223846793005)
        .wrapping_add(1442695040888963407)
}

// Returns the instruction of a draw.
#[tactic(auto, unfolding(crate::specs::Demo::block_word))]
fn block_word(draw: u32) -> u32
    ensures { result ≡ spec.block_word draw }
{
    match draw % 4 {
        0 => 0x0001_0113 + draw / 16 % 256 * 0x10_0000,
        1 => 0x0021_8023 + draw / 65536 % 16 * 0x80,
        2 => 0x0001_C103 + draw / 65536 % 16 * 0x10_0000,
        _ => 0x0020_8023,
    }
}

// Writes the instruction of the draw that leaves this state.
#[tactic(auto, unfolding(crate::specs::Demo::one_block))]
fn put_block(code: &mut Vec<u8>, state: u64) -> Result<(), NoMemory>
    ensures bytes { IfOk result (λ _. code.new.items ≡ code.old.items ++ one_block state) }
    ensures len { IfOk result (λ _. length code.new.items ≡ length code.old.items + 4) }
{
    code.extend_from_slice(&bytes_of_word(block_word((state >> 32) as u32)))?;
    Ok(())
}

// Writes the instructions of `blocks` draws.
#[tactic(auto, unfolding(crate::specs::Demo::state_after, crate::specs::Demo::block_bytes))]
fn put_blocks(code: &mut Vec<u8>, seed: u64, blocks: u32) -> Result<(), NoMemory>
    ensures bytes { IfOk result (λ _. code.new.items ≡ code.old.items ++ block_bytes seed blocks) }
    ensures len { IfOk result (λ _. length code.new.items ≡ length code.old.items + 4 * blocks) }
{
    let mut state = seed;
    for _i in 0..blocks {
        state = next_state(state);
        put_block(code, state)?;
    }
    Ok(())
}

/// Returns the image of the program of `blocks` draws from the state `seed` on.
#[tactic(auto, unfolding(crate::specs::Demo::demo_image))]
pub(crate) fn demo_image(alloc: Global, seed: u64, blocks: u32) -> Result<Vec<u8>, NoMemory>
    requires { blocks ≤ 1024 }
    ensures image { IfOk result (λ bytes. bytes.items ≡ demo_image seed blocks) }
    ensures fits { IfOk result (λ bytes. length bytes.items ≤ max_image) }
{
    let mut code = Vec::new(alloc);
    code.extend_from_slice(&HEAD)?;
    put_blocks(&mut code, seed, blocks)?;
    code.extend_from_slice(&TAIL)?;
    plain_image(alloc, ROM, ROM, &code)
}
