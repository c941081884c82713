//! Draws, and sites by their numbers, worked out outside: the words of seed 42 are those of PCG's own
//! demonstration, and `tests/definitions/draws.py` gives the others.
ghost use Rattle.std.specs.Prelude.{◌≤◌, ◌<◌, ◌^◌};

use fs_model::Site;
use sampling::{Sampler, site_at};
use std::alloc::Global;
use std::process::Abort;
use test_asserts::same;
use test_programs::{SENDS, case_of};

// The greatest population plus one.
const POPULATIONS: u64 = 0x1000_0000_0000;

// The seed, the population, and the first three indices.
static DRAWS: [(u64, u64, (u64, u64, u64)); 9] = [
    (42, 128, (80, 93, 95)),
    (42, 4480, (2823, 3256, 3353)),
    // The first word of each draw, and with it the upper bits of the second word.
    (42, 0x1_0000_0000, (0xa15c_02b7, 0xba1d_3330, 0xbfa4_784b)),
    (
        42,
        0x800_0000_0000,
        (
            0xa15c_02b7_7b47_f409 >> 21,
            0xba1d_3330_83d2_f293 >> 21,
            0xbfa4_784b_cbed_606e >> 21,
        ),
    ),
    (42, 1, (0, 0, 0)),
    (42, 2, (1, 1, 1)),
    (
        42,
        POPULATIONS - 1,
        (11_088_534_665_139, 12_789_660_977_212, 13_169_569_610_942),
    ),
    (0, 4480, (1255, 2191, 2743)),
    (u64::MAX, 4480, (303, 3064, 2926)),
];

// Whether the pc is a cell, the number of a site, and the site. RAM has 16 bytes.
static SITES: [(bool, u64, (u32, u32, u8)); 19] = [
    (false, 0, (0, 1, 0)),
    (false, 31, (0, 1, 31)),
    (false, 32, (0, 2, 0)),
    (false, 991, (0, 31, 31)),
    (false, 992, (0, 32, 0)),
    (false, 1119, (0, 47, 7)),
    (false, 1120, (1, 1, 0)),
    // The sites that seed 42 draws in a run of four instructions, and the last site.
    (false, 2823, (2, 19, 7)),
    (false, 3256, (2, 35, 0)),
    (false, 3353, (2, 47, 1)),
    (false, 4479, (3, 47, 7)),
    (true, 0, (0, 0, 0)),
    (true, 31, (0, 0, 31)),
    (true, 32, (0, 1, 0)),
    (true, 1023, (0, 31, 31)),
    (true, 1024, (0, 32, 0)),
    (true, 1151, (0, 47, 7)),
    (true, 1152, (1, 0, 0)),
    (true, 4607, (3, 47, 7)),
];

// Returns the first three indices of a seed.
fn first_three(seed: u64, population: u64) -> (u64, u64, u64)
    requires some { 1 ≤ population }
    requires room { population < 2 ^ 44 }
{
    let mut sampler = Sampler::new(seed);
    (
        sampler.next_index(population),
        sampler.next_index(population),
        sampler.next_index(population),
    )
}

// Returns the site with this number in a run of up to a hundred instructions.
fn site_of(rt: &impl Abort, alloc: Global, pc: bool, index: u64) -> Site
    requires { index < 100000 }
{
    let mut case = case_of(alloc, &SENDS, 100).expect(rt, "a case");
    if pc {
        case = case.with_pc();
    }
    let site = site_at(index, &case);
    drop(case);
    site
}

fn draws(rt: &impl Abort) {
    for (seed, population, wanted) in DRAWS {
        assert!(rt; 1 <= population && population < POPULATIONS);
        same((seed, population), first_three(seed, population), wanted).expect(rt, "not the same");
    }
}

fn sites(rt: &impl Abort, alloc: Global) {
    for (pc, index, (cycle, cell, bit)) in SITES {
        assert!(rt; index < 100_000);
        let wanted = Site { cycle, cell, bit };
        let found = site_of(rt, alloc, pc, index);
        same((pc, index), found, wanted).expect(rt, "not the same");
    }
}

#[test]
fn draws_and_sites(rt: HostRuntime) {
    draws(&rt);
    sites(&rt, rt.alloc());
}
