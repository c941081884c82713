//! The jobs of a short program by their numbers, their names, and the sites that belong to them, worked out by hand.

ghost use Rattle.std.specs.Prelude.{◌≡◌};
ghost use Rattle.fs_model.specs.Job.{jobs_of};
ghost use Rattle.access_log.specs.LogData.{log_in};

use access_log::Log;
use def_use::{JobList, job_of, jobs};
use fs_model::{Site, bits, first_cell};
use golden_trace::golden;
use std::process::Abort;
use test_asserts::same;
use test_cases::jobs_of_case;
use test_programs::case_of;

// `lui x1,0xF0000; lui x2,0x90000; add x3,x1,x2; lb x4,0(x3); sw x4,8(x1)`: it loads the first byte of RAM, which
// is cell 32, and stores to a port.
const FIVE: [u32; 5] = [
    0xf000_00b7,
    0x9000_0137,
    0x0020_81b3,
    0x0001_8203,
    0x0040_a423,
];

// Returns the jobs of that program. They belong to six reads, in this order: x1 and x2 at cycle 2, x3 and the byte
// of RAM at cycle 3, and x1 and x4 at cycle 4. So the first jobs of the reads have the numbers 0, 32, 64, 96, 104
// and 136, and there are 168 jobs.
fn jobs_of_five<R: Abort + AllocGlobal>(rt: &R) -> JobList {
    let case = case_of(rt.alloc(), &FIVE, 100).expect(rt, "a case");
    let run = golden(rt.alloc(), &case).expect(rt, "a golden run");
    let list = jobs_of_case(rt.alloc(), &case, &run).expect(rt, "memory");
    drop(run);
    drop(case);
    list
}

// Some jobs: the number, and the cycle, cell, bit and weight.
const BY_NUMBER: [(u32, (u32, u32, u8, u32)); 11] = [
    (0, (2, 1, 0, 2)),
    (31, (2, 1, 31, 2)),
    (32, (2, 2, 0, 1)),
    (63, (2, 2, 31, 1)),
    (64, (3, 3, 0, 1)),
    (95, (3, 3, 31, 1)),
    (96, (3, 32, 0, 4)),
    (103, (3, 32, 7, 4)),
    (104, (4, 1, 0, 2)),
    (136, (4, 4, 0, 1)),
    (167, (4, 4, 31, 1)),
];

// Looks up some of these jobs during one walk, in this order.
fn look(rt: &impl Abort, list: &JobList, order: &[usize]) {
    let mut walk = list.walk();
    for place in order {
        assert!(rt; *place < BY_NUMBER.len());
        let (number, wanted) = BY_NUMBER[*place];
        assert!(rt; number < list.len());
        let job = walk.get(number);
        let found = walk.find(job.cycle, job.cell, job.bit);
        let parts = (job.cycle, job.cell, job.bit, job.weight);
        same(place, (parts, found), (wanted, Some(number))).expect(rt, "not the same");
    }
}

// The names of some jobs, in an order, and their numbers.
static BY_NAME: [((u32, u32, u8), Option<u32>); 14] = [
    // Of the first read, the next one, and the last.
    ((2, 1, 5), Some(5)),
    ((2, 2, 0), Some(32)),
    ((4, 4, 31), Some(167)),
    // Far back, and the next reads again.
    ((2, 1, 0), Some(0)),
    ((2, 2, 31), Some(63)),
    ((3, 32, 7), Some(103)),
    // Bits that do not exist, of the same read and of a distant one.
    ((3, 32, 8), None),
    ((2, 1, 32), None),
    // A cell that is not read at this cycle, a cycle without reads, a cycle after the end, and no cell.
    ((3, 1, 0), None),
    ((0, 1, 0), None),
    ((5, 1, 0), None),
    ((4, 48, 0), None),
    // Jobs that are found after these.
    ((3, 32, 0), Some(96)),
    ((4, 1, 1), Some(105)),
];

fn look_by_names(rt: &impl Abort, list: &JobList) {
    let mut walk = list.walk();
    for ((cycle, cell, bit), number) in BY_NAME {
        let found = (walk.find(cycle, cell, bit), list.find(cycle, cell, bit));
        same((cycle, cell, bit), found, (number, number)).expect(rt, "not the same");
    }
}

#[test]
fn walks(rt: HostRuntime) {
    let list = jobs_of_five(&rt);
    same("the jobs", list.len(), 168).expect(&rt, "not the same");
    look(&rt, &list, &[0, 1, 2, 3, 4, 5, 6, 7, 8, 9, 10]);
    look(&rt, &list, &[10, 9, 8, 7, 6, 5, 4, 3, 2, 1, 0]);
    // Far ahead, far back, and two reads on.
    look(&rt, &list, &[10, 0, 8, 1, 6, 2, 6, 6, 10]);
    look_by_names(&rt, &list);
}

// Live sites by their indices, each with the number of its job. Each bit has 2 sites for x1 at cycle 2, 4 for the
// byte of RAM, and 2 for x1 at cycle 4. So the reads begin at the indices 0, 64, 96, 128, 160 and 224, and there
// are 256 live sites.
static BY_LIVE_SITE: [(u64, u32); 16] = [
    (0, 0),
    (1, 0),
    (2, 1),
    (63, 31),
    (64, 32),
    (95, 63),
    (96, 64),
    (127, 95),
    (128, 96),
    (131, 96),
    (132, 97),
    (159, 103),
    (160, 104),
    (223, 135),
    (224, 136),
    (255, 167),
];

#[test]
fn live_sites(rt: HostRuntime) {
    let list = jobs_of_five(&rt);
    same("live", list.live_weight(), 256).expect(&rt, "not the same");
    has_live_sites(&rt, &list);
}

fn has_live_sites(rt: &impl Abort, list: &JobList) {
    for (index, number) in BY_LIVE_SITE {
        assert!(rt; index < list.live_weight());
        same(index, list.job_at(index), number).expect(rt, "not the same");
    }
}

// Sites, and the numbers of their jobs.
static BY_SITE: [((u32, u32, u8), Option<u32>); 10] = [
    // At the read, and before it.
    ((2, 1, 5), Some(5)),
    ((1, 1, 5), Some(5)),
    ((3, 1, 1), Some(105)),
    ((0, 32, 7), Some(103)),
    ((3, 32, 0), Some(96)),
    ((4, 4, 31), Some(167)),
    // The next touch writes.
    ((0, 1, 5), None),
    ((3, 4, 0), None),
    // No touch follows.
    ((4, 32, 0), None),
    ((0, 5, 0), None),
];

// Returns the number of the job of a site, which must be a site of the log's fault space.
#[tactic(auto, unfolding(fs_model::specs::Job::log_of))]
fn number_of(rt: &impl Abort, log: &Log<'_>, list: &JobList, site: &Site) -> Option<u32>
    requires { list.now ≡ jobs_of (log_in log.now) }
{
    assert!(rt; (site.cycle as usize) < log.touches().len());
    assert!(rt; site.cell >= first_cell(log.pc()));
    assert!(rt; (site.cell as u64) < 32 + log.ram() as u64);
    assert!(rt; site.bit < bits(site.cell));
    job_of(log, list, site)
}

#[test]
fn jobs_of_sites(rt: HostRuntime) {
    let alloc = rt.alloc();
    let case = case_of(alloc, &FIVE, 100).expect(&rt, "a case");
    let run = golden(alloc, &case).expect(&rt, "a golden run");
    let log = Log::from_touches(alloc, run.touches(), &case.map(), case.pc_cell());
    let log = log.expect(&rt, "memory");
    let list = jobs(alloc, &log, run.count()).expect(&rt, "memory");
    has_jobs(&rt, &log, &list);
    drop(list);
    drop(log);
    drop(run);
    drop(case);
}

fn has_jobs(rt: &impl Abort, log: &Log<'_>, list: &JobList)
    requires { list.now ≡ jobs_of (log_in log.now) }
{
    for ((cycle, cell, bit), number) in BY_SITE {
        let site = Site { cycle, cell, bit };
        same(site, number_of(rt, log, list, &site), number).expect(rt, "not the same");
    }
}
