//! Sites whose outcomes were worked out by hand.
ghost use Rattle.std.specs.Prelude.{◌≡◌, ◌<◌, true, length};
ghost use Rattle.fs_model.specs.Cell.{IsCell, bits};
ghost use Rattle.golden_trace.specs.Goldens.{IsGolden};

use experiment::{run_job, run_site_plain};
use fs_model::{Case, Job, Outcome, Row, Site, bits, first_cell};
use golden_trace::{Golden, golden};
use rv_machine::Machine;
use snapshot_store::Snaps;
use std::alloc::Global;
use std::process::Abort;
use test_asserts::same;
use test_programs::{COUNTS_DOWN, HALTS, MASKS, RUNS_ON, SENDS, SENDS_AND_CLEARS, STORES, case_of};

// The words, the limit, the site's cycle, cell and bit, and its outcome.
static SITES: [(&[u32], u32, (u32, u32, u8), Outcome); 21] = [
    // x1 has the address of the port that halts, and each flip makes it another address.
    (&HALTS, 100, (1, 1, 0), Outcome::Misaligned),
    (&HALTS, 100, (1, 1, 31), Outcome::Address),
    // No instruction reads x1 before it is written, or x5 at all.
    (&HALTS, 100, (0, 1, 0), Outcome::NoEffect),
    (&HALTS, 100, (0, 5, 0), Outcome::NoEffect),
    (&HALTS, 100, (1, 32, 7), Outcome::NoEffect),
    // the byte goes to another port
    (&SENDS, 100, (2, 1, 2), Outcome::Detected),
    (&SENDS, 100, (2, 1, 3), Outcome::Silent),
    (&SENDS, 100, (2, 1, 4), Outcome::Address),
    (&SENDS, 100, (1, 1, 2), Outcome::Detected),
    // The halt's zero is sent, and a word of zeros follows; or no device has the sum as its address.
    (&RUNS_ON, 100, (2, 1, 3), Outcome::Illegal),
    (&RUNS_ON, 100, (1, 1, 3), Outcome::Address),
    // another byte is sent, or the same
    (&SENDS, 100, (2, 2, 7), Outcome::Silent),
    (&SENDS, 100, (2, 2, 8), Outcome::NoEffect),
    // the run halts at instruction 71
    (&COUNTS_DOWN, 71, (1, 2, 5), Outcome::NoEffect),
    (&COUNTS_DOWN, 71, (4, 2, 5), Outcome::NoEffect),
    (&COUNTS_DOWN, 70, (1, 2, 5), Outcome::Timeout),
    (&COUNTS_DOWN, 70, (4, 2, 5), Outcome::Timeout),
    // Bytes of RAM: one that is read, one that is overwritten before it is read, and the same byte afterwards.
    (&STORES, 100, (4, 32, 1), Outcome::Silent),
    (&STORES, 100, (3, 33, 0), Outcome::NoEffect),
    (&STORES, 100, (4, 33, 0), Outcome::Silent),
    // It halts with the same value, but before the byte is sent.
    (&STORES, 100, (6, 1, 3), Outcome::Silent),
];

// The words, the limit, the spacing, the job's cycle, cell and bit, its outcome, and the number of its steps.
static JOBS: [(&[u32], u32, u32, (u32, u32, u8), Outcome, u64); 17] = [
    // 69 instructions are left to the limit, and the run begins at the job's cycle or at the start.
    (&COUNTS_DOWN, 70, 1, (1, 2, 31), Outcome::Timeout, 69),
    (&COUNTS_DOWN, 70, 256, (1, 2, 31), Outcome::Timeout, 70),
    (&COUNTS_DOWN, 70, 1, (1, 2, 5), Outcome::Timeout, 69),
    // It halts at the last instruction that the limit admits.
    (&COUNTS_DOWN, 71, 1, (1, 2, 5), Outcome::NoEffect, 70),
    (&COUNTS_DOWN, 71, 3, (4, 2, 5), Outcome::NoEffect, 68),
    // The flipped bit is masked at once. With spacing 2 no stored cycle follows, so the run goes to its end.
    (&MASKS, 100, 1, (2, 2, 5), Outcome::NoEffect, 1),
    (&MASKS, 100, 2, (2, 2, 5), Outcome::NoEffect, 2),
    (&MASKS, 100, 1, (2, 2, 0), Outcome::Silent, 2),
    // x1 is overwritten at once; x5 differs to the end.
    (&HALTS, 100, 1, (0, 1, 7), Outcome::NoEffect, 1),
    (&HALTS, 100, 1, (0, 5, 0), Outcome::NoEffect, 2),
    (&HALTS, 100, 1, (1, 1, 0), Outcome::Misaligned, 1),
    (&SENDS, 100, 1, (2, 1, 2), Outcome::Detected, 1),
    // The same registers and RAM, after a wrong byte or after the same byte.
    (&SENDS_AND_CLEARS, 100, 1, (2, 2, 0), Outcome::Silent, 3),
    (&SENDS_AND_CLEARS, 100, 1, (2, 2, 8), Outcome::NoEffect, 2),
    // The same registers, and a byte of RAM that differs to the end or is overwritten.
    (&STORES, 100, 1, (5, 32, 0), Outcome::NoEffect, 3),
    (&STORES, 100, 1, (3, 33, 0), Outcome::NoEffect, 1),
    (&STORES, 100, 2, (3, 33, 0), Outcome::NoEffect, 2),
];

// Returns whether the case's run has this site.
fn is_site(case: &Case, run: &Golden, site: &Site) -> bool
    ensures cycle { result ≡ true → site.now.cycle < length run.now.touches }
    ensures cell { result ≡ true → IsCell case.now site.now.cell }
    ensures bit { result ≡ true → site.now.bit < bits site.now.cell }
{
    let end = 32 + case.ram().len();
    site.cycle < run.count()
        && site.bit < bits(site.cell)
        && first_cell(case.pc_cell()) <= site.cell
        && (site.cell as usize) < end
}

// Returns the job of a site.
fn job_of(site: &Site) -> Job
    ensures { result ≡ record { cycle = site.now.cycle; cell = site.now.cell; bit = site.now.bit; weight = 1 } }
{
    Job {
        cycle: site.cycle,
        cell: site.cell,
        bit: site.bit,
        weight: 1,
    }
}

// Returns the outcome of a site, on a machine that has run before.
fn outcome_of(rt: &impl Abort, alloc: Global, words: &[u32], limit: u32, site: &Site) -> Outcome {
    let case = case_of(alloc, words, limit).expect(rt, "a case");
    let run = golden(alloc, &case).expect(rt, "a golden run");
    let mut machine = Machine::new(alloc, &case).expect(rt, "memory");
    assert!(rt; is_site(&case, &run, site));
    let _ = machine.step();
    let outcome = run_site_plain(&case, &run, &mut machine, site);
    drop(machine);
    drop(run);
    drop(case);
    outcome
}

// Returns the row of a job, and the number of its steps on a machine that has run before.
fn ran(
    rt: &impl Abort,
    alloc: Global,
    words: &[u32],
    limit: u32,
    spacing: u32,
    site: &Site,
) -> (Row, u64) {
    let case = case_of(alloc, words, limit).expect(rt, "a case");
    let run = golden(alloc, &case).expect(rt, "a golden run");
    assert!(rt; spacing >= 1 && is_site(&case, &run, site));
    let snaps = Snaps::take(alloc, &case, run.count(), spacing).expect(rt, "memory");
    let mut machine = Machine::new(alloc, &case).expect(rt, "memory");
    let _ = machine.step();
    let before = machine.taken();
    let row = run_job(&case, &run, &snaps, &mut machine, &job_of(site)).row();
    let steps = machine.taken().saturating_sub(before);
    drop(machine);
    drop(snaps);
    drop(run);
    drop(case);
    (row, steps)
}

fn sites(rt: &impl Abort, alloc: Global) {
    for (words, limit, (cycle, cell, bit), outcome) in SITES {
        let site = Site { cycle, cell, bit };
        let found = outcome_of(rt, alloc, words, limit, &site);
        same(site, found, outcome).expect(rt, "not the same");
    }
}

fn jobs(rt: &impl Abort, alloc: Global) {
    for (words, limit, spacing, (cycle, cell, bit), outcome, steps) in JOBS {
        let site = Site { cycle, cell, bit };
        let row = Row {
            cycle,
            cell,
            bit,
            outcome,
        };
        let found = ran(rt, alloc, words, limit, spacing, &site);
        same(site, found, (row, steps)).expect(rt, "not the same");
    }
}

#[test]
fn sites_and_jobs(rt: HostRuntime) {
    sites(&rt, rt.alloc());
    jobs(&rt, rt.alloc());
}

// Runs the site and then the job of a row.
fn run_both<'c>(
    rt: &impl Abort,
    case: &'c Case,
    run: &Golden,
    snaps: &Snaps<'c>,
    plain: &mut Machine<'c>,
    early: &mut Machine<'c>,
    row: (u32, u8, u64, u64),
)
    requires golden { IsGolden case.now run.now }
    requires snaps { snaps.now.case ≡ case.now }
    requires count { snaps.now.count ≡ length run.now.touches }
    requires plain { plain.old.case ≡ case.now }
    requires early { early.old.case ≡ case.now }
    ensures plain { plain.new.case ≡ plain.old.case }
    ensures early { early.new.case ≡ early.old.case }
{
    let (cycle, bit, by_site, by_job) = row;
    let site = Site {
        cycle,
        cell: 2,
        bit,
    };
    assert!(rt; is_site(case, run, &site));
    let _ = run_site_plain(case, run, plain, &site);
    let _ = run_job(case, run, snaps, early, &job_of(&site));
    same(site, (plain.taken(), early.taken()), (by_site, by_job)).expect(rt, "not the same");
}

// One machine runs one site after another and counts their steps, and so does a machine that begins at stored
// states. The runs take the whole limit of 71, then 7 steps, then 71 again.
fn run_rows<'c>(rt: &impl Abort, alloc: Global, case: &'c Case, run: &Golden, snaps: &Snaps<'c>)
    requires golden { IsGolden case.now run.now }
    requires snaps { snaps.now.case ≡ case.now }
    requires count { snaps.now.count ≡ length run.now.touches }
{
    let mut plain = Machine::new(alloc, case).expect(rt, "memory");
    let mut early = Machine::new(alloc, case).expect(rt, "memory");
    run_both(rt, case, run, snaps, &mut plain, &mut early, (1, 5, 71, 70));
    run_both(rt, case, run, snaps, &mut plain, &mut early, (6, 0, 78, 71));
    run_both(
        rt,
        case,
        run,
        snaps,
        &mut plain,
        &mut early,
        (1, 31, 149, 141),
    );
    drop(early);
    drop(plain);
}

#[test]
fn counts_steps(rt: HostRuntime) {
    let case = case_of(rt.alloc(), &COUNTS_DOWN, 71).expect(&rt, "a case");
    let run = golden(rt.alloc(), &case).expect(&rt, "a golden run");
    let snaps = Snaps::take(rt.alloc(), &case, run.count(), 1).expect(&rt, "memory");
    run_rows(&rt, rt.alloc(), &case, &run, &snaps);
    drop(snaps);
    drop(run);
    drop(case);
}
