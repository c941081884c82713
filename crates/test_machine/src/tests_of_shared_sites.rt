//! Sites of a short program in a table that threads share: the bit of the byte that is sent, and the same bit before it
//! is overwritten.
ghost use Rattle.std.specs.Prelude.{◌≡◌};
ghost use Rattle.golden_trace.specs.Goldens.{IsGolden};

use experiment::run_site_plain;
use fs_model::{Case, Outcome, Site, is_site};
use golden_trace::{Golden, golden};
use rv_machine::Machine;
use shared_sites::{KnownCase, SharedSites};
use std::alloc::Global;
use std::marker::Brand;
use std::process::Abort;
use test_asserts::same;
use test_programs::{STORES, case_of};

/// The byte of RAM that the program overwrites, and then loads and sends.
const BYTE: u32 = 32;

fn known_site<K: KnownCase, R: Abort>(
    rt: &R,
    alloc: Global,
    case: &Case,
    run: &Golden,
    cycle: u32,
) -> Outcome
    requires golden { IsGolden case.now run.now }
    requires own { K.case ≡ case.now }
{
    let site = Site {
        cycle,
        cell: BYTE,
        bit: 1,
    };
    let mut machine = Machine::new(alloc, case).expect(rt, "memory");
    assert!(rt; is_site(case, run.count(), &site));
    let outcome = run_site_plain(case, run, &mut machine, &site);
    drop(machine);
    let sites = SharedSites::<K>::new(alloc, 2, 64).expect(rt, "memory");
    same(cycle, sites.find(site).is_none(), true).expect(rt, "not the same");
    sites.learn(site, outcome);
    same(cycle, sites.find(site), Some(outcome)).expect(rt, "not the same");
    let beside = Site { bit: 2, ..site };
    same(cycle, sites.find(beside).is_none(), true).expect(rt, "not the same");
    drop(sites);
    outcome
}

fn both_sites<K: KnownCase, R: Abort>(rt: &R, alloc: Global, case: &Case, run: &Golden)
    requires golden { IsGolden case.now run.now }
    requires own { K.case ≡ case.now }
{
    let sent = known_site::<K, R>(rt, alloc, case, run, 4);
    same("sent", sent, Outcome::Silent).expect(rt, "not the same");
    let overwritten = known_site::<K, R>(rt, alloc, case, run, 1);
    same("overwritten", overwritten, Outcome::NoEffect).expect(rt, "not the same");
}

#[test]
fn sites_by_hand(rt: HostRuntime) {
    let case = case_of(rt.alloc(), &STORES, 100).expect(&rt, "a case");
    let run = golden(rt.alloc(), &case).expect(&rt, "a golden run");
    both_sites::<Brand, HostRuntime>(&rt, rt.alloc(), &case, &run);
    drop(run);
    drop(case);
}
