//! Campaigns with states stored at several distances must give the totals of the reference.
ghost use Rattle.std.specs.Prelude.{◌≡◌, ◌≤◌, true};
ghost use Rattle.fs_model.specs.AccessLog.{log};
ghost use Rattle.fs_model.specs.Job.{jobs_of};
ghost use Rattle.golden_trace.specs.Goldens.{IsGolden};
ghost use Rattle.result_keeper.specs.Keep.{HasFile};

use super::tests_of_campaign::disk_of;
use super::totals::numbers;
use campaign::{CaseLedger, Performed, Ready, Settings, perform_alone, prepare};
use def_use::JobList;
use fs_model::{Case, Map};
use fs_outside::Disk;
use golden_trace::{Golden, golden};
use std::marker::Brand;
use std::process::Abort;
use std::sync::ledger::Blank;
use test_asserts::same;
use test_cases::jobs_of_case;
use test_programs::{PROGRAMS, RAM, ROM, case_in};

// The results of a campaign: its steps and whether it is healthy before the first call, and then the totals and
// the steps after the first and after the second call.
type Told = ((u64, bool), ([u64; 7], u64), ([u64; 7], u64));

// Runs a campaign that is ready twice.
fn ended_twice<K: CaseLedger, D: Disk>(
    rt: &impl Abort,
    ready: &mut Ready<'_, K>,
    disk: &mut D,
) -> Told
    requires healthy { ready.old.keeper.healthy ≡ true }
    requires file { D.tells → HasFile ready.old.keeper (D.past disk.old) }
{
    let before = (ready.taken(), ready.healthy());
    let Performed::Done(totals) = perform_alone(ready, disk) else {
        panic!(rt; "a campaign that is not done");
    };
    let first = (numbers(&totals), ready.taken());
    assert!(rt; ready.healthy());
    let Performed::Done(totals) = perform_alone(ready, disk) else {
        panic!(rt; "a campaign that is not done again");
    };
    (before, first, (numbers(&totals), ready.taken()))
}

// Runs a campaign twice, with states stored at this distance.
fn campaign_told<K: CaseLedger, R: Abort + AllocGlobal>(
    rt: &R,
    case: &Case,
    run: &Golden,
    list: &JobList,
    spacing: u32,
    blank: Blank,
) -> Told
    requires golden { IsGolden case.now run.now }
    requires list { list.now ≡ jobs_of (log case.now) }
    requires spacing { 1 ≤ spacing }
    requires ledger { case.now ≡ K.case }
    requires name { blank.name ≡ K.name }
    requires parts { (blank.parts ≡ K.parts) × (blank.parts ≡ 1) }
{
    let settings = Settings {
        workers: 1,
        page: 4096,
        stop_after: None,
        fresh: false,
        spacing,
        shard: None,
    };
    let alloc = rt.alloc();
    let mut disk = disk_of(rt, &[], 0);
    let ready = prepare::<K, _>(alloc, case, run, list, &mut disk, &settings, blank);
    let mut ready = ready.expect(rt, "a campaign that is ready");
    let told = ended_twice(rt, &mut ready, &mut disk);
    drop(ready);
    told
}

// Tests all distances for one case. The second call has nothing left to run.
fn gives<R: Abort + AllocGlobal>(rt: &R, case: &Case, totals: [u64; 7]) {
    let run = golden(rt.alloc(), case).expect(rt, "a golden run");
    let list = jobs_of_case(rt.alloc(), case, &run).expect(rt, "memory");
    for spacing in [1, 2, 3, 7, 8, 256] {
        assert!(rt; spacing >= 1);
        let (before, first, second) = campaign_told::<Brand, _>(
            rt,
            case,
            &run,
            &list,
            spacing,
            Blank::new(1),
        );
        let (counted, _taken) = first;
        let found = (before, counted, second);
        same(spacing, found, ((0, true), totals, first)).expect(rt, "not the same");
    }
    drop(list);
    drop(run);
}

#[test]
fn spacings(rt: HostRuntime) {
    let map = Map::new(ROM, 256, RAM, 16).expect(&rt, "a map");
    for one in PROGRAMS.as_slice() {
        let case = case_in(rt.alloc(), &map, ROM, one.words, one.limit).expect(&rt, "a case");
        gives(&rt, &case, one.totals);
    }
}
