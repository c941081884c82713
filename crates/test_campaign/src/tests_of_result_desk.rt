//! Rows of `lui x1,0xF0000; sw x0,8(x1)`. Its jobs, by number, are the 32 bits of x1 before the second
//! instruction, and each is a trap.
ghost use Rattle.std.specs.Prelude.{◌≡◌, ◌+◌, ◌<◌, ◌≤◌, length};
ghost use Rattle.fs_model.specs.Cell.{bits};
ghost use Rattle.golden_trace.specs.Goldens.{IsGolden};
ghost use Rattle.result_desk.specs.Tally.{new_tally};

use experiment::run_site_plain;
use fs_model::{Case, Outcome, Row, Site, Verdict, bits};
use golden_trace::{Golden, golden};
use result_desk::{Desk, Filing, Tally};
use rv_machine::Machine;
use std::alloc::Global;
use std::marker::Brand;
use std::process::Abort;
use std::sync::ledger::{Blank, Ledger};
use test_asserts::same;
use test_cases::jobs_of_case;
use test_programs::{HALTS, case_of};

// Returns the verdict on a bit of x1 before the second instruction.
fn verdict_of<'c>(case: &'c Case, run: &Golden, machine: &mut Machine<'_>, bit: u8) -> Verdict<'c>
    requires golden { IsGolden case.now run.now }
    requires cycle { 1 < length run.now.touches }
    requires machine { machine.old.case ≡ case.now }
    requires bit { bit < bits 1 }
    ensures case { result.case ≡ case.now }
    ensures machine { machine.new.case ≡ machine.old.case }
{
    let site = Site {
        cycle: 1,
        cell: 1,
        bit,
    };
    let outcome = run_site_plain(case, run, machine, &site);
    let row = Row {
        cycle: 1,
        cell: 1,
        bit,
        outcome,
    };
    Verdict::of(case, row)
}

// Files the rows of these bits at the desk, and compares its answers.
fn file_all<K: Ledger, R: Abort>(
    rt: &R,
    case: &Case,
    run: &Golden,
    machine: &mut Machine<'_>,
    desk: &mut Desk<'_, K>,
    tally: &mut Tally<'_, K>,
    rows: &[(u8, Filing)],
)
    requires golden { IsGolden case.now run.now }
    requires cycle { 1 < length run.now.touches }
    requires machine { machine.old.case ≡ case.now }
    requires tally { tally.old.case ≡ case.now }
    requires room { length tally.old.offered + length rows.now ≤ tally.old.page }
    ensures machine { machine.new.case ≡ machine.old.case }
    ensures parts { tally.new.parts ≡ tally.old.parts }
{
    for (bit, answer) in rows {
        assert!(rt; *bit < bits(1));
        let verdict = verdict_of(case, run, machine, *bit);
        same(bit, desk.file(&verdict, tally), *answer).expect(rt, "not the same");
    }
}

// Begins a page of the jobs 3, 1, 2 and 0.
fn begin<K: Ledger, R: Abort>(
    rt: &R,
    alloc: Global,
    case: &Case,
    run: &Golden,
    desk: &mut Desk<'_, K>,
)
    requires desk { desk.old.page ≡ 4 }
    requires golden { IsGolden case.now run.now }
{
    let list = jobs_of_case(alloc, case, run).expect(rt, "memory");
    assert!(rt; list.len() == 32);
    desk.begin(&list, &[3, 1, 2, 0]);
    drop(list);
}

// Two workers file 3 and 1 rows of a page of four jobs.
fn settles<K: Ledger, R: Abort>(
    rt: &R,
    alloc: Global,
    case: &Case,
    run: &Golden,
    machine: &mut Machine<'_>,
    blank: Blank,
)
    requires blank { (blank.name ≡ K.name) × (blank.parts ≡ K.parts) × (blank.parts ≡ 2) }
    requires golden { IsGolden case.now run.now }
    requires machine { machine.old.case ≡ case.now }
{
    let made = Desk::<K>::new(alloc, case, 4, 2, blank);
    let (mut desk, mut tallies) = made.expect(rt, "memory");
    begin(rt, alloc, case, run, &mut desk);
    let second = tallies.pop().expect(rt, "two tallies");
    let first = tallies.pop().expect(rt, "two tallies");
    let settled = file_both(rt, case, run, machine, &mut desk, first, second);
    assert!(rt; settled == 4);
}

// Files the rows of both workers, joins their tallies, and settles.
fn file_both<'c, K: Ledger, R: Abort>(
    rt: &R,
    case: &Case,
    run: &Golden,
    machine: &mut Machine<'_>,
    desk: &mut Desk<'c, K>,
    mut first: Tally<'c, K>,
    mut second: Tally<'c, K>,
) -> u64
    requires golden { IsGolden case.now run.now }
    requires machine { machine.old.case ≡ case.now }
    requires first { first ≡ new_tally case.now 4 }
    requires second { second ≡ new_tally case.now 4 }
    requires parts { K.parts ≡ 2 }
{
    assert!(rt; run.count() == 2);
    let firsts = [(3, Filing::Filed), (1, Filing::Filed), (2, Filing::Filed)];
    let seconds = [
        (0, Filing::Filed),
        (3, Filing::Known),
        (9, Filing::OutsidePage),
    ];
    file_all(rt, case, run, machine, desk, &mut first, &firsts);
    file_all(rt, case, run, machine, desk, &mut second, &seconds);
    looks(rt, desk, &first, &second);
    join_both(rt, desk, first, second)
}

fn join_both<'c, K: Ledger, R: Abort>(
    rt: &R,
    desk: &mut Desk<'c, K>,
    mut first: Tally<'c, K>,
    mut second: Tally<'c, K>,
) -> u64
    requires parts { first.parts + second.parts ≡ K.parts }
{
    second.clear();
    assert!(rt; second.offered().is_empty());
    assert!(rt; first.filed() == 3);
    assert!(rt; second.filed() == 1);
    first.join(second);
    desk.settle(&mut first)
}

// Tests what can be read afterwards.
fn looks<K: Ledger, R: Abort>(
    rt: &R,
    desk: &Desk<'_, K>,
    first: &Tally<'_, K>,
    second: &Tally<'_, K>,
) {
    let row = Row {
        cycle: 1,
        cell: 1,
        bit: 3,
        outcome: Outcome::Address,
    };
    assert!(rt; desk.len() == 4);
    assert!(rt; desk.page() == 4);
    assert!(rt; desk.row_of(0) == Some(row));
    assert!(rt; desk.row_of(4).is_none());
    assert!(rt; first.offered().first() == Some(&row));
    assert!(rt; second.offered().len() == 3);
}

#[test]
fn two_tallies(rt: HostRuntime) {
    let alloc = rt.alloc();
    let case = case_of(alloc, &HALTS, 100).expect(&rt, "a case");
    let run = golden(alloc, &case).expect(&rt, "a golden run");
    let mut machine = Machine::new(alloc, &case).expect(&rt, "memory");
    settles::<Brand, HostRuntime>(&rt, alloc, &case, &run, &mut machine, Blank::new(2));
    drop(machine);
    drop(run);
    drop(case);
}

// Files a row of another case, by a tally of that case.
fn is_strange<K: Ledger, R: Abort>(
    rt: &R,
    alloc: Global,
    case: &Case,
    other: &Case,
    run: &Golden,
    machine: &mut Machine<'_>,
    blank: Blank,
)
    requires blank { (blank.name ≡ K.name) × (blank.parts ≡ K.parts) × (blank.parts ≡ 1) }
    requires golden { IsGolden other.now run.now }
    requires machine { machine.old.case ≡ other.now }
{
    assert!(rt; run.count() == 2);
    let (book, share) = blank.open::<K>();
    let mut desk = Desk::of_book(alloc, case, 4, book).expect(rt, "memory");
    let mut tally = Tally::new(alloc, other, 4, share).expect(rt, "memory");
    let strange = [(3, Filing::Stranger)];
    file_all(rt, other, run, machine, &mut desk, &mut tally, &strange);
    assert!(rt; tally.filed() == 0);
    assert!(rt; tally.offered().len() == 1);
    assert!(rt; desk.len() == 0);
}

#[test]
fn a_stranger(rt: HostRuntime) {
    let alloc = rt.alloc();
    let case = case_of(alloc, &HALTS, 100).expect(&rt, "a case");
    let other = case_of(alloc, &HALTS, 99).expect(&rt, "a case");
    let run = golden(alloc, &other).expect(&rt, "a golden run");
    let mut machine = Machine::new(alloc, &other).expect(&rt, "memory");
    let blank = Blank::new(1);
    is_strange::<Brand, HostRuntime>(&rt, alloc, &case, &other, &run, &mut machine, blank);
    drop(machine);
    drop(run);
    drop(other);
    drop(case);
}
