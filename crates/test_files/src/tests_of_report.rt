//! The reports of short programs. Their texts were worked out by hand or by another implementation.

use def_use::{Board, JobList};
use fs_model::{Outcome, Totals};
use fs_outside::{Failed, MemSink, SureSink};
use golden_trace::golden;
use report::{
    ReportRefusal, write_jobs_csv, write_json, write_plan, write_plan_csv, write_sample, write_text,
};
use std::process::Abort;
use test_asserts::same;
use test_cases::jobs_of_case;
use test_programs::{HALTS, case_of};

// Returns the totals of a program that sends a byte: 4 instructions, 4480 sites.
fn sends_a_byte() -> Totals {
    let mut totals = Totals::zero();
    totals.add(Outcome::NoEffect, 4376);
    totals.add(Outcome::Silent, 10);
    totals.add(Outcome::Detected, 2);
    totals.add(Outcome::Address, 90);
    totals.add(Outcome::Misaligned, 2);
    totals
}

// `addi x2,x0,200; addi x2,x2,-1; bne x2,x0,-4; lui x1,0xF0000; sw x0,8(x1)`: each of the instructions 1 to 400
// reads x2, and instruction 402 reads x1.
const COUNTS_FROM_200: [u32; 5] = [
    0x0c80_0113,
    0xfff1_0113,
    0xfe01_1ee3,
    0xf000_00b7,
    0x0000_a423,
];

fn jobs_of<R: Abort + AllocGlobal>(rt: &R, words: &[u32]) -> JobList {
    let case = case_of(rt.alloc(), words, 1000).expect(rt, "a case");
    let run = golden(rt.alloc(), &case).expect(rt, "a golden run");
    let list = jobs_of_case(rt.alloc(), &case, &run).expect(rt, "memory");
    drop(run);
    drop(case);
    list
}

// Returns the jobs of `lui x1,0xF0000; sw x0,8(x1)`: one for each bit of x1 at the store.
fn jobs_of_two<R: Abort + AllocGlobal>(rt: &R) -> JobList {
    jobs_of(rt, &HALTS)
}

// Returns a board with an outcome for each of them.
fn traps<R: Abort + AllocGlobal>(rt: &R, list: &JobList) -> Board {
    let mut board = Board::new(rt.alloc(), list.len()).expect(rt, "memory");
    for number in 0..list.len() {
        assert!(rt; number < board.len());
        board.put(number, Outcome::Address);
    }
    board
}

// Adds a line for each bit of a register, with `end` after the bit.
fn push_lines<R: Abort + AllocGlobal>(rt: &R, text: &mut String, cycle: u32, cell: u32, end: &str) {
    for bit in 0..32u32 {
        let line = format!(in rt.alloc(); "{cycle},{cell},{bit},{end}\n").expect(rt, "memory");
        text.push_str(&line).expect(rt, "memory");
    }
}

// Returns the lines of `jobs_of_two`.
fn lines<R: Abort + AllocGlobal>(rt: &R, names: &str, end: &str) -> String {
    let mut text = String::from_str(rt.alloc(), names).expect(rt, "memory");
    push_lines(rt, &mut text, 1, 1, end);
    text
}

// Returns the lines of `COUNTS_FROM_200`: about 140,000 bytes.
fn many_lines<R: Abort + AllocGlobal>(rt: &R, names: &str, end: &str) -> String {
    let mut text = String::from_str(rt.alloc(), names).expect(rt, "memory");
    for cycle in 1..401u32 {
        push_lines(rt, &mut text, cycle, 2, end);
    }
    push_lines(rt, &mut text, 402, 1, end);
    text
}

// Tests that a report succeeded and wrote this text.
fn wrote(rt: &impl Abort, key: &str, answer: Result<(), Failed>, out: &SureSink, text: &str) {
    same(key, (answer, out.bytes()), (Ok(()), text.as_bytes())).expect(rt, "not the same");
}

#[test]
fn texts_and_json(rt: HostRuntime) {
    text(&rt);
    sample(&rt);
    plan(&rt);
    json(&rt);
}

fn text<R: Abort + AllocGlobal>(rt: &R) {
    let mut out = SureSink::new(rt.alloc());
    let answer = write_text(&mut out, 4, 4480, &sends_a_byte());
    let text =
        "instructions 4\nsites 4480\nno-effect 4376\nsilent 10\ndetected 2\nillegal 0\naddress 90\nmisaligned 2\ntimeout 0\n";
    wrote(rt, "text", answer, &out, text);
}

fn sample<R: Abort + AllocGlobal>(rt: &R) {
    let mut out = SureSink::new(rt.alloc());
    let answer = write_sample(&mut out, 4, 128, 4480, &sends_a_byte());
    let sample =
        "instructions 4\npopulation 128\nsamples 4480\nno-effect 4376\nsilent 10\ndetected 2\nillegal 0\naddress 90\nmisaligned 2\ntimeout 0\n";
    wrote(rt, "sample", answer, &out, sample);
}

fn plan<R: Abort + AllocGlobal>(rt: &R) {
    let mut out = SureSink::new(rt.alloc());
    let answer = write_plan(&mut out, 2, 2240, &jobs_of_two(rt));
    let plan = "instructions 2\nsites 2240\njobs 32\nlive 32\ndead 2208\n";
    wrote(rt, "plan", answer, &out, plan);
}

// Tests that a report in a format of other programs succeeded and wrote this text.
fn gave(rt: &impl Abort, key: &str, answer: Result<(), ReportRefusal>, out: &SureSink, text: &str) {
    same(key, (answer, out.bytes()), (Ok(()), text.as_bytes())).expect(rt, "not the same");
}

fn json<R: Abort + AllocGlobal>(rt: &R) {
    let mut out = SureSink::new(rt.alloc());
    let answer = write_json(rt.alloc(), &mut out, 4, 4480, &sends_a_byte());
    let json =
        "{\"address\":90,\"detected\":2,\"illegal\":0,\"instructions\":4,\"misaligned\":2,\"no_effect\":4376,\"silent\":10,\"sites\":4480,\"timeout\":0}\n";
    gave(rt, "json", answer, &out, json);
}

// Tests the lines of a plan.
fn plan_csv<R: Abort + AllocGlobal>(rt: &R, list: &JobList, text: &str) {
    let mut out = SureSink::new(rt.alloc());
    let answer = write_plan_csv(rt.alloc(), &mut out, list);
    gave(rt, "plan", answer, &out, text);
}

// Tests the lines of the jobs, each of which has the same outcome.
fn jobs_csv<R: Abort + AllocGlobal>(rt: &R, list: &JobList, text: &str) {
    let board = traps(rt, list);
    let mut out = SureSink::new(rt.alloc());
    assert!(rt; board.len() == list.len());
    let answer = write_jobs_csv(rt.alloc(), &mut out, list, &board);
    gave(rt, "jobs", answer, &out, text);
}

#[test]
fn comma_separated_values(rt: HostRuntime) {
    let list = jobs_of_two(&rt);
    plan_csv(&rt, &list, &lines(&rt, "cycle,cell,bit,weight\n", "1"));
    jobs_csv(
        &rt,
        &list,
        &lines(&rt, "cycle,cell,bit,weight,outcome\n", "1,address"),
    );
}

#[test]
fn more_lines_than_a_buffer_holds(rt: HostRuntime) {
    let list = jobs_of(&rt, &COUNTS_FROM_200);
    plan_csv(&rt, &list, &many_lines(&rt, "cycle,cell,bit,weight\n", "1"));
    jobs_csv(
        &rt,
        &list,
        &many_lines(&rt, "cycle,cell,bit,weight,outcome\n", "1,address"),
    );
}

// Returns a sink whose write with this number fails.
fn failing<R: Abort + AllocGlobal>(rt: &R, write: u64) -> MemSink {
    let fails = vec![in rt.alloc(); write].expect(rt, "memory");
    MemSink::new(rt.alloc(), fails)
}

// The rows are made in memory and written in one piece, so a sink takes all of them or none.
#[test]
fn a_sink_that_fails_takes_no_row(rt: HostRuntime) {
    let list = jobs_of(&rt, &COUNTS_FROM_200);
    no_plan(&rt, &list);
    no_jobs(&rt, &list);
    let plan = many_lines(&rt, "cycle,cell,bit,weight\n", "1");
    one_piece(&rt, &list, &plan);
}

fn no_plan<R: Abort + AllocGlobal>(rt: &R, list: &JobList) {
    let mut out = failing(rt, 1);
    let answer = write_plan_csv(rt.alloc(), &mut out, list);
    let wanted = (Err(ReportRefusal::Failed), 0);
    same("plan", (answer, out.bytes().len()), wanted).expect(rt, "not the same");
}

fn no_jobs<R: Abort + AllocGlobal>(rt: &R, list: &JobList) {
    let board = traps(rt, list);
    let mut out = failing(rt, 1);
    assert!(rt; board.len() == list.len());
    let answer = write_jobs_csv(rt.alloc(), &mut out, list, &board);
    let wanted = (Err(ReportRefusal::Failed), 0);
    same("jobs", (answer, out.bytes().len()), wanted).expect(rt, "not the same");
}

// A failure of the second write is not met.
fn one_piece<R: Abort + AllocGlobal>(rt: &R, list: &JobList, plan: &str) {
    let mut out = failing(rt, 2);
    let answer = write_plan_csv(rt.alloc(), &mut out, list);
    let wanted = (Ok(()), plan.as_bytes());
    same("one piece", (answer, out.bytes()), wanted).expect(rt, "not the same");
}

#[test]
fn a_sink_that_fails(rt: HostRuntime) {
    let mut out = failing(&rt, 3);
    let failed = write_text(&mut out, 4, 4480, &sends_a_byte());
    let wanted = (Err(Failed), b"instructions ".as_slice());
    same("text", (failed, out.bytes()), wanted).expect(&rt, "not the same");
    no_json(&rt);
}

fn no_json<R: Abort + AllocGlobal>(rt: &R) {
    let mut out = failing(rt, 1);
    let failed = write_json(rt.alloc(), &mut out, 4, 4480, &sends_a_byte());
    same(
        "json",
        (failed, out.bytes().len()),
        (Err(ReportRefusal::Failed), 0),
    )
    .expect(rt, "not the same");
}
