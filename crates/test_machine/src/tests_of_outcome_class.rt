//! The rows of the outcome table, for a golden run that halts with 7 after the bytes 65 and 66.
ghost use Rattle.std.specs.Prelude.{◌≤◌, length};

use fs_model::{Event, Outcome, TrapKind};
use outcome_class::Watch;
use std::process::Abort;
use test_asserts::same;

const FIRST: Event = Event::Out(65);

const SECOND: Event = Event::Out(66);

const HALTED: Event = Event::Halted(7);

const TRAPPED: Event = Event::Trapped(TrapKind::Address);

static ROWS: [(&[Event], Outcome); 16] = [
    (&[FIRST, Event::Went, SECOND, HALTED], Outcome::NoEffect),
    (&[FIRST, SECOND, Event::Halted(8)], Outcome::Silent),
    (&[HALTED], Outcome::Silent),
    (&[FIRST, HALTED], Outcome::Silent),
    (&[FIRST, SECOND, SECOND, HALTED], Outcome::Silent),
    (&[SECOND, FIRST, SECOND, HALTED], Outcome::Silent),
    (&[SECOND, SECOND, HALTED], Outcome::Silent),
    // Before an end other than the halt, the output does not matter.
    (&[FIRST, SECOND, Event::Detected], Outcome::Detected),
    (&[SECOND, Event::Detected], Outcome::Detected),
    (&[FIRST, SECOND, TRAPPED], Outcome::Address),
    (&[Event::Trapped(TrapKind::Illegal)], Outcome::Illegal),
    (
        &[FIRST, Event::Trapped(TrapKind::Misaligned)],
        Outcome::Misaligned,
    ),
    // Events after an end do not matter.
    (&[TRAPPED, FIRST, SECOND, HALTED], Outcome::Address),
    (&[FIRST, SECOND, HALTED, TRAPPED], Outcome::NoEffect),
    (&[FIRST, SECOND], Outcome::Timeout),
    (&[], Outcome::Timeout),
];

// Tests whether the watch agrees after this number of bytes.
fn agrees(rt: &impl Abort, place: u32, watch: &Watch<'_>, sent: usize, wanted: bool)
    requires { sent ≤ length watch.now.golden }
{
    same((place, sent), watch.agrees(sent), wanted).expect(rt, "not the same");
}

// Tests a watch that is started again after the first byte, and has seen an end before.
fn restarted(rt: &impl Abort) {
    let mut watch = Watch::new(7, &[65, 66]);
    watch.see(Event::Detected);
    watch.restart_at(1);
    agrees(rt, 1, &watch, 1, true);
    agrees(rt, 1, &watch, 2, false);
    watch.see(SECOND);
    agrees(rt, 2, &watch, 2, true);
    watch.see(HALTED);
    agrees(rt, 3, &watch, 2, false);
    same(3, watch.outcome(), Outcome::NoEffect).expect(rt, "not the same");
}

fn outcome_of(events: &[Event]) -> Outcome {
    let mut watch = Watch::new(7, &[65, 66]);
    for event in events {
        watch.see(*event);
    }
    watch.outcome()
}

#[test]
fn outcomes(rt: HostRuntime) {
    for (events, outcome) in ROWS {
        same(events, outcome_of(events), outcome).expect(&rt, "not the same");
    }
    restarted(&rt);
}
