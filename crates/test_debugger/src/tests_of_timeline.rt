//! Places of the runs of a short program, and where they stop, worked out by hand. Of the program, instruction 1 puts
//! 65 into x2, 2 stores that word in RAM, 3 clears its second byte, 4 loads the word into x4, 6 sends its low byte,
//! and 7 halts with it.

use fs_model::{Case, Event, Site, is_site};
use rv_machine::Machine;
use std::alloc::Global;
use std::process::Abort;
use test_asserts::same;
use test_programs::{ROM, STORES, case_of};
use timeline::{Hit, Timeline, Watch, WatchKind};

/// Before instruction 2 the 65 becomes 67.
const CHANGED: Site = Site {
    cycle: 2,
    cell: 2,
    bit: 1,
};

// A place, and x2 there: without the flip, and with it.
static PLACES: [(u32, u32, u32); 6] = [
    (5, 65, 67),
    (1, 0, 0),
    (7, 65, 67),
    (2, 65, 67),
    (0, 0, 0),
    (3, 65, 67),
];

// A watchpoint with its length; where the run stops that goes on from the first place, and where one that goes back from
// the last; 7 and 0 are also where it comes to if nothing stops it.
static WATCHED: [(WatchKind, u32, u32, u32, u32); 7] = [
    (WatchKind::Write, 0x8000_0001, 1, 3, 3),
    (WatchKind::Write, 0x8000_0000, 1, 3, 2),
    (WatchKind::Read, 0x8000_0003, 1, 5, 4),
    (WatchKind::Access, 0x7fff_ffff, 2, 3, 4),
    (WatchKind::Write, 0xf000_0000, 1, 7, 6),
    (WatchKind::Read, 0xf000_0000, 1, 7, 0),
    (WatchKind::Write, 0x8000_0004, 4, 7, 0),
];

// Returns what stopped a run: 1 for a breakpoint, and the first address of a watchpoint.
fn told(hit: Option<Hit>) -> u32 {
    match hit {
        None => 0,
        Some(Hit::Breakpoint) => 1,
        Some(Hit::Watchpoint(watch)) => watch.address,
    }
}

fn seen(run: &Timeline<'_>) -> (u32, u32) {
    (run.machine().pc(), run.machine().registers()[2])
}

fn all_places(rt: &impl Abort, golden: &mut Timeline<'_>, injected: &mut Timeline<'_>) {
    same("the lengths", (golden.last(), injected.last()), (7, 7)).expect(rt, "not the same");
    let ends = (golden.end(), injected.end());
    same(
        "the ends",
        ends == (Event::Halted(65), Event::Halted(67)),
        true,
    )
    .expect(rt, "no end");
    for (place, without, with) in PLACES {
        assert!(rt; place <= golden.last());
        assert!(rt; place <= injected.last());
        golden.go_to(place);
        injected.go_to(place);
        let pc = ROM + 4 * place;
        same(place, seen(golden), (pc, without)).expect(rt, "not the same");
        same(place, seen(injected), (pc, with)).expect(rt, "not the same");
        let sent = (place == 7) as usize;
        same(place, injected.output().len(), sent).expect(rt, "not the same");
    }
}

fn all_watches(rt: &impl Abort, run: &mut Timeline<'_>) {
    for (kind, address, length, forth, back) in WATCHED {
        let watch = Watch {
            kind,
            address,
            length,
        };
        run.go_to(0);
        let hit = run.go_on_to(&[], &[watch]);
        let found = (run.place(), told(hit) == address);
        same((address, forth), found, (forth, forth < 7 || back > 0)).expect(rt, "not the same");
        run.go_to(run.last());
        let hit = run.go_back_to(&[], &[watch], 0);
        let found = (run.place(), told(hit) == address);
        same((address, back), found, (back, back > 0)).expect(rt, "not the same");
    }
}

fn a_breakpoint(rt: &impl Abort, run: &mut Timeline<'_>) {
    let stops = [ROM + 12];
    run.go_to(0);
    let hit = run.go_on_to(&stops, &[]);
    same("to it", (told(hit), run.place()), (1, 3)).expect(rt, "not the same");
    let hit = run.go_on_to(&stops, &[]);
    same("from it", (told(hit), run.place()), (0, 7)).expect(rt, "not the same");
    assert!(rt; run.place() >= 2);
    let hit = run.go_back_to(&stops, &[], 2);
    same("back", (told(hit), run.place()), (1, 3)).expect(rt, "not the same");
    assert!(rt; run.place() >= 2);
    let hit = run.go_back_to(&stops, &[], 2);
    same("to the floor", (told(hit), run.place()), (0, 2)).expect(rt, "not the same");
}

// A place, a register, and the instruction that wrote the register last before.
static WRITES: [(u32, u32, Option<u32>); 5] = [
    (7, 2, Some(1)),
    (7, 4, Some(4)),
    (4, 4, None),
    (1, 2, None),
    (7, 0, None),
];

fn all_writes(rt: &impl Abort, run: &mut Timeline<'_>) {
    for (place, register, wanted) in WRITES {
        assert!(rt; place <= run.last());
        run.go_to(place);
        let found = (run.last_write(register), run.place());
        same((place, register), found, (wanted, place)).expect(rt, "not the same");
    }
}

fn injected_run<'c>(rt: &impl Abort, alloc: Global, case: &'c Case, site: Site) -> Timeline<'c> {
    assert!(rt; is_site(case, 8, &site));
    Timeline::new(alloc, case, Some(site)).expect(rt, "memory")
}

#[test]
fn places_by_hand(rt: HostRuntime) {
    let case = case_of(rt.alloc(), &STORES, 100).expect(&rt, "a case");
    let mut golden = Timeline::new(rt.alloc(), &case, None).expect(&rt, "memory");
    let mut injected = injected_run(&rt, rt.alloc(), &case, CHANGED);
    all_places(&rt, &mut golden, &mut injected);
    all_watches(&rt, &mut golden);
    a_breakpoint(&rt, &mut injected);
    all_writes(&rt, &mut injected);
    drop(injected);
    drop(golden);
    drop(case);
}
