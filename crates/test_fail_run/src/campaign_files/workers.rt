//! Workers that run at the same time.

use super::files::{disk, image_of, keep_line};
use super::writes;
use fs_outside::HoldGate;
use test_asserts::same;
use test_devices::{CallGate, NO_FAILS, call_through};
use test_programs::reports::SENDS;

// The gate holds the first claim until another worker has claimed. A single worker is held until the gate's turns
// run out.
#[test]
fn two_at_once(rt: HostRuntime) {
    for (workers, seen) in [("2", true), ("1", false)] {
        let gate = HoldGate::new();
        let words = keep_line(&rt, "run", "100", &["--workers", workers]);
        let mut kept = disk(&rt, &[], &[]);
        let image = image_of(&rt, &SENDS);
        let ended = call_through(
            &rt,
            rt.alloc(),
            &words,
            image,
            &NO_FAILS,
            &mut kept,
            CallGate::Hold(&gate),
        )
        .expect(&rt, "memory");
        writes(&rt, &ended, SENDS.report);
        same(workers, gate.saw(), seen).expect(&rt, "not the same");
    }
}
