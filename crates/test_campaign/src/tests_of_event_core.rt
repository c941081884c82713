//! What the definitions do not say: the calls succeed, and give the answers that were written down with the
//! method.

use event_core::laws::every_list;
use event_core::{Applied, CoreEvent, Place, State};
use std::test::Fail;
use test_asserts::same;

// Two workers and three jobs: each event, and whether it is possible.
static EVENTS: [(CoreEvent, bool); 10] = [
    (CoreEvent::Resume, true),
    (CoreEvent::Claim { worker: 0, job: 1 }, false),
    (CoreEvent::Claim { worker: 0, job: 0 }, true),
    (CoreEvent::Claim { worker: 0, job: 1 }, false),
    (CoreEvent::Claim { worker: 1, job: 1 }, true),
    (CoreEvent::File { worker: 1, job: 1 }, true),
    (CoreEvent::Keep, true),
    (CoreEvent::File { worker: 1, job: 1 }, false),
    (CoreEvent::Resume, false),
    (CoreEvent::Stop { whole: true }, true),
];

// Events after the campaign is resumed, and whether each is possible.
static LATER_EVENTS: [(CoreEvent, bool); 4] = [
    (CoreEvent::Resume, true),
    (CoreEvent::Claim { worker: 5, job: 0 }, true),
    (CoreEvent::Claim { worker: 6, job: 2 }, true),
    (CoreEvent::Claim { worker: 7, job: 1 }, false),
];

fn answer(possible: bool) -> Applied {
    if possible {
        Applied::Did
    } else {
        Applied::Nothing
    }
}

#[test]
fn stopped_and_resumed(rt: HostRuntime) -> Result<(), Fail> {
    every_list();
    let mut state = State::new(rt.alloc(), 3)?;
    for (event, possible) in EVENTS.as_slice() {
        same(event, state.apply(event), answer(*possible)).expect(&rt, "not the same");
    }
    assert!(rt; state.jobs() == 3);
    let places = (state.place_of(0), state.place_of(1));
    same("jobs 0 and 1", places, (Place::Nowhere, Place::Kept)).expect(&rt, "not the same");
    for (event, possible) in LATER_EVENTS.as_slice() {
        same(event, state.apply(event), answer(*possible)).expect(&rt, "not the same");
    }
    Ok(())
}
