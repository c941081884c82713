//! Numbers that two handles claim from one queue.
ghost use Rattle.std.specs.Prelude.{◌≡◌, ◌≤◌, [], ◌∷◌};
ghost use Rattle.job_queue.specs.Pages.{view_of, all_parts, spent};
ghost use Rattle.job_queue.specs.Hands.{page_size_of, hands_of, filler_view, hand_view, IsFillerOf, IsHandOf};

use job_queue::{Filler, Gathered, Hand, Jobs};
use std::process::Abort;
use std::sync::Wait;
use std::test::Fail;
use test_asserts::same;

#[test]
fn two_hands(rt: HostRuntime) -> Result<(), Fail> {
    let (jobs, mut filler, mut hands) = Jobs::new(rt.alloc(), 4, 2)?;
    let mut second = hands.pop().expect(&rt, "two hands");
    let mut first = hands.pop().expect(&rt, "two hands");
    jobs.fill(&rt, &mut filler, &[3, 1, 2, 0]);
    jobs.hand_out(&mut filler, &mut first);
    jobs.hand_out(&mut filler, &mut second);
    same("first", jobs.claim(&rt, &mut first), Some(3)).expect(&rt, "not the same");
    same("second", jobs.claim(&rt, &mut second), Some(1)).expect(&rt, "not the same");
    jobs.take_back(&mut filler, &mut first);
    jobs.take_back(&mut filler, &mut second);
    let gathered = jobs.gather(&rt, &mut filler);
    same(
        "two of four",
        gathered,
        Gathered {
            claimed: 2,
            left: 2,
        },
    )
    .expect(&rt, "not the same");
    same("first, no page", jobs.claim(&rt, &mut first), None).expect(&rt, "not the same");
    assert!(rt; first.ended());
    assert!(rt; second.ended());
    same("first", first.claims(), [3].as_slice()).expect(&rt, "not the same");
    jobs.fill(&rt, &mut filler, &[7]);
    same(
        "one of one",
        one_number(&rt, &jobs, &mut filler, &mut first, &mut second),
        Gathered {
            claimed: 1,
            left: 0,
        },
    )
    .expect(&rt, "not the same");
    same("first", first.claims(), [7].as_slice()).expect(&rt, "not the same");
    assert!(rt; second.claims().is_empty());
    Ok(())
}

fn one_number<R: Wait + Abort>(
    rt: &R,
    jobs: &Jobs,
    filler: &mut Filler,
    first: &mut Hand,
    second: &mut Hand,
) -> Gathered
    requires filler { IsFillerOf jobs.now filler.old × (hands_of jobs.now ≡ 2) × (1 ≤ page_size_of jobs.now)
        × (filler_view filler.old ≡ view_of all_parts (7 ∷ []) [] 0 2) }
    requires first { IsHandOf jobs.now first.old × (hand_view first.old ≡ spent) }
    requires second { IsHandOf jobs.now second.old × (hand_view second.old ≡ spent) }
{
    jobs.hand_out(filler, first);
    jobs.hand_out(filler, second);
    same("first", jobs.claim(rt, first), Some(7)).expect(rt, "not the same");
    same("first again", jobs.claim(rt, first), None).expect(rt, "not the same");
    same("second", jobs.claim(rt, second), None).expect(rt, "not the same");
    assert!(rt; first.ended());
    assert!(rt; second.ended());
    jobs.take_back(filler, first);
    jobs.take_back(filler, second);
    jobs.gather(rt, filler)
}
