//! Each element is changed once, by a call with its index.

use fan_out::for_each_mut;
use std::test::Fail;
use std::thread::Threads;
use test_asserts::same;

// Adds a hundred times its index to each element.
fn added<R: Threads + Sync>(rt: &R, numbers: &mut [usize]) {
    for_each_mut(
        rt,
        numbers,
        &|place, number| { *number = number.wrapping_add(place.wrapping_mul(100)) },
    );
}

#[test]
fn none_one_and_five(rt: HostRuntime) -> Result<(), Fail> {
    let rows: [(&[usize], &[usize]); 3] = [
        (&[], &[]),
        (&[7], &[7]),
        (&[1, 2, 3, 4, 5], &[1, 102, 203, 304, 405]),
    ];
    for (numbers, wanted) in rows {
        let mut numbers = numbers.to_vec(rt.alloc())?;
        added(&rt, &mut numbers);
        same(wanted, numbers.as_slice(), wanted).expect(&rt, "not the same");
    }
    Ok(())
}
