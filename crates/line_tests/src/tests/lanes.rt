//! Questions of lanes at lengths on both sides of a block's.
use line_vectors::{all_le, count_over, first_over, max_into};
use std::alloc::Global;
use std::test::Fail;

/// What is answered of so many lanes of 5 beside as many, of which the last is 6 in the first
/// list alone: whether none is over, the first that is, how many are, and whether the greater of
/// both are the first list.
fn told(alloc: Global, n: usize) -> Result<(bool, Option<usize>, usize, bool), Fail> {
    let mut a = Vec::new(alloc);
    let mut b = Vec::new(alloc);
    for i in 0..n {
        a.push(if i + 1 == n { 6u32 } else { 5 })?;
        b.push(5u32)?;
    }
    if a.len() != b.len() {
        return Ok((true, None, 0, false));
    }
    let (none, first, count) = (all_le(&a, &b), first_over(&a, &b), count_over(&a, &b));
    max_into(b.as_mut_slice(), &a);
    Ok((none, first, count, a.as_slice() == b.as_slice()))
}

#[test]
fn finds_the_last_lane(rt: HostRuntime) -> Result<(), Fail> {
    for n in [1usize, 7, 8, 9, 63, 64, 255, 256] {
        assert_eq!(rt;
            told(rt.alloc(), n)?,
            (false, Some(n - 1), 1, true),
            "at {n}"
        );
    }
    Ok(())
}

#[test]
fn compares_no_lanes_and_the_greatest_number(rt: HostRuntime) {
    let nothing = (all_le(&[], &[]), first_over(&[], &[]), count_over(&[], &[]));
    assert_eq!(rt; nothing, (true, None, 0));
    let (greatest, none) = ([u32::MAX; 9], [0u32; 9]);
    let over = (first_over(&greatest, &none), count_over(&greatest, &none));
    assert_eq!(rt; over, (Some(0), 9));
    assert_eq!(rt;
        (all_le(&greatest, &none), all_le(&none, &greatest)),
        (false, true)
    );
}
