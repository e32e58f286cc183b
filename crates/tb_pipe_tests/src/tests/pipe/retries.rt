//! What is to be tried again comes out by its moments.

use std::process::Abort;
use tb_figures::Retries;
use tb_test_makers::check;

/// Asserts which item is due at a moment, and when the next one is.
fn assert_due(
    rt: &impl Abort,
    retries: &mut Retries<u8>,
    now: u64,
    wanted: Option<u8>,
    next: Option<u64>,
) {
    check!(rt; retries.pop_due(now) == wanted);
    check!(rt; retries.next_moment() == next);
}

/// Two of one moment come in the order in which they were added. The last is of the largest moment.
#[test]
fn by_moments_and_each_once(rt: HostRuntime) {
    let mut retries = Retries::with_bound(rt.alloc(), 5).expect(&rt, "memory");
    assert_due(&rt, &mut retries, u64::MAX, None, None);
    for (moment, item) in [(5, 1), (3, 2), (5, 3), (u64::MAX, 4), (0, 5)] {
        check!(&rt; retries.add(moment, item) == Ok(()));
    }
    check!(&rt; retries.add(1, 6) == Err(6));
    check!(&rt; retries.len() == 5);
    for (now, wanted, next) in [(2, Some(5), 3), (2, None, 3), (3, Some(2), 5)] {
        assert_due(&rt, &mut retries, now, wanted, Some(next));
    }
    check!(&rt; retries.add(4, 7) == Ok(()));
    for (now, wanted, next) in [
        (9, Some(7), Some(5)),
        (9, Some(1), Some(5)),
        (9, Some(3), Some(u64::MAX)),
        (9, None, Some(u64::MAX)),
        (u64::MAX, Some(4), None),
    ] {
        assert_due(&rt, &mut retries, now, wanted, next);
    }
    check!(&rt; retries.len() == 0);
    drop(retries);
}
