//! Rings: the worked example, and each call once with ample memory.

use tb_rings::{IdleWait, ring};
use tb_test_makers::check;

/// What both ends answer in one thread.
#[test]
fn ring_of_two(rt: HostRuntime) {
    let (mut outlet, mut inlet) = ring::<u32>(rt.alloc(), 2).expect(&rt, "memory");
    check!(&rt; outlet.give(1) == Ok(()));
    check!(&rt; outlet.give(2) == Ok(()));
    check!(&rt; outlet.give(3) == Err(3));
    check!(&rt; inlet.lying(&mut outlet) == 2);
    check!(&rt; inlet.take() == Some(1));
    check!(&rt; inlet.take() == Some(2));
    check!(&rt; inlet.take().is_none());
    check!(&rt; inlet.lying(&mut outlet) == 0);
}

/// Each slot of a larger ring is given into before the ring is full.
#[test]
fn ring_of_eight(rt: HostRuntime) {
    let (mut outlet, mut inlet) = ring::<u32>(rt.alloc(), 8).expect(&rt, "memory");
    for value in 0..8u32 {
        check!(&rt; outlet.give(value) == Ok(()));
    }
    check!(&rt; outlet.give(8) == Err(8));
    for value in 0..8u32 {
        check!(&rt; inlet.take() == Some(value));
    }
    check!(&rt; inlet.take().is_none());
}

/// A slot that was taken from is free again.
#[test]
fn ring_goes_round(rt: HostRuntime) {
    let (mut outlet, mut inlet) = ring::<u32>(rt.alloc(), 1).expect(&rt, "memory");
    for value in 0..5u32 {
        check!(&rt; outlet.give(value) == Ok(()));
        check!(&rt; outlet.give(99) == Err(99));
        check!(&rt; inlet.take() == Some(value));
    }
}

/// A thread that would sleep for ever is woken: by a value that was given before, and by a waker that was used before.
#[test]
fn woken_before_it_sleeps(rt: HostRuntime) {
    let (mut outlet, mut inlet) = ring::<u32>(rt.alloc(), 2).expect(&rt, "memory");
    let idle = IdleWait::new();
    for turn in 0..1000u32 {
        check!(&rt; outlet.give(turn) == Ok(()));
        inlet.wait(&rt, &idle);
        check!(&rt; inlet.take() == Some(turn));
    }
    let waker = inlet.waker().expect(&rt, "memory");
    waker.wake();
    inlet.wait(&rt, &idle);
    check!(&rt; inlet.take().is_none());
}

/// Tried with each allocation refused in turn, by `tools/gate/refuse-each-growth`: there are both ends, or
/// none.
#[test]
fn ring_refused_memory(rt: HostRuntime) {
    let Ok((mut outlet, mut inlet)) = ring::<u32>(rt.alloc(), 4) else {
        return;
    };
    check!(&rt; outlet.give(7) == Ok(()));
    check!(&rt; inlet.take() == Some(7));
}
