//! Copies of queues, which have the same timers and are apart from what they were made of.
use crate::row::Numbers;
use fc_base::TryClone;
use fc_timers::{Timer, TimerQueue, TryReserveError};
use std::alloc::Global;
use std::test::Fail;
use test_values::{Owned, Stubborn};

// A timer, or why there is none: of what was to be put in nothing is told.
fn insert(queue: &mut Numbers, at: u64, value: u64) -> Result<Timer, TryReserveError> {
    match queue.try_insert(at, value) {
        Ok(timer) => Ok(timer),
        Err((_at, _value, error)) => Err(error),
    }
}

#[test]
fn a_copy_finds_what_the_queue_finds(rt: HostRuntime) -> Result<(), Fail> {
    let mut queue: Numbers = TimerQueue::new(rt.alloc());
    let gone = insert(&mut queue, 10, 1)?;
    let late = insert(&mut queue, 30, 2)?;
    let soon = insert(&mut queue, 20, 3)?;
    assert!(rt; queue.cancel(gone) == Some((10, 1)));
    let mut copy = queue.try_clone()?;
    assert!(rt; copy.get(late) == Some((&30, &2)) && copy.get(soon) == Some((&20, &3)));
    assert!(rt; !copy.contains(gone) && copy.len() == 2);
    // What is put in next has one handle in both, and those of one time keep their order.
    let new = insert(&mut queue, 20, 4)?;
    assert!(rt; !copy.contains(new) && insert(&mut copy, 20, 5)? == new);
    assert!(rt; copy.pop_first() == Some((soon, 20, 3)) && queue.contains(soon));
    assert!(rt; copy.pop_first() == Some((new, 20, 5)) && queue.get(new) == Some((&20, &4)));
    assert!(rt; copy.pop_first() == Some((late, 30, 2)) && copy.is_empty() && queue.len() == 3);
    Ok(())
}

// Puts so many numbers that own memory in, as far as there is memory, and tells how many timers there are then.
fn fill(alloc: Global, queue: &mut TimerQueue<u64, Owned>, count: u64) -> usize {
    for at in 0..count {
        if let Ok(value) = Owned::try_new(alloc, at) {
            let _put = queue.try_insert(at, value).is_ok();
        }
    }
    queue.len()
}

// The sweep refuses each request in turn: of the values, of the slots, and of their copies.
#[test]
fn a_refused_copy_is_given_up(rt: HostRuntime) {
    let mut queue: TimerQueue<u64, Owned> = TimerQueue::new(rt.alloc());
    let count = fill(rt.alloc(), &mut queue, 6);
    match queue.try_clone() {
        Ok(copy) => assert!(rt; copy.len() == count),
        Err(error) => assert!(rt; matches!(error, TryReserveError::AllocError)),
    }
    assert!(rt; queue.len() == count);
}

// An owned walk that is given up midway drops what it did not give.
#[test]
fn what_an_owned_walk_does_not_give_is_given_up(rt: HostRuntime) {
    let mut queue: TimerQueue<u64, Owned> = TimerQueue::new(rt.alloc());
    let count = fill(rt.alloc(), &mut queue, 6);
    let mut walk = queue.into_iter();
    let is_first = walk.next().is_some();
    assert!(rt; is_first == (count > 0) && walk.len() == count.saturating_sub(1));
}

#[test]
fn the_error_of_a_value_is_handed_on(rt: HostRuntime) -> Result<(), Fail> {
    let mut queue: TimerQueue<u64, Stubborn> = TimerQueue::new(rt.alloc());
    let value = Stubborn {
        number: 1,
        refusal: Some(TryReserveError::CapacityOverflow),
    };
    let is_put = queue.try_insert(10, value).is_ok();
    let refused = queue.try_clone().err();
    assert!(rt;
        !is_put
            || matches!(
                refused,
                Some(TryReserveError::CapacityOverflow | TryReserveError::AllocError)
            )
    );
    Ok(())
}
