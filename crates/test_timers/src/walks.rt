//! Walks over a queue: those that leave its timers there, and those that take them out.
use crate::row::Numbers;
use fc_timers::{Timer, TimerQueue, TryReserveError};
use std::alloc::{AllocError, Global};
use std::test::Fail;

// A timer, or why there is none: of what was to be put in nothing is told.
fn insert(queue: &mut Numbers, at: u64, value: u64) -> Result<Timer, TryReserveError> {
    match queue.try_insert(at, value) {
        Ok(timer) => Ok(timer),
        Err((_at, _value, error)) => Err(error),
    }
}

// Timers with the values 1, 4 and 16, of which the last has the slot that one with the value 2 left; and one slot more is vacant.
fn three(alloc: Global) -> Result<Numbers, TryReserveError> {
    let mut queue: Numbers = TimerQueue::new(alloc);
    insert(&mut queue, 30, 1)?;
    let left = insert(&mut queue, 10, 2)?;
    insert(&mut queue, 20, 4)?;
    let cancelled = insert(&mut queue, 5, 8)?;
    queue.cancel(cancelled);
    queue.cancel(left);
    insert(&mut queue, 30, 16)?;
    Ok(queue)
}

// The sum of the values that a walk gives, and whether the queue finds each timer as the walk gives it.
fn walked(queue: &Numbers) -> (u64, bool) {
    let mut sum = 0u64;
    let mut is_right = true;
    for (timer, at, value) in queue {
        sum = sum.wrapping_add(*value);
        is_right = is_right && queue.get(timer) == Some((at, value));
    }
    (sum, is_right)
}

// The values are powers of two, so that their sum tells which of them came, and how often.
#[test]
fn a_walk_gives_each_timer_once(rt: HostRuntime) -> Result<(), Fail> {
    let queue = three(rt.alloc())?;
    assert!(rt; walked(&queue) == (21, true));
    assert!(rt; queue.len() == 3);
    Ok(())
}

#[test]
fn a_walk_tells_how_many_are_left(rt: HostRuntime) -> Result<(), Fail> {
    let queue = three(rt.alloc())?;
    let mut walk = queue.iter();
    assert!(rt; walk.len() == 3 && walk.next().is_some());
    let mut other = walk.clone()?;
    assert!(rt; other.next().is_some() && other.next().is_some() && other.next().is_none());
    assert!(rt; walk.len() == 2 && other.len() == 0);
    Ok(())
}

#[test]
fn a_walk_over_no_timer_ends(rt: HostRuntime) -> Result<(), Fail> {
    let mut queue = three(rt.alloc())?;
    queue.clear();
    assert!(rt; walked(&queue) == (0, true) && queue.into_iter().next().is_none());
    Ok(())
}

// The times that an owned walk gives, as the digits of a number.
fn digits(queue: Numbers) -> u64 {
    let mut digits = 0u64;
    for (_timer, _at, value) in queue {
        digits = digits.wrapping_mul(100).wrapping_add(value);
    }
    digits
}

#[test]
fn an_owned_walk_gives_timers_as_they_come_out(rt: HostRuntime) -> Result<(), Fail> {
    let queue = three(rt.alloc())?;
    assert!(rt; digits(queue) == 40116);
    Ok(())
}

#[test]
fn the_first_comes_out_before_it_is_due(rt: HostRuntime) -> Result<(), Fail> {
    let mut queue: Numbers = TimerQueue::new(rt.alloc());
    assert!(rt; queue.pop_first() == None);
    let late = insert(&mut queue, 30, 1)?;
    let soon = insert(&mut queue, 10, 2)?;
    assert!(rt; queue.pop_first() == Some((soon, 10, 2)) && !queue.contains(soon));
    assert!(rt; queue.pop_first() == Some((late, 30, 1)) && queue.is_empty());
    Ok(())
}

fn printed(alloc: Global, queue: &Numbers) -> Result<String, AllocError> {
    format!(in alloc; "{queue:?}")
}

#[test]
fn a_queue_prints_times_and_values(rt: HostRuntime) -> Result<(), Fail> {
    let queue = three(rt.alloc())?;
    let text = printed(rt.alloc(), &queue)?;
    assert!(rt; text.as_str() == "{30: 1, 30: 16, 20: 4}");
    Ok(())
}
