//! The order in which timers come out, and what a timer that is gone is found as.
use crate::row::{Numbers, Row, change, next, takes_first};
use fc_timers::{RescheduleError, Timer, TimerQueue, TryReserveError};
use std::alloc::Global;
use std::collections::HashMap;
use std::test::Fail;

// A timer, or why there is none: of what was to be put in nothing is told.
fn insert(queue: &mut Numbers, at: u64, value: u64) -> Result<Timer, TryReserveError> {
    match queue.try_insert(at, value) {
        Ok(timer) => Ok(timer),
        Err((_at, _value, error)) => Err(error),
    }
}

#[test]
fn timers_of_one_time_come_out_as_they_were_put_in(rt: HostRuntime) -> Result<(), Fail> {
    let mut queue: Numbers = TimerQueue::new(rt.alloc());
    insert(&mut queue, 30, 1)?;
    let first = insert(&mut queue, 10, 2)?;
    let third = insert(&mut queue, 20, 3)?;
    let second = insert(&mut queue, 10, 4)?;
    assert!(rt; queue.len() == 4 && queue.next_deadline() == Some(&10));
    assert!(rt; queue.pop_due(&9) == None && queue.len() == 4);
    assert!(rt; queue.pop_due(&20) == Some((first, 10, 2)));
    assert!(rt; queue.pop_due(&20) == Some((second, 10, 4)));
    assert!(rt; queue.pop_due(&20) == Some((third, 20, 3)));
    assert!(rt; queue.pop_due(&20) == None && queue.next_deadline() == Some(&30));
    Ok(())
}

#[test]
fn a_rescheduled_timer_is_after_those_of_its_time(rt: HostRuntime) -> Result<(), Fail> {
    let mut queue: Numbers = TimerQueue::new(rt.alloc());
    let first = insert(&mut queue, 10, 1)?;
    let second = insert(&mut queue, 10, 2)?;
    assert!(rt; queue.reschedule(first, 10) == Ok(10));
    assert!(rt; queue.pop_due(&10) == Some((second, 10, 2)));
    assert!(rt; queue.reschedule(second, 5) == Err(RescheduleError::Gone) && queue.len() == 1);
    assert!(rt; queue.reschedule(first, 40) == Ok(10) && queue.pop_due(&39) == None);
    assert!(rt; queue.pop_due(&40) == Some((first, 40, 1)) && queue.is_empty());
    Ok(())
}

// The values of the timers that are drained, as the digits of a number, and the sum of their times.
fn drained(queue: &mut Numbers, now: u64) -> (u64, u64) {
    let mut digits = 0u64;
    let mut times = 0u64;
    queue.drain_due(&now, |_timer, at, value| {
        digits = digits.wrapping_mul(10).wrapping_add(value);
        times = times.wrapping_add(at);
    });
    (digits, times)
}

#[test]
fn all_that_are_due_are_drained_in_order(rt: HostRuntime) -> Result<(), Fail> {
    let mut queue: Numbers = TimerQueue::new(rt.alloc());
    insert(&mut queue, 30, 1)?;
    insert(&mut queue, 10, 2)?;
    insert(&mut queue, 20, 3)?;
    insert(&mut queue, 10, 4)?;
    let (digits, times) = drained(&mut queue, 9);
    assert!(rt; digits == 0 && times == 0 && queue.len() == 4);
    let (digits, times) = drained(&mut queue, 20);
    assert!(rt; digits == 243 && times == 40);
    assert!(rt; queue.len() == 1 && queue.next_deadline() == Some(&30));
    insert(&mut queue, 30, 5)?;
    let (digits, times) = drained(&mut queue, u64::MAX);
    assert!(rt; digits == 15 && times == 60 && queue.is_empty());
    let (digits, times) = drained(&mut queue, u64::MAX);
    assert!(rt; digits == 0 && times == 0);
    Ok(())
}

// The second timer has the slot that the first one had.
#[test]
fn a_timer_that_is_gone_is_found_no_more(rt: HostRuntime) -> Result<(), Fail> {
    let mut queue: Numbers = TimerQueue::new(rt.alloc());
    let first = insert(&mut queue, 10, 1)?;
    assert!(rt; queue.cancel(first) == Some((10, 1)) && queue.next_deadline() == None);
    let second = insert(&mut queue, 20, 2)?;
    assert!(rt; first != second && queue.get(first).is_none() && queue.cancel(first) == None);
    assert!(rt; queue.get(second) == Some((&20, &2)));
    assert!(rt; queue.pop_due(&20) == Some((second, 20, 2)) && queue.get(second).is_none());
    Ok(())
}

// Whether the queue tells after each of so many changes what the row tells, and gives all of it in order at last.
fn follows(alloc: Global, seed: u64, changes: usize) -> Result<bool, TryReserveError> {
    let mut queue: Numbers = TimerQueue::new(alloc);
    let mut row = Row::new();
    let mut drawn = seed;
    for _ in 0..changes {
        drawn = next(drawn);
        if !change(&mut queue, &mut row, drawn)? {
            return Ok(false);
        }
    }
    for _ in 0..16 {
        if !takes_first(&mut queue, &mut row, u64::MAX) {
            return Ok(false);
        }
    }
    Ok(queue.is_empty())
}

#[test]
fn follows_a_row_of_timers(rt: HostRuntime) -> Result<(), Fail> {
    assert!(rt; follows(rt.alloc(), 1, 400)?);
    assert!(rt; follows(rt.alloc(), 2, 400)?);
    Ok(())
}

// The timer that is due first, with the sum of its time and its value.
fn first(queue: &Numbers, now: u64) -> Option<(Timer, u64)> {
    let (timer, at, value) = queue.first_due(&now)?;
    Some((timer, at.wrapping_add(*value)))
}

#[test]
fn the_first_that_is_due_stays(rt: HostRuntime) -> Result<(), Fail> {
    let mut queue: Numbers = TimerQueue::new(rt.alloc());
    assert!(rt; first(&queue, u64::MAX) == None);
    let late = insert(&mut queue, 20, 1)?;
    let soon = insert(&mut queue, 10, 2)?;
    let same = insert(&mut queue, 10, 3)?;
    assert!(rt; first(&queue, 9) == None && first(&queue, 10) == Some((soon, 12)));
    assert!(rt; queue.cancel(soon) == Some((10, 2)) && first(&queue, 10) == Some((same, 13)));
    // A timer that has another time is named as it was.
    assert!(rt; queue.reschedule(late, 5) == Ok(20) && first(&queue, 5) == Some((late, 6)));
    assert!(rt; queue.len() == 2);
    Ok(())
}

#[test]
fn a_timer_is_contained_until_it_comes_out(rt: HostRuntime) -> Result<(), Fail> {
    let mut queue: Numbers = TimerQueue::new(rt.alloc());
    let old = insert(&mut queue, 10, 1)?;
    assert!(rt; queue.contains(old) && queue.pop_due(&10) == Some((old, 10, 1)));
    assert!(rt; !queue.contains(old));
    // Its slot is given out again, and what named it does not name the other.
    let new = insert(&mut queue, 10, 2)?;
    assert!(rt; queue.contains(new) && !queue.contains(old));
    Ok(())
}

#[test]
fn what_named_timers_before_all_went_names_none_after(rt: HostRuntime) -> Result<(), Fail> {
    let mut queue: Numbers = TimerQueue::new(rt.alloc());
    let one = insert(&mut queue, 10, 1)?;
    let other = insert(&mut queue, 20, 2)?;
    let room = queue.capacity();
    queue.clear();
    assert!(rt; queue.is_empty() && queue.capacity() == room && queue.next_deadline() == None);
    let new = insert(&mut queue, 30, 3)?;
    assert!(rt; !queue.contains(one) && !queue.contains(other) && queue.contains(new));
    assert!(rt; queue.pop_due(&30) == Some((new, 30, 3)) && queue.is_empty());
    queue.clear();
    assert!(rt; queue.is_empty());
    Ok(())
}

#[test]
fn handles_are_ordered_by_their_insertions(rt: HostRuntime) -> Result<(), Fail> {
    let mut queue: Numbers = TimerQueue::new(rt.alloc());
    let first = insert(&mut queue, 30, 1)?;
    let second = insert(&mut queue, 10, 2)?;
    assert!(rt; first < second && queue.cancel(first) == Some((30, 1)));
    // It has the slot that the first one had.
    let third = insert(&mut queue, 20, 3)?;
    assert!(rt; second < third && queue.reschedule(second, 40) == Ok(10) && second < third);
    Ok(())
}

// What was noted of the timer, which is a key of a hashed map.
fn noted(alloc: Global, timer: Timer, other: Timer) -> Result<Option<u64>, TryReserveError> {
    let mut notes = HashMap::new(alloc);
    notes.insert(other, 1u64)?;
    notes.insert(timer, 2)?;
    Ok(notes.get(&timer).copied())
}

#[test]
fn a_timer_is_a_key_of_a_hashed_map(rt: HostRuntime) -> Result<(), Fail> {
    let mut queue: Numbers = TimerQueue::new(rt.alloc());
    let one = insert(&mut queue, 10, 1)?;
    let other = insert(&mut queue, 10, 1)?;
    assert!(rt; noted(rt.alloc(), one, other)? == Some(2));
    Ok(())
}

#[test]
fn a_queue_that_shrinks_keeps_its_timers(rt: HostRuntime) -> Result<(), Fail> {
    let mut queue: Numbers = TimerQueue::new(rt.alloc());
    queue.try_reserve(100)?;
    let kept = insert(&mut queue, 20, 1)?;
    let cancelled = insert(&mut queue, 10, 2)?;
    assert!(rt; queue.cancel(cancelled) == Some((10, 2)));
    queue.shrink_to_fit();
    assert!(rt; queue.capacity() < 100 && queue.len() == 1 && !queue.contains(cancelled));
    assert!(rt; queue.pop_due(&20) == Some((kept, 20, 1)));
    queue.shrink_to_fit();
    assert!(rt; queue.capacity() == 0 && queue.is_empty());
    let new = insert(&mut queue, 30, 3)?;
    assert!(rt; !queue.contains(kept) && queue.pop_due(&30) == Some((new, 30, 3)));
    Ok(())
}
