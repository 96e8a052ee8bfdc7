//! Examples of the queue of timers, as the pages show them.
use fc_base::TryClone;
use fc_budget::Budget;
use fc_timers::{RescheduleError, TimerQueue};
use std::alloc::Global;
use std::mem::size_of;
use std::test::Fail;

#[test]
fn timers(rt: HostRuntime) -> Result<(), Fail> {
    let alloc = rt.alloc();
    // example: TimerQueue::new, TimerQueue::try_insert, TimerQueue::next_deadline, TimerQueue::pop_due, TimerQueue::len, TimerQueue::is_empty
    let mut queue = TimerQueue::new(alloc);
    queue.try_insert(30u64, 'a')?;
    let timer = queue.try_insert(10, 'b')?;
    assert_eq!(rt; (queue.next_deadline(), queue.len()), (Some(&10), 2));
    assert_eq!(rt; queue.pop_due(&20), Some((timer, 10, 'b')));
    assert_eq!(rt; (queue.pop_due(&20), queue.is_empty()), (None, false));
    // end
    Ok(())
}

#[test]
fn timers_by_their_handles(rt: HostRuntime) -> Result<(), Fail> {
    let alloc = rt.alloc();
    // example: TimerQueue::reschedule, TimerQueue::cancel, TimerQueue::get
    let mut queue = TimerQueue::new(alloc);
    let timer = queue.try_insert(10u64, 'a')?;
    assert_eq!(rt; queue.reschedule(timer, 40), Ok(10));
    assert_eq!(rt; queue.get(timer), Some((&40, &'a')));
    assert_eq!(rt; queue.cancel(timer), Some((40, 'a')));
    assert_eq!(rt; queue.get(timer), None);
    assert_eq!(rt; queue.reschedule(timer, 50), Err(RescheduleError::Gone));
    // end
    Ok(())
}

#[test]
fn all_that_are_due(rt: HostRuntime) -> Result<(), Fail> {
    let alloc = rt.alloc();
    // example: TimerQueue::try_reserve, TimerQueue::capacity, TimerQueue::drain_due
    let mut queue = TimerQueue::new(alloc);
    queue.try_reserve(2)?; // so many insertions then take no memory
    assert!(rt; queue.capacity() >= 2);
    queue.try_insert(10u64, 1u64)?;
    queue.try_insert(20, 2)?;
    let mut sum = 0u64;
    queue.drain_due(&20, |_timer, _at, value| sum = sum.wrapping_add(value));
    // end
    assert_eq!(rt; (sum, queue.is_empty()), (3, true));
    Ok(())
}

#[test]
fn the_first_that_is_due(rt: HostRuntime) -> Result<(), Fail> {
    let alloc = rt.alloc();
    // example: TimerQueue::first_due, TimerQueue::contains
    let mut queue = TimerQueue::new(alloc);
    let timer = queue.try_insert(10u64, 'a')?;
    assert!(rt; queue.first_due(&9).is_none());
    assert_eq!(rt; queue.first_due(&10), Some((timer, &10, &'a')));
    assert!(rt; queue.contains(timer)); // it stays
    // end
    Ok(())
}

#[test]
fn no_timer_and_its_room(rt: HostRuntime) -> Result<(), Fail> {
    let alloc = rt.alloc();
    // example: TimerQueue::try_with_capacity, TimerQueue::clear
    let mut queue = TimerQueue::try_with_capacity(alloc, 2)?;
    let timer = queue.try_insert(10u64, 'a')?; // takes no memory
    queue.clear();
    assert!(rt; queue.is_empty() && !queue.contains(timer));
    assert!(rt; queue.capacity() >= 2);
    // end
    Ok(())
}

#[test]
fn room_that_no_timer_needs(rt: HostRuntime) -> Result<(), Fail> {
    let alloc = rt.alloc();
    // example: TimerQueue::default, TimerQueue::shrink_to_fit
    let mut queue = TimerQueue::default(alloc);
    let timer = queue.try_insert(10u64, 'a')?;
    assert_eq!(rt; queue.cancel(timer), Some((10, 'a')));
    assert!(rt; queue.capacity() > 0); // the room stays
    queue.shrink_to_fit();
    assert_eq!(rt; queue.capacity(), 0);
    // end
    Ok(())
}

#[test]
fn walks(rt: HostRuntime) -> Result<(), Fail> {
    let alloc = rt.alloc();
    // example: TimerQueue::iter
    let mut queue = TimerQueue::new(alloc);
    let late = queue.try_insert(30u64, 'a')?;
    let soon = queue.try_insert(10, 'b')?;
    for (timer, _at, _value) in &queue {
        assert!(rt; timer == late || timer == soon); // in no order that is promised
    }
    assert_eq!(rt; queue.iter().len(), 2);
    // end
    let mut walk = queue.into_iter(); // in the order in which they come out
    assert_eq!(rt; walk.next(), Some((soon, 10, 'b')));
    Ok(())
}

#[test]
fn the_first_whenever_it_is_due(rt: HostRuntime) -> Result<(), Fail> {
    let alloc = rt.alloc();
    // example: TimerQueue::pop_first
    let mut queue = TimerQueue::new(alloc);
    let timer = queue.try_insert(10u64, 'a')?;
    let copy = queue.try_clone()?; // handles find in it what they find in the queue
    assert_eq!(rt; queue.pop_first(), Some((timer, 10, 'a')));
    assert_eq!(rt;
        (queue.get(timer), copy.get(timer)),
        (None, Some((&10, &'a')))
    );
    // end
    Ok(())
}

#[test]
fn a_value_for_another(rt: HostRuntime) -> Result<(), Fail> {
    let alloc = rt.alloc();
    // example: TimerQueue::set_value
    let mut queue = TimerQueue::new(alloc);
    let timer = queue.try_insert(10u64, 'a')?;
    assert_eq!(rt; queue.set_value(timer, 'b'), Ok('a')); // the timer keeps its time
    assert_eq!(rt; queue.pop_due(&10), Some((timer, 10, 'b')));
    assert_eq!(rt; queue.set_value(timer, 'c'), Err('c')); // it came out
    // end
    Ok(())
}

#[test]
fn bytes(rt: HostRuntime) {
    assert_eq!(rt; size_of::<TimerQueue<u64, u64>>(), 64);
    assert_eq!(rt; size_of::<TimerQueue<u64, u64, &Budget<Global>>>(), 80);
}
