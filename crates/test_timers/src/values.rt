//! Values that are written at timers, which stay where they are.
use crate::row::Numbers;
use fc_timers::{Timer, TimerQueue, TryReserveError};
use std::alloc::Global;
use std::test::Fail;
use test_values::Owned;

// A timer, or why there is none: of what was to be put in nothing is told.
fn insert(queue: &mut Numbers, at: u64, value: u64) -> Result<Timer, TryReserveError> {
    match queue.try_insert(at, value) {
        Ok(timer) => Ok(timer),
        Err((_at, _value, error)) => Err(error),
    }
}

#[test]
fn a_written_value_stays_at_its_place(rt: HostRuntime) -> Result<(), Fail> {
    let mut queue: Numbers = TimerQueue::new(rt.alloc());
    let first = insert(&mut queue, 10, 1)?;
    let second = insert(&mut queue, 10, 2)?;
    assert!(rt; queue.set_value(first, 3) == Ok(1) && queue.get(first) == Some((&10, &3)));
    assert!(rt; queue.get(second) == Some((&10, &2)) && queue.len() == 2);
    // It is ahead of the other still, which was put in after it.
    assert!(rt; queue.pop_due(&10) == Some((first, 10, 3)));
    // Its slot is given out again, and what named it writes nothing there.
    let third = insert(&mut queue, 20, 4)?;
    assert!(rt; queue.set_value(first, 5) == Err(5) && queue.get(third) == Some((&20, &4)));
    Ok(())
}

// Writes a value that owns memory, and tells the number of what is handed back, and 0 where there was no memory.
fn written(queue: &mut TimerQueue<u64, Owned>, alloc: Global, timer: Timer, number: u64) -> u64 {
    let Ok(value) = Owned::try_new(alloc, number) else {
        return 0;
    };
    match queue.set_value(timer, value) {
        Ok(was) => was.number,
        Err(back) => back.number,
    }
}

#[test]
fn a_value_that_was_there_is_handed_back(rt: HostRuntime) {
    let mut queue: TimerQueue<u64, Owned> = TimerQueue::new(rt.alloc());
    let Ok(value) = Owned::try_new(rt.alloc(), 1) else {
        return;
    };
    if let Ok(timer) = queue.try_insert(10, value) {
        let was = written(&mut queue, rt.alloc(), timer, 2);
        assert!(rt; was == 1 || was == 0);
        queue.clear();
        let back = written(&mut queue, rt.alloc(), timer, 3);
        assert!(rt; back == 3 || back == 0);
    }
}
