//! Insertions that are refused: the queue is as it was, and time and value come back.
use fc_timers::{Timer, TimerQueue, TryReserveError};
use std::alloc::Global;
use std::test::Fail;
use test_values::Owned;

type Boxes = TimerQueue<u64, Owned>;

// The timer that was put in, if it was, and whether else its time and its value came back, and the queue has so many.
fn insert(queue: &mut Boxes, at: u64, value: Owned, count: usize) -> (Option<Timer>, bool) {
    let number = value.number;
    match queue.try_insert(at, value) {
        Ok(timer) => (Some(timer), true),
        Err((back, value, _error)) => (
            None,
            back == at && value.number == number && queue.len() == count,
        ),
    }
}

// The number of the value of the first timer, which is taken out, and 0 where there is none.
fn take(queue: &mut Boxes) -> u64 {
    match queue.pop_due(&u64::MAX) {
        Some((_timer, _at, value)) => value.number,
        None => 0,
    }
}

// Puts so many timers in, from the last to be due to the first, and tells how many it put in, and whether all went as it should.
fn fill(alloc: Global, queue: &mut Boxes, count: u64) -> (u64, bool) {
    let mut filled = 0u64;
    for i in 0..count {
        let Ok(value) = Owned::try_new(alloc, i.wrapping_add(1)) else {
            return (filled, true);
        };
        let (timer, is_right) = insert(queue, count - i, value, filled as usize);
        if timer.is_none() {
            return (filled, is_right && queue.len() as u64 == filled);
        }
        filled = filled.wrapping_add(1);
    }
    (filled, true)
}

// Each request may be refused: of the values, and of the slots and of the places of the heap, which are 4 and then 8.
#[test]
fn a_refused_insertion_leaves_the_queue(rt: HostRuntime) -> Result<(), Fail> {
    let mut queue: Boxes = TimerQueue::new(rt.alloc());
    let (filled, is_right) = fill(rt.alloc(), &mut queue, 6);
    assert!(rt; is_right);
    // Those that were put in come out, the last of them first.
    for i in 0..filled {
        assert!(rt; take(&mut queue) == filled - i);
    }
    assert!(rt; queue.is_empty());
    Ok(())
}

// A slot that a timer left is given out again, with no request for memory: there are four from the first one on.
#[test]
fn a_left_slot_takes_no_memory(rt: HostRuntime) -> Result<(), Fail> {
    let mut queue: TimerQueue<u64, u64> = TimerQueue::new(rt.alloc());
    for i in 0..3u64 {
        if queue.try_insert(i, i).is_err() {
            return Ok(());
        }
    }
    for i in 3..100u64 {
        let taken = queue.pop_due(&i);
        assert!(rt; matches!(taken, Some((_, at, value)) if at == i - 3 && value == at));
        assert!(rt; queue.try_insert(i, i).is_ok());
    }
    Ok(())
}

// The error by which room for so many more timers is refused.
fn refusal(queue: &mut TimerQueue<u64, u64>, additional: usize) -> Option<TryReserveError> {
    queue.try_reserve(additional).err()
}

// Room that is made ahead is for so many insertions. Three timers and all but two of `usize::MAX` pass it together.
#[test]
fn room_is_made_for_so_many(rt: HostRuntime) -> Result<(), Fail> {
    let mut queue: TimerQueue<u64, u64> = TimerQueue::new(rt.alloc());
    queue.try_reserve(3)?;
    assert!(rt; queue.capacity() >= 3 && queue.is_empty());
    for at in 0..3u64 {
        assert!(rt; queue.try_insert(at, at).is_ok());
    }
    let too_many = refusal(&mut queue, usize::MAX - 3);
    let after_the_end = refusal(&mut queue, usize::MAX - 2);
    assert!(rt; matches!(too_many, Some(TryReserveError::AllocError)));
    assert!(rt; matches!(after_the_end, Some(TryReserveError::CapacityOverflow)));
    assert!(rt; queue.len() == 3);
    Ok(())
}

// Whether a queue was made with room for three timers, which then take no memory, or else was refused for want of memory.
fn is_made_or_refused(alloc: Global) -> bool {
    match TimerQueue::<u64, u64>::try_with_capacity(alloc, 3) {
        Ok(mut queue) => {
            let is_empty = queue.is_empty() && queue.capacity() >= 3;
            let puts = queue.try_insert(3, 30).is_ok() && queue.try_insert(2, 20).is_ok();
            is_empty && puts && queue.try_insert(1, 10).is_ok() && queue.len() == 3
        }
        Err(error) => matches!(error, TryReserveError::AllocError),
    }
}

#[test]
fn a_queue_is_made_with_its_room_or_refused(rt: HostRuntime) {
    assert!(rt; is_made_or_refused(rt.alloc()));
}

#[test]
fn room_for_all_timers_that_a_number_can_count_is_refused(rt: HostRuntime) {
    let made = TimerQueue::<u64, u64>::try_with_capacity(rt.alloc(), usize::MAX);
    assert!(rt; matches!(made.err(), Some(TryReserveError::AllocError)));
}
