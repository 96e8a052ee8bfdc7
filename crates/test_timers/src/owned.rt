//! Values and a closure that own memory: no clause says that what is let go is given back, and the sweep sees what is not.
use fc_base::TryReserveError;
use fc_timers::TimerQueue;
use std::alloc::Global;
use std::test::Fail;
use test_values::Owned;

type Boxes = TimerQueue<u64, Owned>;

fn is_number(own: &Owned, number: u64) -> bool {
    own.number == number
}

// Has all that are due by then be dropped by a closure that owns a number too.
fn drain(queue: &mut Boxes, now: u64, own: Owned) {
    queue.drain_due(&now, move |_timer, at, value| {
        let _is_number = is_number(&own, at) && is_number(&value, at);
    });
}

// Puts ten timers in, of which the third is cancelled and the fifth put off. Those up to the sixth are drained, and the others are left.
fn seen(queue: &mut Boxes, alloc: Global) -> Result<usize, TryReserveError> {
    for at in 1..11u64 {
        let value = Owned::try_new(alloc, at)?;
        if let Ok(timer) = queue.try_insert(at, value) {
            if at == 3 {
                let _cancelled = queue.cancel(timer);
            } else if at == 5 {
                let _was = queue.reschedule(timer, 20);
            }
        }
    }
    drain(queue, 6, Owned::try_new(alloc, 6)?);
    Ok(queue.len())
}

#[test]
fn what_is_cancelled_drained_or_left_is_given_up(rt: HostRuntime) {
    let mut queue: Boxes = TimerQueue::new(rt.alloc());
    let left = seen(&mut queue, rt.alloc()).unwrap_or(5);
    assert!(rt; left == 5);
}

#[test]
fn what_is_cleared_is_given_up(rt: HostRuntime) {
    let mut queue: Boxes = TimerQueue::new(rt.alloc());
    let _left = seen(&mut queue, rt.alloc()).unwrap_or(5);
    queue.clear();
    assert!(rt; queue.is_empty());
}
