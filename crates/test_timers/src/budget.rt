//! A queue in a budget: how many timers fit, and that what was refused comes back.
use fc_budget::Budget;
use fc_timers::{TimerQueue, TryReserveError};
use std::alloc::Global;
use std::test::Fail;

type Small<'a> = TimerQueue<u64, u64, &'a Budget<Global>>;

// Puts timers in until one is refused, and tells how many there are; none where what was refused did not come back.
fn filled(queue: &mut Small<'_>) -> Option<u64> {
    for i in 0..1000u64 {
        if let Err((at, value, error)) = queue.try_insert(i, i) {
            if at == i && value == i && error == TryReserveError::AllocError {
                return Some(i);
            }
            return None;
        }
    }
    None
}

// Whether as many timers as there are come out in order, and one more is put in then.
fn is_kept(queue: &mut Small<'_>, count: u64) -> bool {
    for i in 0..count {
        match queue.pop_due(&count) {
            Some((_timer, at, value)) if at == i && value == i => {}
            _ => return false,
        }
    }
    queue.is_empty() && queue.try_insert(7, 7).is_ok() && queue.len() == 1
}

#[test]
fn a_queue_keeps_within_a_budget(rt: HostRuntime) -> Result<(), Fail> {
    let budget = Budget::new(rt.alloc(), 4096);
    let mut queue: Small = TimerQueue::new(&budget);
    let Some(count) = filled(&mut queue) else {
        assert!(rt; false);
        return Ok(());
    };
    assert!(rt; queue.len() as u64 == count && budget.used() <= 4096);
    assert!(rt; count == 0 || is_kept(&mut queue, count));
    Ok(())
}

#[test]
fn a_queue_without_memory_takes_no_timer(rt: HostRuntime) {
    let budget = Budget::new(rt.alloc(), 0);
    let mut queue: Small = TimerQueue::new(&budget);
    assert!(rt; filled(&mut queue) == Some(0) && queue.is_empty());
}
