//! Callers of a queue, which is a list by time.
ghost use Rattle.std.specs.Prelude.{◌≡◌, ◌++◌, ◌∷◌, ℕ, IfOk, IfSome};
ghost use Rattle.std.specs.Ordering.{nat_cmp};
ghost use Rattle.fc_timers.specs.Timers.{due_after, due_by};
ghost use Rattle.fc_timers.specs.declared.timer.Timer.{Timer as Key};

use crate::row::Numbers;
use fc_timers::{Timer, TimerQueue, TryReserveError};
use std::test::Fail;

/// Puts a timer in: it stands after all that are due by its time, and before all others.
pub fn put_in(queue: &mut Numbers, at: u64, value: u64) -> Result<Timer, TryReserveError>
    ensures { IfOk result (λ timer. queue.new.timers ≡ due_by nat_cmp queue.old.timers at ++ ((at, queue.old.next_turn), (timer, value)) ∷ due_after nat_cmp queue.old.timers at) }
{
    match queue.try_insert(at, value) {
        Ok(timer) => Ok(timer),
        Err((_at, _value, error)) => Err(error),
    }
}

/// Takes the first timer out, where it is due: the others are what was after it.
pub fn take_first(queue: &mut Numbers, now: u64) -> Option<(u64, u64)>
    ensures { IfSome result (λ pair. (turn : ℕ) × (timer : Key) × (queue.old.timers ≡ ((pair.0, turn), (timer, pair.1)) ∷ queue.new.timers)) }
{
    let (_timer, at, value) = queue.pop_due(&now)?;
    Some((at, value))
}

/// Takes out all that are due, and leaves those due later.
pub fn forget_due(queue: &mut Numbers, now: u64)
    ensures { queue.new.timers ≡ due_after nat_cmp queue.old.timers now }
{
    queue.drain_due(&now, |_timer, _at, _value| ());
}

#[test]
fn a_queue_is_a_list_by_time(rt: HostRuntime) -> Result<(), Fail> {
    let mut queue: Numbers = TimerQueue::new(rt.alloc());
    put_in(&mut queue, 20, 1)?;
    put_in(&mut queue, 10, 2)?;
    put_in(&mut queue, 20, 3)?;
    put_in(&mut queue, 10, 4)?;
    assert!(rt; take_first(&mut queue, 10) == Some((10, 2)));
    forget_due(&mut queue, 10);
    assert!(rt; take_first(&mut queue, 20) == Some((20, 1)));
    assert!(rt; take_first(&mut queue, 20) == Some((20, 3)) && queue.is_empty());
    Ok(())
}
