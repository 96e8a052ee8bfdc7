//! Callers of a queue of timers.
ghost use Rattle.std.specs.Prelude.{◌≡◌, ℕ, true, Some, None, OnErr};
ghost use Rattle.std.specs.Ordering.{is_le, nat_cmp};
ghost use Rattle.fc_timers.specs.Timers.{due_by, found, IsGone, time_of};
ghost use Rattle.fc_timers.specs.declared.timer.Timer.{Timer as Key};

use fc_timers::{Timer, TimerQueue, TryReserveError};

/// Sets a timer and cancels it: the queue has the timers that it had, also where memory was refused.
pub fn insert_then_cancel(
    queue: &mut TimerQueue<u64, u64>,
    at: u64,
    value: u64,
) -> Result<(), TryReserveError>
    ensures timers { queue.new.timers ≡ queue.old.timers }
    ensures unchanged { OnErr result (queue.new ≡ queue.old) }
{
    match queue.try_insert(at, value) {
        Ok(timer) => {
            queue.cancel(timer);
            Ok(())
        }
        Err((_at, _value, error)) => Err(error),
    }
}

/// Sets a timer: one that is gone is found no more.
pub fn insert_after(
    queue: &mut TimerQueue<u64, u64>,
    gone: Timer,
    at: u64,
    value: u64,
) -> Result<Timer, TryReserveError>
    requires { IsGone queue.old gone }
    ensures { IsGone queue.new gone }
{
    match queue.try_insert(at, value) {
        Ok(timer) => Ok(timer),
        Err((_at, _value, error)) => Err(error),
    }
}

/// Cancels a timer: one that is gone is found no more.
pub fn cancel_after(queue: &mut TimerQueue<u64, u64>, gone: Timer, timer: Timer)
    requires { IsGone queue.old gone }
    ensures { IsGone queue.new gone }
{
    queue.cancel(timer);
}

/// Takes out all timers that are due, of which each comes out and is found no more.
pub fn expire(queue: &mut TimerQueue<u64, u64>, timer: Timer, now: u64)
    ensures out { (e : (ℕ × ℕ) × (Key × ℕ)) → found queue.old.timers timer ≡ Some e → is_le (nat_cmp (time_of e) now) ≡ true → found (due_by nat_cmp queue.old.timers now) timer ≡ Some e }
    ensures gone { (e : (ℕ × ℕ) × (Key × ℕ)) → found queue.old.timers timer ≡ Some e → is_le (nat_cmp (time_of e) now) ≡ true → found queue.new.timers timer ≡ None }
{
    queue.drain_due(&now, |_timer, _at, _value| ());
}
