//! The queue, as its callers see it: a list of timers in the order in which they come out.
ghost use Rattle.std.specs.Prelude.{◌≡◌, ℕ, ◌==◌, ◌∷◌, [], if◌then◌else◌, ◌+◌, ◌<◌, ◌≤◌, ◌⊎◌, ◌↔◌, IsTrue, IfSome, IfNone, OnSome, IfOk, IfErr, OnOk, OnErr, IsErr, IsOk, None, Some, is_some, length, option_map, slice_get, true};
ghost use Rattle.std.specs.Map.Iter.{deref_pair};
ghost use Rattle.std.specs.Option.{option_copied};
ghost use Rattle.std.specs.Ordering.{is_le};
ghost use Rattle.fc_base.specs.declared.try_reserve_error.TryReserveError.{TryReserveError as Error};
ghost use Rattle.fc_base.specs.Growth.{append_error};
ghost use Rattle.fc_base.specs.OneKey.{put};
ghost use Rattle.fc_timers.specs.declared.reschedule_error.RescheduleError.{RescheduleError as Refusal};
ghost use Rattle.fc_timers.specs.Timers.{GivenTimer, HandsInTurn, HaveTurnsApart, IsInOrder, NoneDue, by_time_then_turn, due_after, due_by, first_turn, found, time_of, value_of, without};

mod copy;
mod debug;
pub mod into_iter;
pub mod iter;
mod pop_first;
mod value;

use crate::reschedule_error::RescheduleError;
use crate::slots::Slots;
use crate::timer::Timer;
use fc_base::{Handle, TryReserveError};
use std::alloc::Global;
use std::marker::Model;

/// Timers with their times and values, which come out in the order of their times, and those of equal times in the order in which they were
/// put there. A call takes a number of steps that grows with the logarithm of the number of timers. Only calls that
/// answer a `Result` take memory.
#[derive(Drop)]
pub struct TimerQueue<T: Ord, V, A: Handle = Global> {
    slots: Slots<T, V, A>,
}

impl<T: Ord, V, A: Handle> Model for TimerQueue<T, V, A> {
    ghost use Rattle.fc_timers.specs.Timers.{Queue};
    ghost use Rattle.fc_timers.specs.Slotted.{AreGivenOut};
    ghost use Rattle.fc_timers.specs.InOrder.{in_order};

    ghost Value = { Queue T V };

    ghost view = { λ q. record { timers = in_order T.cmp q.slots; next_turn = q.slots.next_number; room = q.slots.room } };

    ghost invariant = { λ q. AreGivenOut q.slots };
}

impl<T: Ord, V, A: Handle> TimerQueue<T, V, A> {
    /// A queue of no timer, which takes no memory. Later requests go to `alloc`.
    pub fn new(alloc: A) -> TimerQueue<T, V, A>
        ensures timers { result.timers ≡ [] }
        ensures turn { result.next_turn ≡ 0 }
        ensures room { result.room ≡ 0 }
    {
        TimerQueue {
            slots: Slots::new(alloc),
        }
    }

    /// A queue of no timer, as `new` makes it.
    pub fn default(alloc: A) -> TimerQueue<T, V, A>
        ensures timers { result.timers ≡ [] }
        ensures turn { result.next_turn ≡ 0 }
        ensures room { result.room ≡ 0 }
    {
        TimerQueue::new(alloc)
    }

    /// The number of timers.
    pub fn len(&self) -> usize
        ensures value { result ≡ length self.now.timers }
        ensures in_order { IsInOrder T.cmp self.now }
        ensures turns { HaveTurnsApart self.now.timers }
    {
        self.slots.len()
    }

    /// How many timers fit before the next request for memory.
    pub fn capacity(&self) -> usize
        ensures value { result ≡ self.now.room }
        ensures holds_all { length self.now.timers ≤ self.now.room }
    {
        self.slots.capacity()
    }

    /// Makes room for so many more timers: as many insertions then take no memory, and are not refused for want of it. Where they fit as it is, it takes
    /// no memory.
    ///
    /// # Errors
    /// `CapacityOverflow` exactly where the length plus `additional` passes `usize::MAX`, else `AllocError`. The queue is then as it was.
    pub fn try_reserve(&mut self, additional: usize) -> Result<(), TryReserveError>
        ensures room { OnOk result (length self.old.timers + additional ≤ self.new.room) }
        ensures timers { self.new ≡ record self.old { room = self.new.room } }
        ensures kept { self.old.room ≤ self.new.room }
        ensures fits { length self.old.timers + additional ≤ self.old.room → IsOk result }
        ensures full { usize.MAX < length self.old.timers + additional → IsErr result }
        ensures unchanged { OnErr result (self.new ≡ self.old) }
        ensures error { IfErr result (λ e. e ≡ append_error (length self.old.timers) additional) }
    {
        self.slots.try_reserve(additional)
    }

    /// Whether there is no timer.
    pub fn is_empty(&self) -> bool
        ensures { IsTrue result ↔ (self.now.timers ≡ []) }
    {
        self.slots.is_empty()
    }

    /// The timer's time and its value. `None` where it is not in the queue: it came out, or was cancelled.
    pub fn get(&self, timer: Timer) -> Option<(&T, &V)>
        ensures answer { option_map deref_pair result ≡ option_map (λ e. (time_of e, value_of e)) (found self.now.timers timer) }
        ensures in_order { IsInOrder T.cmp self.now }
    {
        let armed = self.slots.get(timer)?;
        Some((&armed.at, &armed.value))
    }

    /// Whether the timer is in the queue: it did not come out, and was not cancelled.
    pub fn contains(&self, timer: Timer) -> bool
        ensures answer { result ≡ is_some (found self.now.timers timer) }
        ensures in_order { IsInOrder T.cmp self.now }
    {
        self.slots.contains(timer)
    }

    /// The time of the timer that comes out next: none is due before it. `None` where there is no timer.
    pub fn next_deadline(&self) -> Option<&T>
        ensures answer { option_copied result ≡ option_map time_of (slice_get self.now.timers 0) }
        ensures in_order { IsInOrder T.cmp self.now }
    {
        self.slots.next_deadline()
    }

    /// The timer that comes out next, with its time and its value, where it is due at this time. It stays in the queue. `None` where no timer is due.
    pub fn first_due(&self, now: &T) -> Option<(Timer, &T, &V)>
        ensures first { IfSome result (λ f. (turn : ℕ) × (slice_get self.now.timers 0 ≡ Some ((f.1.now, turn), (f.0, f.2.now)))) }
        ensures due { IfSome result (λ f. is_le (T.cmp f.1.now now.now) ≡ true) }
        ensures none { IfNone result (NoneDue T.cmp self.now.timers now.now) }
        ensures in_order { IsInOrder T.cmp self.now }
    {
        self.slots.first_due(now)
    }
}

impl<T: Ord + Copy + Drop, V: Drop, A: Handle> TimerQueue<T, V, A> {
    /// A queue of no timer with room for so many: as many insertions then take no memory. Later requests go to `alloc` too.
    ///
    /// # Errors
    /// `AllocError`, where the request was refused.
    pub fn try_with_capacity(
        alloc: A,
        capacity: usize,
    ) -> Result<TimerQueue<T, V, A>, TryReserveError>
        ensures timers { IfOk result (λ q. q.timers ≡ []) }
        ensures turn { IfOk result (λ q. q.next_turn ≡ 0) }
        ensures room { IfOk result (λ q. capacity ≤ q.room) }
        ensures error { IfErr result (λ e. e ≡ Error.AllocError) }
    {
        let mut queue = TimerQueue::new(alloc);
        queue.try_reserve(capacity)?;
        Ok(queue)
    }

    /// Puts a timer in, after those of its time, and answers what it is found by. It takes memory only where the queue holds as many timers as
    /// it ever held.
    ///
    /// # Errors
    /// `AllocError` where a request for memory was refused; `CapacityOverflow` where the queue gave out 2^64 - 1 turns. The queue is then
    /// as it was, and time and value come back.
    pub fn try_insert(&mut self, at: T, value: V) -> Result<Timer, (T, V, TryReserveError)>
        ensures timers { IfOk result (λ timer. self.new.timers ≡ put (by_time_then_turn T.cmp) self.old.timers (at, self.old.next_turn) (timer, value)) }
        ensures fresh { IfOk result (λ timer. found self.old.timers timer ≡ None) }
        ensures first { IfOk result (λ timer. first_turn timer ≡ self.old.next_turn) }
        ensures count { OnOk result (length self.new.timers ≡ length self.old.timers + 1) }
        ensures turn { OnOk result (self.new.next_turn ≡ self.old.next_turn + 1) }
        ensures room { self.old.room ≤ self.new.room }
        ensures fits { length self.old.timers < self.old.room → self.old.next_turn < u64.MAX → IsOk result }
        ensures unchanged { OnErr result (self.new ≡ self.old) }
        ensures back { IfErr result (λ e. (e.0 ≡ at) × (e.1 ≡ value)) }
        ensures error { IfErr result (λ e. e.2 ≡ (if self.old.next_turn == u64.MAX then Error.CapacityOverflow else Error.AllocError)) }
        ensures used_up { self.old.next_turn ≡ u64.MAX → IsErr result }
        ensures in_order { IsInOrder T.cmp self.old }
    {
        self.slots.try_insert(at, value)
    }

    /// Takes a timer out, and answers its time and value. `None` where it is not in the queue, which then stays as it is.
    pub fn cancel(&mut self, timer: Timer) -> Option<(T, V)>
        ensures answer { result ≡ option_map (λ e. (time_of e, value_of e)) (found self.old.timers timer) }
        ensures timers { self.new.timers ≡ without self.old.timers timer }
        ensures count { OnSome result (length self.new.timers + 1 ≡ length self.old.timers) }
        ensures turn { self.new.next_turn ≡ self.old.next_turn }
        ensures room { self.new.room ≡ self.old.room }
        ensures unchanged { IfNone result (self.new ≡ self.old) }
        ensures in_order { IsInOrder T.cmp self.old }
    {
        let armed = self.slots.cancel(timer)?;
        Some((armed.at, armed.value))
    }

    /// Takes out all timers, and drops them. The room stays, and none of them is found again. It takes no memory.
    pub fn clear(&mut self)
        ensures timers { self.new.timers ≡ [] }
        ensures turn { self.new.next_turn ≡ self.old.next_turn }
        ensures room { self.new.room ≡ self.old.room }
    {
        self.slots.clear();
    }

    /// Gives back room that no timer needs, and all of it where there is no timer. A timer stays in the slot that it was given, so room that timers
    /// before it left is kept.
    pub fn shrink_to_fit(&mut self)
        ensures timers { self.new ≡ record self.old { room = self.new.room } }
        ensures room { self.new.room ≤ self.old.room }
        ensures frees { self.old.timers ≡ [] → self.new.room ≡ 0 }
    {
        if self.slots.is_empty() {
            self.slots.clear();
            self.slots.shrink_to_fit();
        } else {
            self.slots.shrink_to_fit();
        }
    }

    /// Gives a timer another time, after those of that time, as if it were inserted anew, and answers the time that it had. It takes no memory.
    ///
    /// # Errors
    /// `Gone` exactly where the timer is not in the queue, `UsedUp` exactly where it is there and the queue gave out 2^64 - 1 turns. The queue is
    /// then as it was.
    pub fn reschedule(&mut self, timer: Timer, at: T) -> Result<T, RescheduleError>
        ensures answer { IfOk result (λ was. option_map time_of (found self.old.timers timer) ≡ Some was) }
        ensures timers { OnOk result (option_map (λ e. put (by_time_then_turn T.cmp) (without self.old.timers timer) (at, self.old.next_turn) (timer, value_of e)) (found self.old.timers timer) ≡ Some self.new.timers) }
        ensures count { length self.new.timers ≡ length self.old.timers }
        ensures turn { OnOk result (self.new.next_turn ≡ self.old.next_turn + 1) }
        ensures room { self.new.room ≡ self.old.room }
        ensures refused { OnErr result ((found self.old.timers timer ≡ None) ⊎ (self.old.next_turn ≡ u64.MAX)) }
        ensures error { IfErr result (λ e. e ≡ (if is_some (found self.old.timers timer) then Refusal.UsedUp else Refusal.Gone)) }
        ensures used_up { self.old.next_turn ≡ u64.MAX → IsErr result }
        ensures unchanged { OnErr result (self.new ≡ self.old) }
        ensures in_order { IsInOrder T.cmp self.old }
    {
        self.slots.reschedule(timer, at)
    }

    /// Takes the first timer out, where it is due at this time, and answers it with its time and its value. `None` where no timer is due, and the
    /// queue stays as it is. Called in a loop until then, it takes all that are due, in order.
    pub fn pop_due(&mut self, now: &T) -> Option<(Timer, T, V)>
        ensures popped { IfSome result (λ p. (turn : ℕ) × (self.old.timers ≡ ((p.1, turn), (p.0, p.2)) ∷ self.new.timers)) }
        ensures due { IfSome result (λ p. is_le (T.cmp p.1 now.now) ≡ true) }
        ensures none { IfNone result (NoneDue T.cmp self.old.timers now.now) }
        ensures turn { self.new.next_turn ≡ self.old.next_turn }
        ensures room { self.new.room ≡ self.old.room }
        ensures unchanged { IfNone result (self.new ≡ self.old) }
        ensures in_order { IsInOrder T.cmp self.old }
    {
        let (timer, armed) = self.slots.pop_due(now)?;
        Some((timer, armed.at, armed.value))
    }

    /// Takes out all timers that are due at this time, and calls the closure with each, its time and its value, in the order in which they come out. It
    /// takes no memory.
    pub fn drain_due<F: FnMut(Timer, T, V)>(&mut self, now: &T, mut f: F)
        requires callable { F.IsAlwaysCallable f }
        ensures timers { self.new.timers ≡ due_after T.cmp self.old.timers now.now }
        ensures handed { (last : F) × HandsInTurn (GivenTimer F.FnMut) f (due_by T.cmp self.old.timers now.now) last }
        ensures turn { self.new.next_turn ≡ self.old.next_turn }
        ensures room { self.new.room ≡ self.old.room }
        ensures in_order { IsInOrder T.cmp self.old }
    {
        'due: while let Some((timer, at, value)) = self.pop_due(now) {
            f(timer, at, value);
        }
    }
}
