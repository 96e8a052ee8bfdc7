//! Copies of queues.
use super::TimerQueue;
use fc_base::{Handle, TryClone, TryReserveError};

/// A copy of a queue has the same timers at the same times and turns, with copies of their values, each made by its `try_clone`: a timer is found in the
/// copy where it is found in the queue. It takes its memory where the queue does.
///
/// # Errors
/// `AllocError` where room for the timers was refused, or the error of a value whose copy was, as it is; never where the queue has no room. What was
/// made by then is dropped.
impl<T: Ord + Copy + Drop, V: TryClone, A: Handle> TryClone for TimerQueue<T, V, A> {
    ghost use Rattle.fc_timers.specs.Copies.{IsCopyOf, MayRefuseQueue};

    ghost same = { IsCopyOf V.same };

    ghost can_clone = { V.can_clone };

    ghost may_refuse = { MayRefuseQueue V.may_refuse };

    fn try_clone(&self) -> Result<TimerQueue<T, V, A>, TryReserveError> {
        let slots = self.slots.try_copy()?;
        Ok(TimerQueue { slots })
    }
}
