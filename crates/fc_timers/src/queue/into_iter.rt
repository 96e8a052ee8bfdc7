//! A walk that takes the timers out of a queue, in the order in which they come out.
ghost use Rattle.std.specs.Prelude.{◌≡◌, ◌≤◌, length, map, Some, IfSome};
ghost use Rattle.std.specs.Iterator.{YieldsFirst, item_count, UpTo, at_most};
ghost use Rattle.fc_timers.specs.Timers.{turnless};

use super::TimerQueue;
use crate::timer::Timer;
use fc_base::Handle;
use std::alloc::Global;
use std::iter::FusedIterator;
use std::marker::Model;

/// The timers that are still to come, each with its time and its value, in the order of their times, and those of equal times in the order in which
/// they were put there. `next` takes the first of them; once there is none, it answers `None` ever after. No call takes memory; what was not taken
/// is dropped with the walk.
#[derive(Drop)]
pub struct IntoIter<T: Ord, V, A: Handle = Global> {
    queue: TimerQueue<T, V, A>,
}

impl<T: Ord, V, A: Handle> Model for IntoIter<T, V, A> {
    ghost use Rattle.std.specs.Prelude.{List, map};
    ghost use Rattle.fc_timers.specs.declared.timer.Timer.{Timer};
    ghost use Rattle.fc_timers.specs.Timers.{turnless};

    ghost Value = { List (Timer × T × V) };

    ghost view = { λ w. map turnless w.queue.timers };
}

impl<T: Ord + Copy + Drop, V: Drop, A: Handle> Iterator for IntoIter<T, V, A> {
    type Item = (Timer, T, V);

    ghost next_gives = { YieldsFirst (λ s. s) };

    ghost remaining = { item_count (λ s. s) };

    fn next(&mut self) -> Option<(Timer, T, V)> {
        self.queue.pop_first()
    }

    /// The number of timers still to come, twice.
    fn size_hint(&self) -> (usize, Option<usize>)
        ensures lower { result.0 ≤ length self.now }
        ensures upper { IfSome result.1 (UpTo (at_most (length self.now))) }
        ensures exact { result ≡ (length self.now, Some (length self.now)) }
    {
        let left = self.queue.len();
        (left, Some(left))
    }
}

impl<T: Ord + Copy + Drop, V: Drop, A: Handle> ExactSizeIterator for IntoIter<T, V, A> {
    fn len(&self) -> usize {
        self.queue.len()
    }
}

impl<T: Ord + Copy + Drop, V: Drop, A: Handle> FusedIterator for IntoIter<T, V, A> {}

/// The timers by value, each with its time and its value, in the order in which they come out: the walk takes no memory.
impl<T: Ord + Copy + Drop, V: Drop, A: Handle> IntoIterator for TimerQueue<T, V, A> {
    type Item = (Timer, T, V);

    type IntoIter = IntoIter<T, V, A>;

    ghost into_iter_gives = { λ queue walk. walk ≡ map turnless queue.timers };

    fn into_iter(self) -> IntoIter<T, V, A> {
        IntoIter { queue: self }
    }
}
