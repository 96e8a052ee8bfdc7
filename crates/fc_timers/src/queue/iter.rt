//! A walk over the timers of a queue, which stay in it.
ghost use Rattle.std.specs.Prelude.{◌≡◌, ◌≤◌, IsPermutation, length, map, Some, IfSome, ⊤};
ghost use Rattle.std.specs.Iterator.{YieldsFirstBy, item_count, UpTo, at_most};
ghost use Rattle.fc_timers.specs.Timers.{turnless};
ghost use Rattle.fc_timers.specs.Walks.{deref_timer};

use super::TimerQueue;
use crate::slot::Slot;
use crate::timer::Timer;
use fc_base::Handle;
use std::alloc::AllocError;
use std::iter::FusedIterator;
use std::marker::Model;

/// The timers that are still to come, each with its time and its value, in the order of the slots that they were given, and not of their times.
/// `next` gives the first of them; once there is none, it answers `None` ever after. No call takes memory.
#[derive(Drop)]
pub struct Iter<'a, T, V> {
    // The slots that are still to be looked at, and the index of the first of them.
    rest: &'a [Slot<T, V>],
    slot: usize,
    // How many timers stand in them.
    left: usize,
}

impl<'a, T, V> Model for Iter<'a, T, V> {
    ghost use Rattle.std.specs.Prelude.{List};
    ghost use Rattle.fc_timers.specs.declared.timer.Timer.{Timer};
    ghost use Rattle.fc_timers.specs.Heap.{helds};
    ghost use Rattle.fc_timers.specs.Walks.{AreLeft, standing};

    ghost Value = { List (Timer × T × V) };

    ghost view = { λ w. standing w.slot (helds w.rest.now) };

    ghost invariant = { λ w. AreLeft w.slot w.rest.now w.left };
}

impl<T: Ord, V, A: Handle> TimerQueue<T, V, A> {
    /// A walk over all timers, each with its time and its value, which gives each of them just once. It goes in the order of the slots that they were
    /// given, and not of their times, and looks at each slot, also at those that timers left.
    pub fn iter(&self) -> Iter<'_, T, V>
        ensures { IsPermutation (map turnless self.now.timers) result }
    {
        Iter {
            rest: self.slots.row(),
            slot: 0,
            left: self.slots.len(),
        }
    }
}

impl<'a, T, V> Iterator for Iter<'a, T, V> {
    type Item = (Timer, &'a T, &'a V);

    ghost next_gives = { YieldsFirstBy deref_timer (λ s. s) };

    ghost remaining = { item_count (λ s. s) };

    fn next(&mut self) -> Option<(Timer, &'a T, &'a V)> {
        'slots: while let Some((slot, rest)) = self.rest.split_first() {
            let index = self.slot;
            self.rest = rest;
            self.slot += 1;
            if let Some(armed) = &slot.held {
                self.left -= 1;
                let timer = Timer {
                    slot: index,
                    number: armed.number,
                };
                return Some((timer, &armed.at, &armed.value));
            }
        }
        None
    }

    /// The number of timers still to come, twice.
    fn size_hint(&self) -> (usize, Option<usize>)
        ensures lower { result.0 ≤ length self.now }
        ensures upper { IfSome result.1 (UpTo (at_most (length self.now))) }
        ensures exact { result ≡ (length self.now, Some (length self.now)) }
    {
        (self.left, Some(self.left))
    }
}

impl<'a, T, V> ExactSizeIterator for Iter<'a, T, V> {
    fn len(&self) -> usize {
        self.left
    }
}

impl<'a, T, V> FusedIterator for Iter<'a, T, V> {}

impl<'a, T, V> Clone for Iter<'a, T, V> {
    ghost is_clone = { λ s r. r ≡ s };

    ghost is_infallible = { λ _. ⊤ };

    /// A second walk over the timers still to come, which takes no memory.
    fn clone(&self) -> Result<Iter<'a, T, V>, AllocError> {
        Ok(Iter {
            rest: self.rest,
            slot: self.slot,
            left: self.left,
        })
    }
}

impl<'a, T: Ord, V, A: Handle> IntoIterator for &'a TimerQueue<T, V, A> {
    type Item = (Timer, &'a T, &'a V);

    type IntoIter = Iter<'a, T, V>;

    ghost into_iter_gives = { λ queue walk. IsPermutation (map turnless queue.now.timers) walk };

    fn into_iter(self) -> Iter<'a, T, V> {
        self.iter()
    }
}
