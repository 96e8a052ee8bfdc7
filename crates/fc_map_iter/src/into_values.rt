//! The owned walk over the values of a map, from both ends.
ghost use Rattle.std.specs.Prelude.{◌≡◌, ◌≤◌, length, Some, IfSome};
ghost use Rattle.std.specs.Iterator.{YieldsFirst, YieldsLast, UpTo, at_most, item_count};
ghost use Rattle.fc_map_iter.specs.Walks.{values_of};

mod debug;

use crate::into_iter::IntoIter;
use fc_base::Handle;
use std::alloc::Global;
use std::iter::FusedIterator;
use std::marker::Model;

/// The values of a map by value, in ascending order of their keys, seen as the list of those that are left. A value's key is dropped as the value is given out.
/// It compares nothing, takes no memory, and drops what is left. Not in upstream: it is that of std's map.
pub struct IntoValues<K, V, A: Handle = Global> {
    pairs: IntoIter<K, V, A>,
}

impl<K, V, A: Handle> Model for IntoValues<K, V, A> {
    ghost use Rattle.std.specs.Prelude.{List};
    ghost use Rattle.fc_map_iter.specs.Walks.{values_of};

    ghost Value = { List V };

    ghost view = { λ w. values_of w.pairs };
}

// By hand, as `IntoIter`'s.
impl<K: Drop, V: Drop, A: Handle> Drop for IntoValues<K, V, A> {
    fn drop(self) {
        let IntoValues { pairs } = self;
        drop(pairs);
    }
}

impl<K, V, A: Handle> IntoValues<K, V, A> {
    /// The number of values that are left.
    pub fn len(&self) -> usize
        ensures { result ≡ length self.now }
    {
        self.pairs.len()
    }
}

impl<K: Drop, V: Drop, A: Handle> IntoValues<K, V, A> {
    /// The values of the pairs that a walk has left.
    pub fn of(pairs: IntoIter<K, V, A>) -> IntoValues<K, V, A>
        ensures { result ≡ values_of pairs }
    {
        IntoValues { pairs }
    }
}

impl<K: Drop, V: Drop, A: Handle> Iterator for IntoValues<K, V, A> {
    type Item = V;

    ghost next_gives = { YieldsFirst (λ s. s) };

    ghost remaining = { item_count (λ s. s) };

    fn next(&mut self) -> Option<V> {
        let (_key, value) = self.pairs.next()?;
        Some(value)
    }

    /// The number of values that are left, twice.
    fn size_hint(&self) -> (usize, Option<usize>)
        ensures lower { result.0 ≤ length self.now }
        ensures upper { IfSome result.1 (UpTo (at_most (length self.now))) }
        ensures exact { result ≡ (length self.now, Some (length self.now)) }
    {
        self.pairs.size_hint()
    }
}

impl<K: Drop, V: Drop, A: Handle> DoubleEndedIterator for IntoValues<K, V, A> {
    ghost next_back_gives = { YieldsLast (λ s. s) };

    fn next_back(&mut self) -> Option<V> {
        let (_key, value) = self.pairs.next_back()?;
        Some(value)
    }
}

impl<K: Drop, V: Drop, A: Handle> ExactSizeIterator for IntoValues<K, V, A> {
    fn len(&self) -> usize {
        self.pairs.len()
    }
}

impl<K: Drop, V: Drop, A: Handle> FusedIterator for IntoValues<K, V, A> {}
