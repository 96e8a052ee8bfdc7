//! The owned walk over the keys of a map, from both ends.
ghost use Rattle.std.specs.Prelude.{◌≡◌, ◌≤◌, length, Some, IfSome};
ghost use Rattle.std.specs.Iterator.{YieldsFirst, YieldsLast, UpTo, at_most, item_count};
ghost use Rattle.fc_map_iter.specs.Walks.{keys_of};

mod debug;

use crate::into_iter::IntoIter;
use fc_base::Handle;
use std::alloc::Global;
use std::iter::FusedIterator;
use std::marker::Model;

/// The keys of a map by value, in ascending order, seen as the list of those that are left. A key's value is dropped as the key is given out.
/// It compares nothing, takes no memory, and drops what is left. Not in upstream: it is that of std's map.
pub struct IntoKeys<K, V, A: Handle = Global> {
    pairs: IntoIter<K, V, A>,
}

impl<K, V, A: Handle> Model for IntoKeys<K, V, A> {
    ghost use Rattle.std.specs.Prelude.{List};
    ghost use Rattle.fc_map_iter.specs.Walks.{keys_of};

    ghost Value = { List K };

    ghost view = { λ w. keys_of w.pairs };
}

// By hand, as `IntoIter`'s.
impl<K: Drop, V: Drop, A: Handle> Drop for IntoKeys<K, V, A> {
    fn drop(self) {
        let IntoKeys { pairs } = self;
        drop(pairs);
    }
}

impl<K, V, A: Handle> IntoKeys<K, V, A> {
    /// The number of keys that are left.
    pub fn len(&self) -> usize
        ensures { result ≡ length self.now }
    {
        self.pairs.len()
    }
}

impl<K: Drop, V: Drop, A: Handle> IntoKeys<K, V, A> {
    /// The keys of the pairs that a walk has left.
    pub fn of(pairs: IntoIter<K, V, A>) -> IntoKeys<K, V, A>
        ensures { result ≡ keys_of pairs }
    {
        IntoKeys { pairs }
    }
}

impl<K: Drop, V: Drop, A: Handle> Iterator for IntoKeys<K, V, A> {
    type Item = K;

    ghost next_gives = { YieldsFirst (λ s. s) };

    ghost remaining = { item_count (λ s. s) };

    fn next(&mut self) -> Option<K> {
        let (key, _value) = self.pairs.next()?;
        Some(key)
    }

    /// The number of keys that are left, twice.
    fn size_hint(&self) -> (usize, Option<usize>)
        ensures lower { result.0 ≤ length self.now }
        ensures upper { IfSome result.1 (UpTo (at_most (length self.now))) }
        ensures exact { result ≡ (length self.now, Some (length self.now)) }
    {
        self.pairs.size_hint()
    }
}

impl<K: Drop, V: Drop, A: Handle> DoubleEndedIterator for IntoKeys<K, V, A> {
    ghost next_back_gives = { YieldsLast (λ s. s) };

    fn next_back(&mut self) -> Option<K> {
        let (key, _value) = self.pairs.next_back()?;
        Some(key)
    }
}

impl<K: Drop, V: Drop, A: Handle> ExactSizeIterator for IntoKeys<K, V, A> {
    fn len(&self) -> usize {
        self.pairs.len()
    }
}

impl<K: Drop, V: Drop, A: Handle> FusedIterator for IntoKeys<K, V, A> {}
