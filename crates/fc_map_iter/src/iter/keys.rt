//! Reading walks over the keys of a map, from both ends.
ghost use Rattle.std.specs.Prelude.{◌≡◌, ◌≤◌, ⊤, length, Some, IfSome};
ghost use Rattle.fc_map_iter.specs.Walks.{keys_of};
ghost use Rattle.std.specs.Iterator.{YieldsFirstRef, YieldsLastRef, UpTo, at_most, item_count};

use super::Iter;
use fc_base::Handle;
use std::alloc::{AllocError, Global};
use std::iter::FusedIterator;
use std::marker::Model;

/// The keys that are still to come, in ascending order. `next` gives the first of them and `next_back` the last; once there is
/// none, both answer `None` ever after. No call compares keys or takes memory. Upstream: `btree_map::Keys`.
#[derive(Drop)]
pub struct Keys<'a, K, V, A: Handle = Global> {
    pairs: Iter<'a, K, V, A>,
}

impl<'a, K, V, A: Handle> Model for Keys<'a, K, V, A> {
    ghost use Rattle.std.specs.Prelude.{List};
    ghost use Rattle.fc_map_iter.specs.Walks.{keys_of};

    ghost Value = { List K };

    ghost view = { λ w. keys_of w.pairs };
}

impl<'a, K, V, A: Handle> Keys<'a, K, V, A> {
    /// The keys of the pairs still to come.
    pub fn of(pairs: Iter<'a, K, V, A>) -> Keys<'a, K, V, A>
        ensures { result ≡ keys_of pairs.entry }
    {
        Keys { pairs }
    }

    /// The number of keys still to come. Upstream: `Keys::len`.
    pub fn len(&self) -> usize
        ensures { result ≡ length self.now }
    {
        self.pairs.len()
    }
}

impl<'a, K, V, A: Handle> Clone for Keys<'a, K, V, A> {
    ghost is_clone = { λ s r. r ≡ s };

    ghost is_infallible = { λ _. ⊤ };

    /// A second walk over the keys still to come, which takes no memory.
    fn clone(&self) -> Result<Keys<'a, K, V, A>, AllocError> {
        Ok(Keys {
            pairs: self.pairs.clone()?,
        })
    }
}

impl<'a, K, V, A: Handle> Iterator for Keys<'a, K, V, A> {
    type Item = &'a K;

    ghost next_gives = { YieldsFirstRef (λ s. s) };

    ghost remaining = { item_count (λ s. s) };

    fn next(&mut self) -> Option<&'a K> {
        let (key, _value) = self.pairs.next()?;
        Some(key)
    }

    /// The number of keys still to come, twice.
    fn size_hint(&self) -> (usize, Option<usize>)
        ensures lower { result.0 ≤ length self.now }
        ensures upper { IfSome result.1 (UpTo (at_most (length self.now))) }
        ensures exact { result ≡ (length self.now, Some (length self.now)) }
    {
        self.pairs.size_hint()
    }
}

impl<'a, K, V, A: Handle> DoubleEndedIterator for Keys<'a, K, V, A> {
    ghost next_back_gives = { YieldsLastRef (λ s. s) };

    fn next_back(&mut self) -> Option<&'a K> {
        let (key, _value) = self.pairs.next_back()?;
        Some(key)
    }
}

impl<'a, K, V, A: Handle> ExactSizeIterator for Keys<'a, K, V, A> {
    fn len(&self) -> usize {
        self.pairs.len()
    }
}

impl<'a, K, V, A: Handle> FusedIterator for Keys<'a, K, V, A> {}
