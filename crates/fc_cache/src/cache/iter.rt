//! A walk over the entries of a cache, in the order of their last use, from both ends.
ghost use Rattle.std.specs.Prelude.{◌≡◌, ◌≤◌, ⊤, length, Some, IfSome};
ghost use Rattle.std.specs.Iterator.{YieldsFirstBy, YieldsLastBy, item_count, UpTo, at_most};
ghost use Rattle.std.specs.Map.Iter.{deref_pair};
ghost use Rattle.fc_cache.specs.Entries.{pairs_of};

use super::Cache;
use crate::held::Held;
use fc_base::Handle;
use std::alloc::AllocError;
use std::hash::Hash;
use std::iter::FusedIterator;
use std::marker::Model;

/// The entries that are still to come, each as its key and its value, from the least to the most lately used. `next` gives the first of
/// them and `next_back` the last; once there is none, both answer `None` ever after. No call counts as a use, or takes memory.
#[derive(Drop)]
pub struct Iter<'a, K, V> {
    // The ring's walk goes from the most to the least lately used. None where the cache has no ring yet.
    ring: Option<lru::Iter<'a, K, Held<V>>>,
}

impl<'a, K, V> Model for Iter<'a, K, V> {
    ghost use Rattle.std.specs.Prelude.{List};
    ghost use Rattle.fc_cache.specs.Walked.{walked};

    ghost Value = { List (K × V) };

    ghost view = { λ w. walked w.ring };
}

impl<K: Eq + Hash, V, A: Handle> Cache<K, V, A> {
    /// A walk over all entries from both ends, from the least to the most lately used. It does not count as a use.
    pub fn iter(&self) -> Iter<'_, K, V>
        ensures { result ≡ pairs_of self.now.entries }
    {
        Iter {
            ring: self.recency.iter(),
        }
    }
}

impl<'a, K, V> Iterator for Iter<'a, K, V> {
    type Item = (&'a K, &'a V);

    ghost next_gives = { YieldsFirstBy deref_pair (λ s. s) };

    ghost remaining = { item_count (λ s. s) };

    fn next(&mut self) -> Option<(&'a K, &'a V)> {
        let (key, held) = self.ring.as_mut()?.next_back()?;
        Some((key, &held.value))
    }

    /// The number of entries still to come, twice.
    fn size_hint(&self) -> (usize, Option<usize>)
        ensures lower { result.0 ≤ length self.now }
        ensures upper { IfSome result.1 (UpTo (at_most (length self.now))) }
        ensures exact { result ≡ (length self.now, Some (length self.now)) }
    {
        let left = self.len();
        (left, Some(left))
    }
}

impl<'a, K, V> DoubleEndedIterator for Iter<'a, K, V> {
    ghost next_back_gives = { YieldsLastBy deref_pair (λ s. s) };

    fn next_back(&mut self) -> Option<(&'a K, &'a V)> {
        let (key, held) = self.ring.as_mut()?.next()?;
        Some((key, &held.value))
    }
}

impl<'a, K, V> ExactSizeIterator for Iter<'a, K, V> {
    fn len(&self) -> usize {
        match &self.ring {
            Some(ring) => ring.len(),
            None => 0,
        }
    }
}

impl<'a, K, V> FusedIterator for Iter<'a, K, V> {}

impl<'a, K, V> Clone for Iter<'a, K, V> {
    ghost is_clone = { λ s r. r ≡ s };

    ghost is_infallible = { λ _. ⊤ };

    /// A second walk over the entries still to come, which takes no memory.
    fn clone(&self) -> Result<Iter<'a, K, V>, AllocError> {
        match &self.ring {
            Some(ring) => Ok(Iter {
                ring: Some(ring.clone()?),
            }),
            None => Ok(Iter { ring: None }),
        }
    }
}

impl<'a, K: Eq + Hash, V, A: Handle> IntoIterator for &'a Cache<K, V, A> {
    type Item = (&'a K, &'a V);

    type IntoIter = Iter<'a, K, V>;

    ghost into_iter_gives = { λ cache walk. walk ≡ pairs_of cache.now.entries };

    fn into_iter(self) -> Iter<'a, K, V> {
        self.iter()
    }
}
