//! Walks over the items of a set, from both ends: those over the keys of its map.
ghost use Rattle.std.specs.Prelude.{◌≡◌, ◌≤◌, ◌^◌, ◌<◌, ⊤, length, Some, None, IfSome, IsTrue};
ghost use Rattle.std.specs.Iterator.{YieldsFirst, YieldsLast, YieldsFirstRef, YieldsLastRef, UpTo, at_most, item_count};
ghost use Rattle.std.specs.Iterator.Runs.{YieldsInOrder, YieldsInReverse};
ghost use Rattle.std.specs.Iterator.SizeHint.{IsWithinCount};
ghost use Rattle.fc_set.specs.Items.{items, AreAscending, items_within};

mod debug;

use super::BTreeSet;
use fc_base::Handle;
use fc_map::map;
use fc_map::map::KeyRange;
use std::alloc::{AllocError, Global};
use std::iter::FusedIterator;
use std::marker::Model;

/// The items that are still to come, in ascending order. `next` gives the first of them and `next_back` the last; once there is none,
/// both answer `None` ever after. No call compares items or takes memory. Upstream: `btree_set::Iter`.
#[derive(Drop)]
pub struct Iter<'a, T, A: Handle = Global> {
    keys: map::Keys<'a, T, (), A>,
}

impl<'a, T, A: Handle> Model for Iter<'a, T, A> {
    ghost use Rattle.std.specs.Prelude.{List};

    ghost Value = { List T };

    ghost view = { λ w. w.keys };
}

impl<'a, T, A: Handle> Iter<'a, T, A> {
    /// The number of items still to come. Upstream: `Iter::len`.
    pub fn len(&self) -> usize
        ensures { result ≡ length self.now }
    {
        self.keys.len()
    }
}

impl<'a, T, A: Handle> Clone for Iter<'a, T, A> {
    ghost is_clone = { λ s r. r ≡ s };

    ghost is_infallible = { λ _. ⊤ };

    /// A second walk over the items still to come, which takes no memory.
    fn clone(&self) -> Result<Iter<'a, T, A>, AllocError> {
        Ok(Iter {
            keys: self.keys.clone()?,
        })
    }
}

impl<'a, T, A: Handle> Iterator for Iter<'a, T, A> {
    type Item = &'a T;

    ghost next_gives = { YieldsFirstRef (λ s. s) };

    ghost remaining = { item_count (λ s. s) };

    fn next(&mut self) -> Option<&'a T> {
        self.keys.next()
    }

    /// The number of items still to come, twice.
    fn size_hint(&self) -> (usize, Option<usize>)
        ensures lower { result.0 ≤ length self.now }
        ensures upper { IfSome result.1 (UpTo (at_most (length self.now))) }
        ensures exact { result ≡ (length self.now, Some (length self.now)) }
    {
        self.keys.size_hint()
    }
}

impl<'a, T, A: Handle> DoubleEndedIterator for Iter<'a, T, A> {
    ghost next_back_gives = { YieldsLastRef (λ s. s) };

    fn next_back(&mut self) -> Option<&'a T> {
        self.keys.next_back()
    }
}

impl<'a, T, A: Handle> ExactSizeIterator for Iter<'a, T, A> {
    fn len(&self) -> usize {
        self.keys.len()
    }
}

impl<'a, T, A: Handle> FusedIterator for Iter<'a, T, A> {}

/// The items of a set by value, seen as the list of those that are left. It compares nothing, takes no memory, and drops what is left.
/// Upstream: `btree_set::IntoIter`.
pub struct IntoIter<T, A: Handle = Global> {
    pairs: map::IntoIter<T, (), A>,
}

impl<T, A: Handle> Model for IntoIter<T, A> {
    ghost use Rattle.std.specs.Prelude.{List, map};

    ghost Value = { List T };

    ghost view = { λ w. map (λ e. e.0) w.pairs };
}

// By hand, as that of a map's walk.
impl<T: Drop, A: Handle> Drop for IntoIter<T, A> {
    fn drop(self) {
        let IntoIter { pairs } = self;
        drop(pairs);
    }
}

impl<T, A: Handle> IntoIter<T, A> {
    /// The number of items that are left. Upstream: `IntoIter::len`.
    pub fn len(&self) -> usize
        ensures { result ≡ length self.now }
    {
        self.pairs.len()
    }
}

impl<T: Drop, A: Handle> Iterator for IntoIter<T, A> {
    type Item = T;

    ghost next_gives = { YieldsFirst (λ s. s) };

    ghost remaining = { item_count (λ s. s) };

    fn next(&mut self) -> Option<T> {
        let (item, _nothing) = self.pairs.next()?;
        Some(item)
    }

    fn size_hint(&self) -> (usize, Option<usize>)
        ensures lower { IsWithinCount result.0 (at_most (length self.now)) }
        ensures upper { IfSome result.1 (UpTo (at_most (length self.now))) }
        ensures exact { result ≡ (length self.now, Some (length self.now)) }
    {
        self.pairs.size_hint()
    }
}

impl<T: Drop, A: Handle> DoubleEndedIterator for IntoIter<T, A> {
    ghost next_back_gives = { YieldsLast (λ s. s) };

    fn next_back(&mut self) -> Option<T> {
        let (item, _nothing) = self.pairs.next_back()?;
        Some(item)
    }
}

impl<T: Drop, A: Handle> ExactSizeIterator for IntoIter<T, A> {
    fn len(&self) -> usize {
        self.pairs.len()
    }
}

impl<T: Drop, A: Handle> FusedIterator for IntoIter<T, A> {}

/// The items of a range that are still to come, in ascending order. `next` gives the first of them and `next_back` the last; once
/// there is none, both answer `None` ever after. No call compares items or takes memory. Upstream: `btree_set::Range`.
#[derive(Drop)]
pub struct Range<'a, T, A: Handle = Global> {
    pairs: map::Range<'a, T, (), A>,
}

impl<'a, T, A: Handle> Model for Range<'a, T, A> {
    ghost use Rattle.std.specs.Prelude.{List, map};

    ghost Value = { List T };

    ghost view = { λ w. map (λ e. e.0) w.pairs };
}

impl<'a, T, A: Handle> Clone for Range<'a, T, A> {
    ghost is_clone = { λ s r. r ≡ s };

    ghost is_infallible = { λ _. ⊤ };

    /// A second walk over the items still to come, which takes no memory.
    fn clone(&self) -> Result<Range<'a, T, A>, AllocError> {
        Ok(Range {
            pairs: self.pairs.clone()?,
        })
    }
}

impl<'a, T, A: Handle> Iterator for Range<'a, T, A> {
    type Item = &'a T;

    ghost next_gives = { YieldsFirstRef (λ s. s) };

    ghost remaining = { item_count (λ s. s) };

    fn next(&mut self) -> Option<&'a T> {
        let (item, _nothing) = self.pairs.next()?;
        Some(item)
    }

    /// Nothing is known without a walk to the end: `(0, None)`.
    fn size_hint(&self) -> (usize, Option<usize>)
        ensures lower { result.0 ≤ length self.now }
        ensures upper { IfSome result.1 (UpTo (at_most (length self.now))) }
        ensures exact { result ≡ (0, None) }
    {
        self.pairs.size_hint()
    }
}

impl<'a, T, A: Handle> DoubleEndedIterator for Range<'a, T, A> {
    ghost next_back_gives = { YieldsLastRef (λ s. s) };

    fn next_back(&mut self) -> Option<&'a T> {
        let (item, _nothing) = self.pairs.next_back()?;
        Some(item)
    }
}

impl<'a, T, A: Handle> FusedIterator for Range<'a, T, A> {}

impl<T: Ord, A: Handle> BTreeSet<T, A> {
    /// A walk over all items, in ascending order. Upstream: `BTreeSet::iter`.
    pub fn iter(&self) -> Iter<'_, T, A>
        ensures items { result ≡ items self.now }
        ensures ascending { AreAscending T.cmp result }
    {
        Iter {
            keys: self.map.keys(),
        }
    }

    /// A walk over the items that lie within the range, in ascending order: one of Rust's own ranges of items, as `3..7` or `..=7`, or a
    /// pair of bounds by a `Query`, as in `get`. A bound is found in
    /// one way down the tree, two in the same one until they part; an end without a bound when the walk first needs it. The steps of the
    /// walk compare no item. Bounds that are no range, within which no item can lie, make a walk that is empty: upstream panics. `is_range`
    /// is the test of them. Upstream: `BTreeSet::range`.
    pub fn range<R: KeyRange<T>>(&self, bounds: R) -> Range<'_, T, A>
        ensures items { result ≡ items_within R.order (R.start bounds) (R.end bounds) (items self.now) }
        ensures fits { length result ≤ usize.MAX }
        ensures ascending { AreAscending T.cmp (items self.now) }
    {
        Range {
            pairs: self.map.range(bounds),
        }
    }
}

impl<'a, T: Ord, A: Handle> IntoIterator for &'a BTreeSet<T, A> {
    type Item = &'a T;

    type IntoIter = Iter<'a, T, A>;

    ghost into_iter_gives = { λ set walk. walk ≡ items set.now };

    fn into_iter(self) -> Iter<'a, T, A> {
        self.iter()
    }
}

/// The items in ascending order. The walk takes no memory. Upstream: `BTreeSet::into_iter`.
impl<T: Ord + Drop, A: Handle> IntoIterator for BTreeSet<T, A> {
    type Item = T;

    type IntoIter = IntoIter<T, A>;

    ghost into_iter_gives = { λ set walk. (walk ≡ items set) × (length walk < 2 ^ 64) × AreAscending T.cmp walk
        × YieldsInOrder (YieldsFirst {A = T} (λ s. s)) (λ s. s)
        × YieldsInReverse (YieldsLast {A = T} (λ s. s)) (λ s. s) };

    fn into_iter(self) -> IntoIter<T, A> {
        let BTreeSet { map } = self;
        IntoIter {
            pairs: map.into_iter(),
        }
    }
}
