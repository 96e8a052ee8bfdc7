//! The items of either of two sets.
ghost use Rattle.std.specs.Prelude.{◌≡◌, ◌+◌, ◌^◌, ⊤, [], length, max, nat_lt, if◌then◌else◌, Some, None, IfSome, MatchOption};
ghost use Rattle.std.specs.Iterator.{YieldsFirstRef, UpTo, at_most, item_count};
ghost use Rattle.std.specs.Iterator.SizeHint.{IsWithinCount};
ghost use Rattle.fc_set.specs.Items.{items, AreAscending};
ghost use Rattle.fc_set.specs.Operations.{union};
ghost use Rattle.fc_set.specs.Sides.{Sides, after_item, sum_of_lengths};

use super::BTreeSet;
use super::merge::Merge;
use fc_base::Handle;
use std::alloc::{AllocError, Global};
use std::iter::FusedIterator;
use std::marker::Model;

/// The items that are in either of two sets and still to come, in ascending order. Of equal items it gives the first set's. `next`
/// makes at most one comparison, and no call takes memory; once `next` answered `None`, it does so ever after. Upstream:
/// `btree_set::Union`.
#[derive(Drop)]
pub struct Union<'a, T: Ord, A: Handle = Global> {
    sides: Merge<'a, T, A>,
}

impl<'a, T: Ord, A: Handle> Model for Union<'a, T, A> {
    ghost use Rattle.fc_set.specs.Sides.{Sides};

    ghost Value = { Sides T };

    ghost view = { λ w. w.sides };
}

impl<'a, T: Ord, A: Handle> Clone for Union<'a, T, A> {
    ghost is_clone = { λ s r. r ≡ s };

    ghost is_infallible = { λ _. ⊤ };

    /// A second walk over the items still to come, which takes no memory.
    fn clone(&self) -> Result<Union<'a, T, A>, AllocError> {
        Ok(Union {
            sides: self.sides.clone()?,
        })
    }
}

impl<'a, T: Ord, A: Handle> Union<'a, T, A> {
    /// The next item, or `None` where none is left. The trait's `next`, by which a `for` walks, is this call; here stands also what it leaves
    /// of both sides. Upstream: `Union::next`.
    pub fn next(&mut self) -> Option<&'a T>
        ensures steps { YieldsFirstRef (λ w. union T.cmp w.left w.right) self.old result self.new }
        ensures after { MatchOption result ((self.new.left ≡ []) × (self.new.right ≡ [])) (λ x. self.new ≡ after_item T.cmp self.old x.now) }
    {
        let (ours, theirs) = self.sides.next();
        ours.or(theirs)
    }
}

impl<'a, T: Ord, A: Handle> Iterator for Union<'a, T, A> {
    type Item = &'a T;

    ghost next_gives = { YieldsFirstRef (λ w. union T.cmp w.left w.right) };

    ghost remaining = { item_count (λ w. union T.cmp w.left w.right) };

    fn next(&mut self) -> Option<&'a T> {
        Union::next(self)
    }

    /// At least as many as the longer side has still to give, and at most as many as both, which is `None` past `usize::MAX`.
    fn size_hint(&self) -> (usize, Option<usize>)
        ensures lower { IsWithinCount result.0 (item_count (λ w. union T.cmp w.left w.right) self.now) }
        ensures upper { IfSome result.1 (UpTo (item_count (λ w. union T.cmp w.left w.right) self.now)) }
        ensures exact { result ≡ (max (length self.now.left) (length self.now.right), sum_of_lengths self.now) }
    {
        let (ours, theirs) = self.sides.lens();
        (ours.max(theirs), ours.checked_add(theirs))
    }
}

impl<'a, T: Ord, A: Handle> FusedIterator for Union<'a, T, A> {}

impl<T: Ord, A: Handle> BTreeSet<T, A> {
    /// A walk over the items that are in either set, in ascending order. Of equal items it gives those of this set. Upstream:
    /// `BTreeSet::union`.
    pub fn union<'a>(&'a self, other: &'a Self) -> Union<'a, T, A>
        ensures sides { result ≡ record { left = items self.now; right = items other.now } }
        ensures ascending { AreAscending T.cmp (items self.now) × AreAscending T.cmp (items other.now) }
    {
        Union {
            sides: Merge::of(self.iter(), other.iter()),
        }
    }
}
