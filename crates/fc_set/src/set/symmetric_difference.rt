//! The items that just one of two sets has.
ghost use Rattle.std.specs.Prelude.{◌≡◌, ◌+◌, ◌^◌, ⊤, [], length, nat_lt, if◌then◌else◌, Some, None, IfSome, MatchOption};
ghost use Rattle.std.specs.Iterator.{YieldsFirstRef, UpTo, at_most, item_count};
ghost use Rattle.std.specs.Iterator.SizeHint.{IsWithinCount};
ghost use Rattle.fc_set.specs.Items.{items, AreAscending};
ghost use Rattle.fc_set.specs.Operations.{symmetric_difference};
ghost use Rattle.fc_set.specs.Sides.{Sides, after_item, sum_of_lengths};

use super::BTreeSet;
use super::merge::Merge;
use fc_base::Handle;
use std::alloc::{AllocError, Global};
use std::iter::FusedIterator;
use std::marker::Model;

/// The items of two sets that are in just one of them and still to come, in ascending order. `next` makes a comparison for each pair
/// of equal items that it passes, and at most one more. No call takes memory; once `next` answered `None`, it does so ever after.
/// Upstream: `btree_set::SymmetricDifference`.
#[derive(Drop)]
pub struct SymmetricDifference<'a, T: Ord, A: Handle = Global> {
    sides: Merge<'a, T, A>,
}

impl<'a, T: Ord, A: Handle> Model for SymmetricDifference<'a, T, A> {
    ghost use Rattle.fc_set.specs.Sides.{Sides};

    ghost Value = { Sides T };

    ghost view = { λ w. w.sides };
}

impl<'a, T: Ord, A: Handle> Clone for SymmetricDifference<'a, T, A> {
    ghost is_clone = { λ s r. r ≡ s };

    ghost is_infallible = { λ _. ⊤ };

    /// A second walk over the items still to come, which takes no memory.
    fn clone(&self) -> Result<SymmetricDifference<'a, T, A>, AllocError> {
        Ok(SymmetricDifference {
            sides: self.sides.clone()?,
        })
    }
}

impl<'a, T: Ord, A: Handle> SymmetricDifference<'a, T, A> {
    /// The next item, or `None` where none is left. The trait's `next`, by which a `for` walks, is this call; here stands also what it leaves
    /// of both sides. Upstream: `SymmetricDifference::next`.
    pub fn next(&mut self) -> Option<&'a T>
        ensures steps { YieldsFirstRef (λ w. symmetric_difference T.cmp w.left w.right) self.old result self.new }
        ensures after { MatchOption result ((self.new.left ≡ []) × (self.new.right ≡ [])) (λ x. self.new ≡ after_item T.cmp self.old x.now) }
    {
        'pairs: loop {
            let (ours, theirs) = self.sides.next();
            let Some(ours) = ours else {
                return theirs;
            };
            let Some(_theirs) = theirs else {
                return Some(ours);
            };
        }
    }
}

impl<'a, T: Ord, A: Handle> Iterator for SymmetricDifference<'a, T, A> {
    type Item = &'a T;

    ghost next_gives = { YieldsFirstRef (λ w. symmetric_difference T.cmp w.left w.right) };

    ghost remaining = { item_count (λ w. symmetric_difference T.cmp w.left w.right) };

    fn next(&mut self) -> Option<&'a T> {
        SymmetricDifference::next(self)
    }

    /// At most as many as both sides have still to give, which is `None` past `usize::MAX`.
    fn size_hint(&self) -> (usize, Option<usize>)
        ensures lower { IsWithinCount result.0 (item_count (λ w. symmetric_difference T.cmp w.left w.right) self.now) }
        ensures upper { IfSome result.1 (UpTo (item_count (λ w. symmetric_difference T.cmp w.left w.right) self.now)) }
        ensures exact { result ≡ (0, sum_of_lengths self.now) }
    {
        let (ours, theirs) = self.sides.lens();
        (0, ours.checked_add(theirs))
    }
}

impl<'a, T: Ord, A: Handle> FusedIterator for SymmetricDifference<'a, T, A> {}

impl<T: Ord, A: Handle> BTreeSet<T, A> {
    /// A walk over the items that are in just one of both sets, in ascending order. Upstream:
    /// `BTreeSet::symmetric_difference`.
    pub fn symmetric_difference<'a>(&'a self, other: &'a Self) -> SymmetricDifference<'a, T, A>
        ensures sides { result ≡ record { left = items self.now; right = items other.now } }
        ensures ascending { AreAscending T.cmp (items self.now) × AreAscending T.cmp (items other.now) }
    {
        SymmetricDifference {
            sides: Merge::of(self.iter(), other.iter()),
        }
    }
}
