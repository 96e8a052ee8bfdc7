//! The items that two sets have in common.
ghost use Rattle.std.specs.Prelude.{◌≡◌, ◌⊎◌, ⊤, [], length, Some, IfSome, IfNone, if◌then◌else◌, MatchOption};
ghost use Rattle.std.specs.Iterator.{YieldsFirstRef, UpTo, at_most, item_count};
ghost use Rattle.std.specs.Iterator.SizeHint.{IsWithinCount};
ghost use Rattle.fc_set.specs.Items.{items, AreAscending};
ghost use Rattle.fc_set.specs.Operations.{common, intersection};
ghost use Rattle.fc_set.specs.Sides.{Filtering, begin_filtering, begin_with_shorter, untaken, filtered_after, GivesCommon, GivesLookedUp};

use super::{BTreeSet, Iter, order_of};
use fc_base::Handle;
use std::alloc::{AllocError, Global};
use std::iter::FusedIterator;
use std::marker::Model;

/// The items of the shorter of two sets that have an equal in the other and are still to come, in ascending order. Where the other is
/// at least sixteen times as long it looks each item up, else it walks both. No call takes memory; once `next` answered `None`, it does
/// so ever after. Upstream: `btree_set::Intersection`.
#[derive(Drop)]
pub struct Intersection<'a, T: Ord, A: Handle = Global> {
    ours: Iter<'a, T, A>,
    other: &'a BTreeSet<T, A>,
    // The walk over the other set. Where there is none, items are looked up in it.
    theirs: Option<Iter<'a, T, A>>,
}

impl<'a, T: Ord, A: Handle> Model for Intersection<'a, T, A> {
    ghost use Rattle.std.specs.Prelude.{is_none, unwrap_or};
    ghost use Rattle.fc_set.specs.Items.{items, AreAscending};
    ghost use Rattle.fc_set.specs.Sides.{Filtering};

    ghost Value = { Filtering T };

    ghost view = { λ w. record { left = w.ours; right = unwrap_or w.theirs (items w.other.now); looks_up = is_none w.theirs } };

    ghost invariant = { λ w. AreAscending T.cmp w.ours × AreAscending T.cmp (unwrap_or w.theirs (items w.other.now)) };
}

impl<'a, T: Ord, A: Handle> Clone for Intersection<'a, T, A> {
    ghost is_clone = { λ s r. r ≡ s };

    ghost is_infallible = { λ _. ⊤ };

    /// A second walk over the items still to come, which takes no memory.
    fn clone(&self) -> Result<Intersection<'a, T, A>, AllocError> {
        let theirs = match &self.theirs {
            Some(walk) => Some(walk.clone()?),
            None => None,
        };
        Ok(Intersection {
            ours: self.ours.clone()?,
            other: self.other,
            theirs,
        })
    }
}

impl<'a, T: Ord, A: Handle> Intersection<'a, T, A> {
    /// The next item, or `None` where none is left. The trait's `next`, by which a `for` walks, is this call; here stands also what it leaves
    /// of both sides. Upstream: `Intersection::next`.
    pub fn next(&mut self) -> Option<&'a T>
        ensures steps { YieldsFirstRef (λ w. common T.cmp w.left w.right) self.old result self.new }
        ensures ended { IfNone result ((self.new.left ≡ []) ⊎ (self.new.right ≡ [])) }
        ensures after { MatchOption result (self.new.left ≡ (if self.old.looks_up then [] else untaken T.cmp self.old.left self.old.right)) (λ x. self.new ≡ filtered_after T.cmp self.old x.now) }
    {
        match &mut self.theirs {
            Some(theirs) => next_common(&mut self.ours, theirs),
            None => next_found(&mut self.ours, self.other),
        }
    }
}

impl<'a, T: Ord, A: Handle> Iterator for Intersection<'a, T, A> {
    type Item = &'a T;

    ghost next_gives = { YieldsFirstRef (λ w. common T.cmp w.left w.right) };

    ghost remaining = { item_count (λ w. common T.cmp w.left w.right) };

    fn next(&mut self) -> Option<&'a T> {
        Intersection::next(self)
    }

    /// At most as many as were not yet taken from the shorter set.
    fn size_hint(&self) -> (usize, Option<usize>)
        ensures lower { IsWithinCount result.0 (item_count (λ w. common T.cmp w.left w.right) self.now) }
        ensures upper { IfSome result.1 (UpTo (item_count (λ w. common T.cmp w.left w.right) self.now)) }
        ensures exact { result ≡ (0, Some (length self.now.left)) }
    {
        (0, Some(self.ours.len()))
    }
}

impl<'a, T: Ord, A: Handle> FusedIterator for Intersection<'a, T, A> {}

// The next item that has an equal in the walk over the other set.
fn next_common<'a, T: Ord, A: Handle>(
    ours: &mut Iter<'a, T, A>,
    theirs: &mut Iter<'a, T, A>,
) -> Option<&'a T>
    requires ascending { AreAscending T.cmp ours.old × AreAscending T.cmp theirs.old }
    ensures gives { GivesCommon T.cmp ours.old theirs.old result ours.new theirs.new }
    ensures ascending { AreAscending T.cmp ours.new × AreAscending T.cmp theirs.new }
{
    let mut first = ours.next()?;
    let mut other = theirs.next()?;
    'pairs: loop {
        let order = order_of(first, other);
        if order.is_eq() {
            return Some(first);
        }
        if order.is_lt() {
            first = ours.next()?;
        } else {
            other = theirs.next()?;
        }
    }
}

// The next item that is found in the other set.
fn next_found<'a, T: Ord, A: Handle>(
    ours: &mut Iter<'a, T, A>,
    other: &BTreeSet<T, A>,
) -> Option<&'a T>
    requires { AreAscending T.cmp ours.old }
    ensures gives { GivesLookedUp T.cmp (common T.cmp) ours.old (items other.now) result ours.new }
    ensures ascending { AreAscending T.cmp ours.new }
{
    'ours: while let Some(item) = ours.next() {
        if other.contains(item) {
            return Some(item);
        }
    }
    None
}

impl<T: Ord, A: Handle> BTreeSet<T, A> {
    /// A walk over the items that both sets have, in ascending order: those of the shorter set, and of this one where both are as
    /// long. Upstream: `BTreeSet::intersection`.
    pub fn intersection<'a>(&'a self, other: &'a Self) -> Intersection<'a, T, A>
        ensures sides { result ≡ begin_with_shorter (items self.now) (items other.now) }
        ensures all { common T.cmp result.left result.right ≡ intersection T.cmp (items self.now) (items other.now) }
        ensures ascending { AreAscending T.cmp (items self.now) × AreAscending T.cmp (items other.now) }
    {
        if self.len() <= other.len() {
            in_longer(self, other)
        } else {
            in_longer(other, self)
        }
    }
}

// The items of the first set that have an equal in the second, which is no shorter.
fn in_longer<'a, T: Ord, A: Handle>(
    shorter: &'a BTreeSet<T, A>,
    longer: &'a BTreeSet<T, A>,
) -> Intersection<'a, T, A>
    ensures { result ≡ begin_filtering (items shorter.now) (items longer.now) }
{
    // A sixteenth, by number: it is no size of a node.
    let walks_both = shorter.len() > longer.len() / 16;
    Intersection {
        ours: shorter.iter(),
        other: longer,
        theirs: if walks_both {
            Some(longer.iter())
        } else {
            None
        },
    }
}
