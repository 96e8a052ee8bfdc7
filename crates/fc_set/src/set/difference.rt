//! The items of one set that another has not.
ghost use Rattle.std.specs.Prelude.{◌≡◌, ◌-◌, ⊤, [], length, Some, IfSome, MatchOption};
ghost use Rattle.std.specs.Iterator.{YieldsFirstRef, UpTo, at_most, item_count};
ghost use Rattle.std.specs.Iterator.SizeHint.{IsWithinCount};
ghost use Rattle.fc_set.specs.Items.{items, AreAscending};
ghost use Rattle.fc_set.specs.Operations.{difference};
ghost use Rattle.fc_set.specs.Sides.{Filtering, begin_filtering, filtered_after, GivesApart, GivesLookedUp};

use super::peeked::Peeked;
use super::{BTreeSet, Iter, order_of};
use fc_base::Handle;
use std::alloc::{AllocError, Global};
use std::iter::FusedIterator;
use std::marker::Model;

/// The items of one set that have no equal in another and are still to come, in ascending order. Where the other is at least sixteen
/// times as long it looks each item up, else it walks both. No call takes memory; once `next` answered `None`, it does so ever after.
/// Upstream: `btree_set::Difference`.
#[derive(Drop)]
pub struct Difference<'a, T: Ord, A: Handle = Global> {
    ours: Iter<'a, T, A>,
    other: &'a BTreeSet<T, A>,
    // The walk over the other set. Where there is none, items are looked up in it.
    theirs: Option<Peeked<'a, T, A>>,
}

impl<'a, T: Ord, A: Handle> Model for Difference<'a, T, A> {
    ghost use Rattle.std.specs.Prelude.{is_none, unwrap_or};
    ghost use Rattle.fc_set.specs.Items.{items, AreAscending};
    ghost use Rattle.fc_set.specs.Sides.{Filtering};

    ghost Value = { Filtering T };

    ghost view = { λ w. record { left = w.ours; right = unwrap_or w.theirs (items w.other.now); looks_up = is_none w.theirs } };

    ghost invariant = { λ w. AreAscending T.cmp w.ours × AreAscending T.cmp (unwrap_or w.theirs (items w.other.now)) };
}

impl<'a, T: Ord, A: Handle> Clone for Difference<'a, T, A> {
    ghost is_clone = { λ s r. r ≡ s };

    ghost is_infallible = { λ _. ⊤ };

    /// A second walk over the items still to come, which takes no memory.
    fn clone(&self) -> Result<Difference<'a, T, A>, AllocError> {
        let theirs = match &self.theirs {
            Some(walk) => Some(walk.clone()?),
            None => None,
        };
        Ok(Difference {
            ours: self.ours.clone()?,
            other: self.other,
            theirs,
        })
    }
}

impl<'a, T: Ord, A: Handle> Difference<'a, T, A> {
    /// The next item, or `None` where none is left. The trait's `next`, by which a `for` walks, is this call; here stands also what it leaves
    /// of both sides. Upstream: `Difference::next`.
    pub fn next(&mut self) -> Option<&'a T>
        ensures steps { YieldsFirstRef (λ w. difference T.cmp w.left w.right) self.old result self.new }
        ensures after { MatchOption result (self.new.left ≡ []) (λ x. self.new ≡ filtered_after T.cmp self.old x.now) }
    {
        match &mut self.theirs {
            Some(theirs) => next_apart(&mut self.ours, theirs),
            None => next_absent(&mut self.ours, self.other),
        }
    }
}

impl<'a, T: Ord, A: Handle> Iterator for Difference<'a, T, A> {
    type Item = &'a T;

    ghost next_gives = { YieldsFirstRef (λ w. difference T.cmp w.left w.right) };

    ghost remaining = { item_count (λ w. difference T.cmp w.left w.right) };

    fn next(&mut self) -> Option<&'a T> {
        Difference::next(self)
    }

    /// At most as many as the first set has still to give, and at least as many as these are more than the other's, or than those that
    /// the other's walk has still to give.
    fn size_hint(&self) -> (usize, Option<usize>)
        ensures lower { IsWithinCount result.0 (item_count (λ w. difference T.cmp w.left w.right) self.now) }
        ensures upper { IfSome result.1 (UpTo (item_count (λ w. difference T.cmp w.left w.right) self.now)) }
        ensures exact { result ≡ (length self.now.left - length self.now.right, Some (length self.now.left)) }
    {
        let theirs = self.len_of_other();
        let ours = self.ours.len();
        (ours.saturating_sub(theirs), Some(ours))
    }
}

impl<'a, T: Ord, A: Handle> FusedIterator for Difference<'a, T, A> {}

impl<'a, T: Ord, A: Handle> Difference<'a, T, A> {
    // How many items the other side has: all, where items are looked up in it.
    fn len_of_other(&self) -> usize
        ensures { result ≡ length self.now.right }
    {
        match &self.theirs {
            Some(walk) => walk.len(),
            None => self.other.len(),
        }
    }
}

// The next item that has no equal in the walk over the other set.
fn next_apart<'a, T: Ord, A: Handle>(
    ours: &mut Iter<'a, T, A>,
    theirs: &mut Peeked<'a, T, A>,
) -> Option<&'a T>
    requires ascending { AreAscending T.cmp ours.old × AreAscending T.cmp theirs.old }
    ensures gives { GivesApart T.cmp ours.old theirs.old result ours.new theirs.new }
    ensures ascending { AreAscending T.cmp ours.new × AreAscending T.cmp theirs.new }
{
    let mut item = ours.next()?;
    'theirs: loop {
        let Some(other) = theirs.first() else {
            return Some(item);
        };
        let order = order_of(item, other);
        if order.is_lt() {
            return Some(item);
        }
        theirs.step();
        if order.is_eq() {
            item = ours.next()?;
        }
    }
}

// The next item that is not found in the other set.
fn next_absent<'a, T: Ord, A: Handle>(
    ours: &mut Iter<'a, T, A>,
    other: &BTreeSet<T, A>,
) -> Option<&'a T>
    requires { AreAscending T.cmp ours.old }
    ensures gives { GivesLookedUp T.cmp (difference T.cmp) ours.old (items other.now) result ours.new }
    ensures ascending { AreAscending T.cmp ours.new }
{
    'ours: while let Some(item) = ours.next() {
        if !other.contains(item) {
            return Some(item);
        }
    }
    None
}

impl<T: Ord, A: Handle> BTreeSet<T, A> {
    /// A walk over the items of this set that have no equal in the other, in ascending order. Upstream: `BTreeSet::difference`.
    pub fn difference<'a>(&'a self, other: &'a Self) -> Difference<'a, T, A>
        ensures sides { result ≡ begin_filtering (items self.now) (items other.now) }
        ensures ascending { AreAscending T.cmp (items self.now) × AreAscending T.cmp (items other.now) }
    {
        // A sixteenth, by number: it is no size of a node.
        let walks_both = self.len() > other.len() / 16;
        Difference {
            ours: self.iter(),
            other,
            theirs: if walks_both {
                Some(Peeked::of(other.iter()))
            } else {
                None
            },
        }
    }
}
