//! Walks over a vector.
ghost use Rattle.std.specs.Prelude.{◌≡◌, ◌^◌, ◌<◌, length, IfSome, Some};
ghost use Rattle.std.specs.Iterator.Runs.{EveryRun, ItemsAre, ItemsMapTo};
ghost use Rattle.std.specs.Iterator.{YieldsFirstBy, YieldsLastBy, item_count, at_most, UpTo};
ghost use Rattle.std.specs.Iterator.SizeHint.{IsWithinCount};
ghost use Rattle.std.specs.Vec.Iter.{into_iter_items, into_iter_len, into_iter_steps};
ghost use Rattle.std.specs.Slice.Iter.{iter_rest, iter_steps};

mod shown;

use super::TryVec;
use fc_base::Handle;
use std::iter::FusedIterator;
use std::marker::Model;
use std::{slice, vec};

/// The items that are still to come, in order. `next` gives the first of them and `next_back` the last; once there is none, both answer
/// `None` ever after. Upstream: `vec::Iter`.
#[derive(Drop)]
pub struct Iter<'a, T> {
    rest: &'a [T],
}

impl<'a, T> Model for Iter<'a, T> {
    ghost use Rattle.std.specs.Prelude.{List};

    ghost Value = { List T };

    ghost view = { λ w. w.rest.now };
}

impl<T, A: Handle> TryVec<T, A> {
    /// A walk over the items, from both ends. Upstream: `TryVec::iter`.
    pub fn iter(&self) -> Iter<'_, T>
        ensures { result ≡ self.now.items }
    {
        Iter {
            rest: self.inner.as_slice(),
        }
    }
}

impl<'a, T> Iterator for Iter<'a, T> {
    type Item = &'a T;

    ghost next_gives = { YieldsFirstBy (λ r. r.now) (λ s. s) };

    ghost remaining = { item_count (λ s. s) };

    fn next(&mut self) -> Option<&'a T> {
        let (first, rest) = self.rest.split_first()?;
        self.rest = rest;
        Some(first)
    }

    fn size_hint(&self) -> (usize, Option<usize>)
        ensures lower { IsWithinCount result.0 (at_most (length self.now)) }
        ensures upper { IfSome result.1 (UpTo (at_most (length self.now))) }
        ensures exact { result ≡ (length self.now, Some (length self.now)) }
    {
        let left = self.rest.len();
        (left, Some(left))
    }
}

impl<'a, T> DoubleEndedIterator for Iter<'a, T> {
    ghost next_back_gives = { YieldsLastBy (λ r. r.now) (λ s. s) };

    fn next_back(&mut self) -> Option<&'a T> {
        let (last, front) = self.rest.split_last()?;
        self.rest = front;
        Some(last)
    }
}

impl<'a, T> ExactSizeIterator for Iter<'a, T> {
    fn len(&self) -> usize {
        self.rest.len()
    }
}

impl<'a, T> FusedIterator for Iter<'a, T> {}

/// The items by value, in order: std's walk, which drops what it did not give.
impl<T: Drop, A: Handle> IntoIterator for TryVec<T, A> {
    type Item = T;

    type IntoIter = vec::IntoIter<T, A>;

    ghost into_iter_gives = { λ v r. (into_iter_items r ≡ v.items) × (into_iter_len r ≡ length v.items) × EveryRun (into_iter_steps {X = T} {Z = A}) (λ p. ItemsAre p (into_iter_items p.from)) };

    fn into_iter(self) -> vec::IntoIter<T, A> {
        let TryVec { inner } = self;
        inner.into_iter()
    }
}

/// The items by reference, in order: std's walk over a slice.
impl<'a, T, A: Handle> IntoIterator for &'a TryVec<T, A> {
    type Item = &'a T;

    type IntoIter = slice::Iter<'a, T>;

    ghost into_iter_gives = { λ v r. (iter_rest r ≡ v.now.items) × (length (iter_rest r) < 2 ^ 64) × EveryRun (iter_steps {A = T}) (λ p. ItemsMapTo p (λ y. y.now) (iter_rest p.from)) };

    fn into_iter(self) -> slice::Iter<'a, T> {
        self.inner.as_slice().iter()
    }
}
