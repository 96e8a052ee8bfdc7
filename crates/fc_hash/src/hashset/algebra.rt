//! Two hashed sets, walked over and compared.
ghost use Rattle.std.specs.Prelude.{◌+◌, ◌≤◌, ◌++◌, length, IsTrue, ◌↔◌};
ghost use Rattle.std.specs.List.{AllByRecursion, IsAmong, IsDistinct};
ghost use Rattle.std.specs.Map.Iter.{ShowsInOrder, deref};
ghost use Rattle.std.specs.Set.{IsDifference, IsIntersection, IsSymmetricDifference, IsUnion};
ghost use Rattle.fc_hash.specs.SetLaws.{IsDisjointFrom, IsSubsetOf, are_same, same_items_per};

use super::TryHashSet;
use fc_base::Handle;
use std::collections::hash_set;
use std::fmt::{self, Debug};
use std::hash::{BuildHasherDefault, FoldHasher, Hash};

impl<T: Eq + Hash, A: Handle> TryHashSet<T, A> {
    /// A walk over the items of either set, each once: std's.
    pub fn union<'a>(
        &'a self,
        other: &'a TryHashSet<T, A>,
    ) -> hash_set::Union<'a, T, BuildHasherDefault<FoldHasher>, A>
        ensures items { IsUnion T.eq self.now.items other.now.items result }
        ensures set { IsDistinct T.eq result }
        ensures stored { AllByRecursion (IsAmong (self.now.items ++ other.now.items)) result }
        ensures bound { length result ≤ length self.now.items + length other.now.items }
        ensures runs { ShowsInOrder (deref {X = T}) }
    {
        self.inner.union(&other.inner)
    }

    /// A walk over the items of both sets: std's.
    pub fn intersection<'a>(
        &'a self,
        other: &'a TryHashSet<T, A>,
    ) -> hash_set::Intersection<'a, T, BuildHasherDefault<FoldHasher>, A>
        ensures items { IsIntersection T.eq self.now.items other.now.items result }
        ensures set { IsDistinct T.eq result }
        ensures stored { AllByRecursion (IsAmong (self.now.items ++ other.now.items)) result }
        ensures runs { ShowsInOrder (deref {X = T}) }
    {
        self.inner.intersection(&other.inner)
    }

    /// A walk over the items that the other set lacks: std's.
    pub fn difference<'a>(
        &'a self,
        other: &'a TryHashSet<T, A>,
    ) -> hash_set::Difference<'a, T, BuildHasherDefault<FoldHasher>, A>
        ensures items { IsDifference T.eq self.now.items other.now.items result }
        ensures set { IsDistinct T.eq result }
        ensures stored { AllByRecursion (IsAmong (self.now.items ++ other.now.items)) result }
        ensures runs { ShowsInOrder (deref {X = T}) }
    {
        self.inner.difference(&other.inner)
    }

    /// A walk over the items that exactly one of the two sets has: std's.
    pub fn symmetric_difference<'a>(
        &'a self,
        other: &'a TryHashSet<T, A>,
    ) -> hash_set::SymmetricDifference<'a, T, BuildHasherDefault<FoldHasher>, A>
        ensures items { IsSymmetricDifference T.eq self.now.items other.now.items result }
        ensures set { IsDistinct T.eq result }
        ensures stored { AllByRecursion (IsAmong (self.now.items ++ other.now.items)) result }
        ensures runs { ShowsInOrder (deref {X = T}) }
    {
        self.inner.symmetric_difference(&other.inner)
    }

    /// Whether each item is in the other set. std's `HashSet::is_subset`.
    pub fn is_subset(&self, other: &TryHashSet<T, A>) -> bool
        ensures { IsTrue result ↔ IsSubsetOf T.eq self.now.items other.now.items }
    {
        self.inner.is_subset(&other.inner)
    }

    /// Whether each item of the other set is in this one. std's `HashSet::is_superset`.
    pub fn is_superset(&self, other: &TryHashSet<T, A>) -> bool
        ensures { IsTrue result ↔ IsSubsetOf T.eq other.now.items self.now.items }
    {
        self.inner.is_superset(&other.inner)
    }

    /// Whether no item is in the other set. std's `HashSet::is_disjoint`.
    pub fn is_disjoint(&self, other: &TryHashSet<T, A>) -> bool
        ensures { IsTrue result ↔ IsDisjointFrom T.eq self.now.items other.now.items }
    {
        self.inner.is_disjoint(&other.inner)
    }
}

/// Equal are sets of which each has an equal item for each of the other's, whatever their order.
impl<T: Eq + Hash, A: Handle> PartialEq for TryHashSet<T, A> {
    ghost eq = { λ s t. are_same T.eq s.items t.items };

    ghost laws = { same_items_per T.Eq.laws };

    fn eq(&self, other: &TryHashSet<T, A>) -> bool {
        self.inner == other.inner
    }
}

/// `{item, ..}`, by `{:?}` of each item, in the order of a walk.
impl<T: Eq + Hash + Debug, A: Handle> Debug for TryHashSet<T, A> {
    fn fmt<W: fmt::Write>(&self, f: &mut fmt::Formatter<W>) -> fmt::Result {
        f.debug_set().entries(self.inner.iter()).finish()
    }
}
