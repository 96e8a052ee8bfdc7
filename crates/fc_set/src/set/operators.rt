//! Sets made of copies of the items of two others.
ghost use Rattle.std.specs.Prelude.{◌≡◌, ◌+◌, ◌<◌, ◌≤◌, ◌↔◌, true, length, IfOk, IfErr, IsErr};
ghost use Rattle.std.specs.List.{AllZip};
ghost use Rattle.fc_map.specs.Entries.{IsSoundMap};
ghost use Rattle.fc_set.specs.Copied.{MayCopyRefuse};
ghost use Rattle.fc_set.specs.Items.{items, AreAscending};
ghost use Rattle.fc_set.specs.Operations.{difference, symmetric_difference, intersection, union};

use super::BTreeSet;
use super::copied::try_copied;
use fc_base::{Handle, TryClone, TryReserveError};
use fc_map::map::for_sets;

// The copies are made by the items' own `try_clone` and have to be equal to them, so that they ascend as the items do. The new set takes
// its memory where this one does.
impl<T: Ord + TryClone, A: Handle> BTreeSet<T, A> {
    /// A set of copies of the items of this set that have no equal in the other. Both sets stay as they are. Upstream: the operator `-`,
    /// which answers the set alone.
    ///
    /// # Errors
    /// Only where there is such an item: `AllocError` where a request for memory was refused, or the error of an item's own copy. What was
    /// made by then is dropped.
    pub fn sub(&self, other: &Self) -> Result<BTreeSet<T, A>, TryReserveError>
        requires copies { T.can_clone }
        requires equal { (a b : T) → T.same a b → T.eq a b ≡ true }
        ensures copied { IfOk result (λ made. AllZip T.same (difference T.cmp (items self.now) (items other.now)) (items made)) }
        ensures error { IfErr result (MayCopyRefuse T.may_refuse (difference T.cmp (items self.now) (items other.now))) }
        ensures ascending { IfOk result (λ made. AreAscending T.cmp (items made)) }
        ensures sound { IfOk result (λ made. IsSoundMap made) }
    {
        // Shows that there are at most `usize::MAX`.
        let _len = self.len();
        try_copied(for_sets::allocator(&self.map), true, self.difference(other))
    }

    /// A set of copies of the items of either set that have no equal in the other. Both sets stay as they are. Upstream: the operator `^`,
    /// which answers the set alone.
    ///
    /// # Errors
    /// Only where there is such an item: `CapacityOverflow` where they are more than `usize::MAX`, and then always; else `AllocError`, where
    /// a request for memory was refused, or the error of an item's own copy. What was made by then is dropped.
    pub fn bitxor(&self, other: &Self) -> Result<BTreeSet<T, A>, TryReserveError>
        requires copies { T.can_clone }
        requires equal { (a b : T) → T.same a b → T.eq a b ≡ true }
        ensures copied { IfOk result (λ made. AllZip T.same (symmetric_difference T.cmp (items self.now) (items other.now)) (items made)) }
        ensures error { IfErr result (MayCopyRefuse T.may_refuse (symmetric_difference T.cmp (items self.now) (items other.now))) }
        ensures full { usize.MAX < length (symmetric_difference T.cmp (items self.now) (items other.now)) → IsErr result }
        ensures ascending { IfOk result (λ made. AreAscending T.cmp (items made)) }
        ensures sound { IfOk result (λ made. IsSoundMap made) }
    {
        try_copied(
            for_sets::allocator(&self.map),
            fit_together(self, other),
            self.symmetric_difference(other),
        )
    }

    /// A set of copies of the items that both sets have: those of the smaller set, of this one where both are as large. Both sets stay as
    /// they are. Upstream: the operator `&`, which answers the set alone.
    ///
    /// # Errors
    /// As `sub`.
    pub fn bitand(&self, other: &Self) -> Result<BTreeSet<T, A>, TryReserveError>
        requires copies { T.can_clone }
        requires equal { (a b : T) → T.same a b → T.eq a b ≡ true }
        ensures copied { IfOk result (λ made. AllZip T.same (intersection T.cmp (items self.now) (items other.now)) (items made)) }
        ensures error { IfErr result (MayCopyRefuse T.may_refuse (intersection T.cmp (items self.now) (items other.now))) }
        ensures ascending { IfOk result (λ made. AreAscending T.cmp (items made)) }
        ensures sound { IfOk result (λ made. IsSoundMap made) }
    {
        // Shows that there are at most `usize::MAX`.
        let _len = self.len();
        try_copied(
            for_sets::allocator(&self.map),
            true,
            self.intersection(other),
        )
    }

    /// A set of copies of the items of both sets; of equal items, of this one's. Both sets stay as they are. Upstream: the operator `|`,
    /// which answers the set alone.
    ///
    /// # Errors
    /// As `bitxor`.
    pub fn bitor(&self, other: &Self) -> Result<BTreeSet<T, A>, TryReserveError>
        requires copies { T.can_clone }
        requires equal { (a b : T) → T.same a b → T.eq a b ≡ true }
        ensures copied { IfOk result (λ made. AllZip T.same (union T.cmp (items self.now) (items other.now)) (items made)) }
        ensures error { IfErr result (MayCopyRefuse T.may_refuse (union T.cmp (items self.now) (items other.now))) }
        ensures full { usize.MAX < length (union T.cmp (items self.now) (items other.now)) → IsErr result }
        ensures ascending { IfOk result (λ made. AreAscending T.cmp (items made)) }
        ensures sound { IfOk result (λ made. IsSoundMap made) }
    {
        try_copied(
            for_sets::allocator(&self.map),
            fit_together(self, other),
            self.union(other),
        )
    }
}

// Whether both sets together have at most `usize::MAX` items.
fn fit_together<T: Ord, A: Handle>(one: &BTreeSet<T, A>, other: &BTreeSet<T, A>) -> bool
    ensures { result ≡ true ↔ (length (items one.now) + length (items other.now) ≤ usize.MAX) }
{
    one.len().checked_add(other.len()).is_some()
}
