//! Copies of hashed sets.
ghost use Rattle.std.specs.Prelude.{◌≡◌, [], true, OnOk, IfErr};
ghost use Rattle.std.specs.List.{AllZip};
ghost use Rattle.fc_base.specs.Copies.{MayRefuseCopies};
ghost use Rattle.fc_hash.specs.Items.{IsSet};
ghost use Rattle.fc_hash.specs.ItemsPut.{AreItemCopies};

use super::TryHashSet;
use fc_base::{Handle, TryClone, TryReserveError};
use std::alloc::AllocError;
use std::collections::hash_set;
use std::hash::Hash;

/// A copy of a set has a copy of each item, made by its `try_clone`, and takes its memory where the set does. Its room is taken before the first
/// copy. Copies of items have to be equal to them.
///
/// # Errors
/// `AllocError` where the room was refused, or the error of an item whose copy was; never where the set is empty. What was made by then is
/// dropped.
impl<T: Eq + Hash + TryClone, A: Handle> TryClone for TryHashSet<T, A> {
    ghost same = { λ source copy. AreItemCopies T.same source.items copy.items };

    ghost can_clone = { T.can_clone × ((a b : T) → T.same a b → T.eq a b ≡ true) };

    ghost may_refuse = { λ source. MayRefuseCopies T.may_refuse source.items };

    fn try_clone(&self) -> Result<TryHashSet<T, A>, TryReserveError> {
        let mut made = TryHashSet::with_capacity(self.alloc, self.inner.len())?;
        insert_copies(&mut made, self.inner.iter())?;
        Ok(made)
    }
}

// Puts a copy of each item that the walk gives into the set, which has none yet.
fn insert_copies<T: Eq + Hash + TryClone, A: Handle>(
    made: &mut TryHashSet<T, A>,
    walk: hash_set::Iter<'_, T>,
) -> Result<(), TryReserveError>
    requires items { T.can_clone }
    requires equal { (a b : T) → T.same a b → T.eq a b ≡ true }
    requires distinct { IsSet T.eq walk }
    requires empty { made.old.items ≡ [] }
    ensures copied { OnOk result (AreItemCopies T.same walk.entry made.new.items) }
    ensures error { IfErr result (MayRefuseCopies T.may_refuse walk.entry) }
{
    let mut walk = walk;
    'items: while let Some(item) = walk.next() {
        let copy = item.try_clone()?;
        let _len = made.inner.len();
        made.insert(copy)?;
    }
    Ok(())
}

/// A copy of each item, made by its `clone`, in the same order: std's, and what `#[derive(Clone)]` on a struct with a set calls.
///
/// # Errors
/// `AllocError` where a request was refused, or the `clone` of an item was, or where an item's clone is not equal to it.
impl<T: Eq + Hash + Clone, A: Handle> Clone for TryHashSet<T, A> {
    ghost is_clone = { λ source copy. AllZip T.is_clone source.items copy.items };

    fn clone(&self) -> Result<TryHashSet<T, A>, AllocError> {
        let inner = self.inner.clone()?;
        Ok(TryHashSet {
            inner,
            alloc: self.alloc,
        })
    }
}
