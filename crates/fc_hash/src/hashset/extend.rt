//! The items of an iterator, put into a hashed set one after another.
ghost use Rattle.std.specs.Prelude.{◌≡◌, List, [], length, IfOk, IfErr, OnOk};
ghost use Rattle.std.specs.Iterator.{IsFiniteIterable};
ghost use Rattle.fc_base.specs.Growth.{append_error};
ghost use Rattle.fc_vec.specs.Items.{GivesAll, GivesFirst};
ghost use Rattle.fc_hash.specs.Items.{IsSet};
ghost use Rattle.fc_hash.specs.ItemsPut.{ArePutIn, ArePutInUpTo};

use super::TryHashSet;
use fc_base::{Handle, TryReserveError};
use fc_vec::TryFromIterator;
use std::alloc::Global;
use std::hash::Hash;

impl<T: Eq + Hash + Drop, A: Handle> TryHashSet<T, A> {
    /// Puts all items that the iterator gives into the set, in turn, each as `insert` does: where an equal one is there, that stays. std's
    /// `HashSet::extend`.
    ///
    /// # Errors
    /// As `insert` at the first item that it refuses, which is new. The items before it stay in the set. It is dropped, and so is the
    /// iterator with the items after it.
    pub fn try_extend<I: IntoIterator<Item = T>>(&mut self, items: I) -> Result<(), TryReserveError>
        requires ends { IsFiniteIterable I.into_iter_gives I.IntoIter.can_next I.IntoIter.remaining items }
        ensures all { OnOk result ((all : List T) × GivesAll I.into_iter_gives I.IntoIter.next_gives items all × ArePutIn T.eq self.old.items all self.new.items) }
        ensures error { IfErr result (λ e. (taken : List T) × GivesFirst I.into_iter_gives I.IntoIter.next_gives items taken × ArePutInUpTo T.eq self.old.items taken self.new.items × (e ≡ append_error (length self.new.items) 1)) }
        ensures set { IsSet T.eq self.new.items }
    {
        // No two items are equal: std's set tells that by its length.
        let _known = self.inner.len();
        'items: for item in items {
            match self.insert(item) {
                Ok(_new) => (),
                Err((_item, error)) => return Err(error),
            }
        }
        Ok(())
    }
}

/// A set of the items that an iterator gives: insertions into an empty set, in turn, as `try_extend` does them. Of equal items the first stays.
///
/// # Errors
/// As `try_extend`; the set is then dropped with the items that it has.
impl<T: Eq + Hash + Drop> TryFromIterator<T> for TryHashSet<T> {
    ghost made_of = { λ all set. ArePutIn T.eq [] all set.items };

    ghost may_refuse = { λ taken e. (us : List T) × ArePutInUpTo T.eq [] taken us × (e ≡ append_error (length us) 1) };

    fn try_from_iterator<I: IntoIterator<Item = T>>(
        alloc: Global,
        iter: I,
    ) -> Result<TryHashSet<T>, TryReserveError>
        requires ends { IsFiniteIterable I.into_iter_gives I.IntoIter.can_next I.IntoIter.remaining iter }
        ensures made { IfOk result (λ made. (all : List T) × GivesAll I.into_iter_gives I.IntoIter.next_gives iter all × ArePutIn T.eq [] all made.items) }
        ensures error { IfErr result (λ e. (taken : List T) × GivesFirst I.into_iter_gives I.IntoIter.next_gives iter taken × ((us : List T) × ArePutInUpTo T.eq [] taken us × (e ≡ append_error (length us) 1))) }
        ensures set { IfOk result (λ made. IsSet T.eq made.items) }
    {
        let mut set = TryHashSet::new(alloc);
        set.try_extend(iter)?;
        Ok(set)
    }
}
