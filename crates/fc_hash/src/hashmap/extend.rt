//! The items of an iterator, put into a hashed map one after another.
ghost use Rattle.std.specs.Prelude.{◌≡◌, List, [], length, IfOk, IfErr, OnOk};
ghost use Rattle.std.specs.Iterator.{IsFiniteIterable};
ghost use Rattle.fc_base.specs.Growth.{append_error};
ghost use Rattle.fc_vec.specs.Items.{GivesAll, GivesFirst};
ghost use Rattle.fc_hash.specs.Pairs.{IsMap};
ghost use Rattle.fc_hash.specs.Extended.{IsPutAll, IsPutUpTo};

use super::TryHashMap;
use fc_base::{Handle, TryReserveError};
use fc_vec::TryFromIterator;
use std::alloc::Global;
use std::hash::Hash;

impl<K: Eq + Hash + Drop, V: Drop, A: Handle> TryHashMap<K, V, A> {
    /// Puts all items that the iterator gives into the map, in turn, each as `insert` does: where an equal key is there, that key stays
    /// and the new value takes the place of the old one, which is dropped. Not in upstream: it is `extend` of std's map.
    ///
    /// # Errors
    /// As `insert` at the first item that it refuses, whose key is new. The items before it stay in the map. It is dropped, and so is the
    /// iterator with the items after it.
    pub fn try_extend<I: IntoIterator<Item = (K, V)>>(
        &mut self,
        items: I,
    ) -> Result<(), TryReserveError>
        requires ends { IsFiniteIterable I.into_iter_gives I.IntoIter.can_next I.IntoIter.remaining items }
        ensures all { OnOk result ((all : List (K × V)) × GivesAll I.into_iter_gives I.IntoIter.next_gives items all × IsPutAll K.eq self.old.pairs all self.new.pairs) }
        ensures error { IfErr result (λ e. (taken : List (K × V)) × GivesFirst I.into_iter_gives I.IntoIter.next_gives items taken × IsPutUpTo K.eq self.old.pairs taken self.new.pairs × (e ≡ append_error (length self.new.pairs) 1)) }
        ensures map { IsMap K.eq self.new.pairs }
    {
        // No two keys are equal: std's map tells that by its length.
        let _known = self.inner.len();
        'items: for (key, value) in items {
            match self.insert(key, value) {
                Ok(old) => drop(old),
                Err(refused) => return Err(refused),
            }
        }
        Ok(())
    }
}

/// A map of the pairs that an iterator gives: insertions into an empty map, in turn, as `try_extend` does them. Of pairs with equal keys
/// the first key stays, with the last value. Not in upstream: there it is for `Vec` and the ordered map.
///
/// # Errors
/// As `try_extend`; the map is then dropped with the pairs that it has.
impl<K: Eq + Hash + Drop, V: Drop> TryFromIterator<(K, V)> for TryHashMap<K, V> {
    ghost made_of = { λ all map. IsPutAll K.eq [] all map.pairs };

    ghost may_refuse = { λ taken e. (ps : List (K × V)) × IsPutUpTo K.eq [] taken ps × (e ≡ append_error (length ps) 1) };

    fn try_from_iterator<T: IntoIterator<Item = (K, V)>>(
        alloc: Global,
        iter: T,
    ) -> Result<TryHashMap<K, V>, TryReserveError>
        requires ends { IsFiniteIterable T.into_iter_gives T.IntoIter.can_next T.IntoIter.remaining iter }
        ensures made { IfOk result (λ made. (all : List (K × V)) × GivesAll T.into_iter_gives T.IntoIter.next_gives iter all × IsPutAll K.eq [] all made.pairs) }
        ensures error { IfErr result (λ e. (taken : List (K × V)) × GivesFirst T.into_iter_gives T.IntoIter.next_gives iter taken × ((ps : List (K × V)) × IsPutUpTo K.eq [] taken ps × (e ≡ append_error (length ps) 1))) }
        ensures map { IfOk result (λ made. IsMap K.eq made.pairs) }
    {
        let mut map = TryHashMap::default(alloc);
        map.try_extend(iter)?;
        Ok(map)
    }
}
