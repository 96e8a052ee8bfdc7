//! The items of an iterator, put into a map one after another, or made a map.
ghost use Rattle.std.specs.Prelude.{◌≡◌, ◌↔◌, ◌++◌, List, [], length, IsTrue, IfOk, IfErr, OnOk, None};
ghost use Rattle.std.specs.Iterator.{IsFiniteIterable};
ghost use Rattle.std.specs.List.{AllByRecursion};
ghost use Rattle.std.specs.declared.cmp.Ordering.TheVariants.{Less};
ghost use Rattle.fc_base.specs.Ascending.{IsAscending};
ghost use Rattle.fc_base.specs.Extended.{extended, IsExtendedUpTo};
ghost use Rattle.fc_base.specs.Growth.{MayGrowRefuse};
ghost use Rattle.fc_base.specs.OneKey.{put};
ghost use Rattle.fc_base.specs.Parts.{at};
ghost use Rattle.fc_vec.specs.Items.{GivesAll, GivesFirst};
ghost use Rattle.fc_map.specs.Entries.{entries, IsSoundMap};

use super::BTreeMap;
use fc_base::{Asked, Count, Handle, TryReserveError};
use fc_tree_cursor::ends::last_gap_in;
use fc_tree_node::node::CAPACITY;
use fc_vec::TryFromIterator;
use std::alloc::Global;

impl<K: Ord + Drop, V: Drop, A: Handle> BTreeMap<K, V, A> {
    /// Puts all items that the iterator gives into the map, each as `try_insert` does before the next is taken: where an equal key is there,
    /// that key stays and the new value takes the place of the old one, which is dropped. It asks for what insertions ask for. An item after
    /// all before it, those of the map too, takes one comparison, as long as each before it did. Many items of a vector, in any order, go in
    /// faster by `try_extend_from_vec`. Upstream: `BTreeMap::extend`, which panics where this call answers an error.
    ///
    /// # Errors
    /// At the first item that `try_insert` refuses, whose key is new, with that error. The items before it stay in the map, it is dropped, and
    /// no item after it was taken: a lent iterator has them still.
    pub fn try_extend<I: IntoIterator<Item = (K, V)>>(
        &mut self,
        items: I,
    ) -> Result<(), TryReserveError>
        requires ends { IsFiniteIterable I.into_iter_gives I.IntoIter.can_next I.IntoIter.remaining items }
        ensures all { OnOk result ((all : List (K × V)) × GivesAll I.into_iter_gives I.IntoIter.next_gives items all × (entries self.new ≡ extended K.cmp (entries self.old) all)) }
        ensures error { IfErr result (λ e. (taken : List (K × V)) × GivesFirst I.into_iter_gives I.IntoIter.next_gives items taken × (stop : IsExtendedUpTo K.cmp (entries self.old) taken (entries self.new) e) × (stop.rest ≡ [])) }
        ensures ascending { IsAscending K.cmp (entries self.new) }
        ensures sound { IsSoundMap self.new }
    {
        let mut ascends = true;
        for (key, value) in items {
            match self.put_next(&mut ascends, key, value) {
                Ok(()) => (),
                Err(refused) => {
                    // Shows that the map is ascending and sound.
                    let _len = self.len();
                    return Err(refused);
                }
            }
        }
        let _len = self.len();
        Ok(())
    }

    // Puts the value at the key, as `put`; as long as each key ascends, after all others, by one comparison.
    pub(crate) fn put_next(
        &mut self,
        ascends: &mut bool,
        key: K,
        value: V,
    ) -> Result<(), TryReserveError>
        ensures put { IfOk result (λ _. entries self.new ≡ put K.cmp (entries self.old) key value) }
        ensures unchanged { IfErr result (λ _. self.new ≡ self.old) }
        ensures new_key { IfErr result (λ _. at K.cmp (entries self.old) key ≡ None) }
        ensures error { IfErr result (λ e. MayGrowRefuse (length (entries self.old)) e) }
    {
        *ascends = *ascends && self.is_after_all(&key);
        if *ascends {
            return self.put_last(key, value);
        }
        self.put(key, value, &mut Count::new())
    }

    // Puts a pair after all others, whose keys are smaller: at the tree's right edge, without a search.
    fn put_last(&mut self, key: K, value: V) -> Result<(), TryReserveError>
        requires after { AllByRecursion (λ e. K.cmp e.0 key ≡ Less) (entries self.old) }
        ensures put { IfOk result (λ _. entries self.new ≡ put K.cmp (entries self.old) key value) }
        ensures unchanged { IfErr result (λ _. self.new ≡ self.old) }
        ensures new_key { IfErr result (λ _. at K.cmp (entries self.old) key ≡ None) }
        ensures error { IfErr result (λ e. MayGrowRefuse (length (entries self.old)) e) }
    {
        let mut path = last_gap_in(&self.root);
        let len = path.len();
        if len > 0 && path.step(len - 1) < CAPACITY && self.len < usize::MAX {
            let pair = (key, value);
            self.insert_in_room(&path, pair, &mut Count::new());
            return Ok(());
        }
        self.put_growing(&mut path, key, value, &mut Count::new(), &mut Asked::new())
    }
}

impl<K: Ord, V, A: Handle> BTreeMap<K, V, A> {
    // Whether the key lies after all keys: it is compared with the last one.
    fn is_after_all(&self, key: &K) -> bool
        ensures { IsTrue result ↔ AllByRecursion (λ e. K.cmp e.0 key.now ≡ Less) (entries self.now) }
    {
        match self.last_key_value() {
            None => true,
            Some((last, _value)) => last.cmp(key).is_lt(),
        }
    }
}

/// A map of the pairs that an iterator gives, put into an empty map in turn: of pairs with equal keys the first key stays, with the last
/// value. From the 257th out of order on, items are gathered, at least 1,024 and eight times as many as there are pairs, and then sorted
/// and merged with these; where memory for that is refused, they go in one by one. Beside the pairs there are then at once the gathered
/// items, room for as many to sort them, and the nodes of the new tree. An allocator with a cap takes `new` and `try_extend`, which asks for
/// no more than insertions do.
///
/// # Errors
/// At the first item that `try_insert` refuses, with that error; all that was made or taken is dropped.
impl<K: Ord + Drop, V: Drop> TryFromIterator<(K, V)> for BTreeMap<K, V> {
    ghost made_of = { λ all map. entries map ≡ extended K.cmp [] all };

    ghost may_refuse = { λ taken e. (new : List (K × V)) × ((rest : List (K × V)) → IsExtendedUpTo K.cmp [] (taken ++ rest) new e) };

    fn try_from_iterator<T: IntoIterator<Item = (K, V)>>(
        alloc: Global,
        iter: T,
    ) -> Result<BTreeMap<K, V>, TryReserveError>
        requires ends { IsFiniteIterable T.into_iter_gives T.IntoIter.can_next T.IntoIter.remaining iter }
        ensures made { IfOk result (λ made. (all : List (K × V)) × GivesAll T.into_iter_gives T.IntoIter.next_gives iter all × (entries made ≡ extended K.cmp [] all)) }
        ensures error { IfErr result (λ e. (taken : List (K × V)) × GivesFirst T.into_iter_gives T.IntoIter.next_gives iter taken × ((new : List (K × V)) × ((rest : List (K × V)) → IsExtendedUpTo K.cmp [] (taken ++ rest) new e))) }
        ensures ascending { IfOk result (λ made. IsAscending K.cmp (entries made)) }
        ensures sound { IfOk result (λ made. IsSoundMap made) }
    {
        BTreeMap::try_from_iterator_asked(alloc, iter, &mut Asked::new())
    }
}
