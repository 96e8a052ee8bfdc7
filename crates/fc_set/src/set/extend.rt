//! The items of an iterator or of a vector, put into a set, or made one.
ghost use Rattle.std.specs.Prelude.{◌≡◌, ◌+◌, ◌<◌, ◌≤◌, ◌++◌, List, [], length, map, vec_len, vec_capacity, IfOk, IfErr, OnOk, OnErr, IsOk, IsErr};
ghost use Rattle.std.specs.Iterator.{IsFiniteIterable};
ghost use Rattle.fc_base.specs.Growth.{append_error};
ghost use Rattle.fc_map.specs.Entries.{IsSoundMap};
ghost use Rattle.fc_vec.specs.Items.{GivesAll, GivesFirst};
ghost use Rattle.fc_set.specs.Items.{items, AreAscending, extended_items, AreExtendedUpTo};
ghost use Rattle.fc_map.specs.Loads.{load_requests};

use super::BTreeSet;
use fc_base::{Asked, Handle, TryReserveError};
use fc_map::map::bulk_load::BulkLoad;
use fc_map::map::for_sets;
use fc_vec::TryFromIterator;
use std::alloc::Global;

impl<T: Ord + Drop, A: Handle> BTreeSet<T, A> {
    /// Puts all items that the iterator gives into the set, each as `try_insert` does before the next is taken: an equal item that is there
    /// stays. It asks for what insertions ask for. An item after all before it, those of the set too, takes one comparison, as long as each
    /// before it did. Many items of a vector, in any order, go in faster by `try_extend_from_vec`. Upstream: `BTreeSet::extend`, which panics
    /// where this call answers an error.
    ///
    /// # Errors
    /// At the first item that `try_insert` refuses, which is new, with that error. The items before it stay in the set, it is dropped, and no
    /// item after it was taken: a lent iterator has them still.
    pub fn try_extend<I: IntoIterator<Item = T>>(&mut self, given: I) -> Result<(), TryReserveError>
        requires ends { IsFiniteIterable I.into_iter_gives I.IntoIter.can_next I.IntoIter.remaining given }
        ensures all { OnOk result ((all : List T) × GivesAll I.into_iter_gives I.IntoIter.next_gives given all × (items self.new ≡ extended_items T.cmp (items self.old) all)) }
        ensures error { IfErr result (λ e. (taken : List T) × GivesFirst I.into_iter_gives I.IntoIter.next_gives given taken × (stop : AreExtendedUpTo T.cmp (items self.old) taken (items self.new) e) × (stop.rest ≡ [])) }
        ensures ascending { AreAscending T.cmp (items self.new) }
        ensures sound { IsSoundMap self.new }
    {
        let mut ascends = true;
        for item in given {
            match for_sets::put_next(&mut self.map, &mut ascends, item, ()) {
                Ok(()) => (),
                Err(refused) => {
                    // Shows that the set is ascending and sound.
                    let _len = self.len();
                    return Err(refused);
                }
            }
        }
        let _len = self.len();
        Ok(())
    }

    /// Puts all items of a vector into the set, in turn, or none of them, as `BTreeMap::try_extend_from_vec`: an equal item that is there stays.
    /// Not in upstream.
    ///
    /// # Errors
    /// `CapacityOverflow` where the set's items and these together pass `usize::MAX`, and then always; else `AllocError`, where a request for
    /// memory was refused. The items come back, in their order, and the set is as before, tree and all.
    pub fn try_extend_from_vec(
        &mut self,
        given: Vec<T, A>,
    ) -> Result<(), (Vec<T, A>, TryReserveError)>
        ensures all { OnOk result (items self.new ≡ extended_items T.cmp (items self.old) given.items) }
        ensures unchanged { OnErr result (self.new ≡ self.old) }
        ensures back { IfErr result (λ refused. refused.0.items ≡ given.items) }
        ensures error { IfErr result (λ refused. refused.1 ≡ append_error (length (items self.old)) (length given.items)) }
        ensures full { 0 < length given.items → usize.MAX < length (items self.old) + length given.items → IsErr result }
        ensures none { given.items ≡ [] → IsOk result }
        ensures ascending { AreAscending T.cmp (items self.new) }
        ensures sound { IsSoundMap self.new }
    {
        if given.len() > usize::MAX - self.len() {
            return Err((given, TryReserveError::CapacityOverflow));
        }
        let mut given = given;
        let mut pairs = Vec::new(for_sets::allocator(&self.map));
        if pairs.try_reserve_exact(given.len()).is_err() {
            return Err((given, TryReserveError::AllocError));
        }
        pair_up(&mut given, &mut pairs);
        match self.map.try_extend_from_vec(pairs) {
            Ok(()) => Ok(()),
            Err((pairs, error)) => {
                take_keys(pairs, &mut given);
                Err((given, error))
            }
        }
    }
}

// Moves the items, in their order, into pairs, for which there is room.
fn pair_up<T: Drop, A: Handle>(items: &mut Vec<T, A>, pairs: &mut Vec<(T, ()), A>)
    requires none { pairs.old.items ≡ [] }
    requires room { vec_len items.old + vec_len pairs.old ≤ vec_capacity pairs.old }
    ensures pairs { map (λ e. e.0) pairs.new.items ≡ items.old.items }
    ensures none { items.new.items ≡ [] }
    ensures room { vec_capacity items.new ≡ vec_capacity items.old }
{
    while let Some(item) = items.pop() {
        let _done = pairs.push((item, ()));
    }
    pairs.reverse();
}

// Moves the keys of the pairs, in their order, into a list, which has room for them.
fn take_keys<T: Drop, A: Handle>(pairs: Vec<(T, ()), A>, items: &mut Vec<T, A>)
    requires none { items.old.items ≡ [] }
    requires room { vec_len pairs ≤ vec_capacity items.old }
    ensures { items.new.items ≡ map (λ e. e.0) pairs.items }
{
    for (item, _value) in pairs {
        let _done = items.push(item);
    }
}

impl<T: Ord + Drop> BTreeSet<T> {
    /// `try_from_iterator`, with its requests for memory added to `asked`, as `BTreeMap::try_from_iterator_asked` adds them.
    ///
    /// # Errors
    /// As `try_from_iterator`.
    pub fn try_from_iterator_asked<I: IntoIterator<Item = T>>(
        alloc: Global,
        given: I,
        asked: &mut Asked,
    ) -> Result<BTreeSet<T>, TryReserveError>
        requires ends { IsFiniteIterable I.into_iter_gives I.IntoIter.can_next I.IntoIter.remaining given }
        ensures made { IfOk result (λ made. (all : List T) × GivesAll I.into_iter_gives I.IntoIter.next_gives given all × (items made ≡ extended_items T.cmp [] all) × (AreAscending T.cmp all → asked.new.requests ≤ asked.old.requests + load_requests (length all))) }
        ensures error { IfErr result (λ e. (taken : List T) × GivesFirst I.into_iter_gives I.IntoIter.next_gives given taken × ((new : List T) × ((rest : List T) → AreExtendedUpTo T.cmp [] (taken ++ rest) new e)) × (AreAscending T.cmp taken → asked.new.requests ≤ asked.old.requests + load_requests (length taken))) }
        ensures ascending { IfOk result (λ made. AreAscending T.cmp (items made)) }
        ensures sound { IfOk result (λ made. IsSoundMap made) }
    {
        let mut load = BulkLoad::new(alloc);
        for item in given {
            match load.try_put(item, (), asked) {
                Ok(()) => (),
                Err(error) => return Err(error),
            }
        }
        match load.flush(asked) {
            Ok(()) => Ok(BTreeSet { map: load.finish() }),
            Err(error) => Err(error),
        }
    }
}

/// A set of the items that an iterator gives, put into an empty set in turn: of equal items the first stays. Items out of order are sorted
/// and merged as by `BTreeMap::try_from_iterator`.
///
/// # Errors
/// At the first item that `try_insert` refuses, with that error; all that was made or taken is dropped.
impl<T: Ord + Drop> TryFromIterator<T> for BTreeSet<T> {
    ghost made_of = { λ all set. items set ≡ extended_items T.cmp [] all };

    ghost may_refuse = { λ taken e. (new : List T) × ((rest : List T) → AreExtendedUpTo T.cmp [] (taken ++ rest) new e) };

    fn try_from_iterator<I: IntoIterator<Item = T>>(
        alloc: Global,
        given: I,
    ) -> Result<BTreeSet<T>, TryReserveError>
        requires ends { IsFiniteIterable I.into_iter_gives I.IntoIter.can_next I.IntoIter.remaining given }
        ensures made { IfOk result (λ made. (all : List T) × GivesAll I.into_iter_gives I.IntoIter.next_gives given all × (items made ≡ extended_items T.cmp [] all)) }
        ensures error { IfErr result (λ e. (taken : List T) × GivesFirst I.into_iter_gives I.IntoIter.next_gives given taken × ((new : List T) × ((rest : List T) → AreExtendedUpTo T.cmp [] (taken ++ rest) new e))) }
        ensures ascending { IfOk result (λ made. AreAscending T.cmp (items made)) }
        ensures sound { IfOk result (λ made. IsSoundMap made) }
    {
        BTreeSet::try_from_iterator_asked(alloc, given, &mut Asked::new())
    }
}
