//! What callers prove of maps that are extended by the items of an iterator, or made of them, through the public clauses alone.
ghost use Rattle.std.specs.Prelude.{◌≡◌, ◌++◌, List, [], OnOk, IfOk, IfErr};
ghost use Rattle.std.specs.Iterator.{IsFiniteIterable};
ghost use Rattle.fc_base.specs.Extended.{extended, IsExtendedUpTo};
ghost use Rattle.fc_map.specs.Entries.{entries};
ghost use Rattle.fc_vec.specs.Items.{GivesAll};

use fc_base::TryReserveError;
use fc_map::map::BTreeMap;
use fc_vec::TryFromIterator;
use std::alloc::Global;

/// Puts the pairs of a list into the map, in turn: all of them, or those before the one that was refused.
pub fn extend_by_list<K: Ord + Drop, V: Drop>(
    map: &mut BTreeMap<K, V>,
    pairs: Vec<(K, V)>,
) -> Result<(), TryReserveError>
    ensures all { OnOk result (entries map.new ≡ extended K.cmp (entries map.old) pairs.items) }
    ensures error { IfErr result (IsExtendedUpTo K.cmp (entries map.old) pairs.items (entries map.new)) }
{
    map.try_extend(pairs)
}

/// Puts the pairs of another map into the map, in ascending order: all of them, or those before the one that was refused.
pub fn extend_by_map<K: Ord + Drop, V: Drop>(
    map: &mut BTreeMap<K, V>,
    other: BTreeMap<K, V>,
) -> Result<(), TryReserveError>
    ensures all { OnOk result (entries map.new ≡ extended K.cmp (entries map.old) (entries other)) }
    ensures error { IfErr result (IsExtendedUpTo K.cmp (entries map.old) (entries other) (entries map.new)) }
{
    map.try_extend(other)
}

/// Puts what any iterator gives into the map.
pub fn extend_by_any<K: Ord + Drop, V: Drop, I: IntoIterator<Item = (K, V)>>(
    map: &mut BTreeMap<K, V>,
    items: I,
) -> Result<(), TryReserveError>
    requires { IsFiniteIterable I.into_iter_gives I.IntoIter.can_next I.IntoIter.remaining items }
    ensures { OnOk result ((all : List (K × V)) × GivesAll I.into_iter_gives I.IntoIter.next_gives items all × (entries map.new ≡ extended K.cmp (entries map.old) all)) }
{
    map.try_extend(items)
}

/// A map of the pairs of a list.
pub fn map_of_list<K: Ord + Drop, V: Drop>(
    alloc: Global,
    pairs: Vec<(K, V)>,
) -> Result<BTreeMap<K, V>, TryReserveError>
    ensures { IfOk result (λ map. entries map ≡ extended K.cmp [] pairs.items) }
{
    BTreeMap::try_from_iterator(alloc, pairs)
}

/// Any collection of the pairs of a list.
pub fn any_of_list<C: TryFromIterator<A>, A: Drop>(
    alloc: Global,
    items: Vec<A>,
) -> Result<C, TryReserveError>
    ensures { IfOk result (C.made_of items.items) }
{
    C::try_from_iterator(alloc, items)
}
