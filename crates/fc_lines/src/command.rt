//! Commands over two ordered maps and two ordered sets, and what they answer.

use crate::items::Items;
use fc_base::TryReserveError;
use std::cmp::Ordering;
use std::ops::Bound;

/// Which of the two maps, or of the two sets, a command names.
#[derive(Clone, Copy, PartialEq, Eq, Debug)]
pub enum Side {
    /// The map `a`, the set `s`.
    First,
    /// The map `b`, the set `t`.
    Second,
}

/// An operation on two sets.
#[derive(Clone, Copy, PartialEq, Eq, Debug)]
pub enum SetOp {
    /// The items that the other set has no equal of.
    Difference,
    /// The items of either set that the other has no equal of.
    SymmetricDifference,
    /// The items that are in both sets.
    Intersection,
    /// The items of either set.
    Union,
}

/// An end of a walk.
#[derive(Clone, Copy, PartialEq, Eq, Debug)]
pub enum End {
    /// Where `next` gives.
    Front,
    /// Where `next_back` gives.
    Back,
}

/// A command on the map or the set that its side names, and in some also on the other one of its kind. Lists in it are `Items`.
#[derive(PartialEq, Eq, Debug, Drop)]
pub enum Command<K, V> {
    /// `try_insert` of the key and the value; replies `Value`, the old one. A new key may be refused: then `GivenBack`, both.
    Insert(Side, K, V),
    /// `get`; replies `Value`, a copy. The copy may be refused.
    Get(Side, K),
    /// `get_key_value`; replies `Pair`, a copy. The copy may be refused.
    GetKeyValue(Side, K),
    /// `contains_key`; replies `Flag`.
    ContainsKey(Side, K),
    /// `remove`; replies `Value`, the one taken out.
    Remove(Side, K),
    /// Writes the value through `get_mut` where the key is there; replies `Value`, the old one.
    Set(Side, K, V),
    /// By `try_entry`: `and_modify` to the first value where the key is there, else `or_try_insert` of the second; replies `Flag`,
    /// true where the key was there. A new key may be refused: then `GivenBack`, the key and the second value; the first is dropped.
    Entry(Side, K, V, V),
    /// `remove_entry` of the key's entry where it is there; replies `Pair`, the one taken out.
    RemoveEntry(Side, K),
    /// `len`; replies `Len`.
    Len(Side),
    /// `clear`; replies `Done`.
    Clear(Side),
    /// A `range` between the two bounds, and one `next` or `next_back` for each end; replies `Pairs`, copies, or `BadRange` where the
    /// bounds are no range. Where there is an end, room for the copies or one of them may be refused.
    Walk(Side, Bound<K>, Bound<K>, Items<End>),
    /// A `range_mut` between the two bounds, which writes each value at the pair that its end lends, or drops it where no pair is
    /// left; replies `Len`, how many were written, or `BadRange` where the bounds are no range.
    Write(Side, Bound<K>, Bound<K>, Items<(End, V)>),
    /// `append` of the other map, which is then empty; replies `Done`. It may be refused where neither map is empty.
    Append(Side),
    /// The other map becomes `split_off` of this one at the key, and its own pairs are dropped; replies `Done`. It may be refused
    /// where this map is not empty.
    SplitOff(Side, K),
    /// The other map becomes `try_clone` of this one, and its own pairs are dropped; replies `Done`. It may be refused where this map
    /// is not empty.
    TryClone(Side),
    /// `try_extend` by the pairs; replies `Done`. It may be refused at a pair with a new key, as `Insert` there: the pairs before it
    /// are then in the map.
    Extend(Side, Items<(K, V)>),
    /// `insert_both` of a key and a value for `a` and of a key and a value for `b`; replies `Both`, the old values. A new key may be
    /// refused in its map: then `BothGivenBack`, all four, and neither map changes.
    InsertBoth(K, V, K, V),
    /// `try_insert` of the item into a set; replies `Flag`, true where it was new. A new item may be refused: then `ItemGivenBack`.
    AddItem(Side, K),
    /// `replace`; replies `Key`, the equal item that was there. A new item may be refused: then `ItemGivenBack`.
    ReplaceItem(Side, K),
    /// `take`; replies `Key`, the item taken out.
    TakeItem(Side, K),
    /// `remove`; replies `Flag`, true where there was an equal item.
    RemoveItem(Side, K),
    /// `contains`; replies `Flag`.
    ContainsItem(Side, K),
    /// `get`; replies `Key`, a copy. The copy may be refused.
    GetItem(Side, K),
    /// `len` of a set; replies `Len`.
    SetLen(Side),
    /// `clear` of a set; replies `Done`.
    SetClear(Side),
    /// `append` of the other set, which is then empty; replies `Done`. It may be refused where neither set is empty.
    SetAppend(Side),
    /// The other set becomes `try_split_off` of this one at the item, and its own items are dropped; replies `Done`. It may be refused
    /// where this set is not empty.
    SetSplitOff(Side, K),
    /// The other set becomes `try_clone` of this one, and its own items are dropped; replies `Done`. It may be refused where this set
    /// is not empty.
    SetClone(Side),
    /// `try_extend` of a set by the items; replies `Done`. It may be refused at a new item, as `AddItem` there: the items before it
    /// are then in the set.
    SetExtend(Side, Items<K>),
    /// A `range` of a set, as `Walk`; replies `Keys`, copies, or `BadRange`.
    SetWalk(Side, Bound<K>, Bound<K>, Items<End>),
    /// The lazy operation on the named set and the other; replies `Keys`, copies of its items. Where it has one, room for the copies
    /// or one of them may be refused.
    List(SetOp, Side),
    /// The named set becomes the set of that operation, made by `sub`, `bitxor`, `bitand` or `bitor`; replies `Done`. It may be refused
    /// where that set has an item.
    Keep(SetOp, Side),
    /// `is_disjoint`: whether no item is in both sets; replies `Flag`.
    IsDisjoint(Side),
    /// `is_subset`: whether the other set has an equal of each item; replies `Flag`.
    IsSubset(Side),
    /// `is_superset`: whether this set has an equal of each item of the other; replies `Flag`.
    IsSuperset(Side),
    /// `cmp` of this set with the other; replies `Order`.
    SetCmp(Side),
}

/// What a command answers.
#[derive(PartialEq, Eq, Debug, Drop)]
pub enum Reply<K, V> {
    /// The command was done and has nothing to tell.
    Done,
    /// A yes or no.
    Flag(bool),
    /// A key, if there was one.
    Key(Option<K>),
    /// A number of pairs or items.
    Len(usize),
    /// A value, if there was one.
    Value(Option<V>),
    /// The value that was in the map `a`, and the one that was in `b`, if there was one.
    Both(Option<V>, Option<V>),
    /// A pair, if there was one.
    Pair(Option<(K, V)>),
    /// What each step of a walk gave.
    Pairs(Items<Option<(K, V)>>),
    /// What each step of a walk over a set gave.
    Keys(Items<Option<K>>),
    /// How one set stands to another.
    Order(Ordering),
    /// The bounds are no range.
    BadRange,
    /// A command that hands nothing back was refused, and the world is as before, but for what `Extend` or `SetExtend` had put in.
    Refused(TryReserveError),
    /// An `Insert` or an `Entry` was refused, and the world is as before: the key and the value that were to be put in.
    GivenBack(K, V, TryReserveError),
    /// An `InsertBoth` was refused, and the world is as before: the keys and the values that were to be put in, those for the map `a`
    /// first.
    BothGivenBack(K, V, K, V, TryReserveError),
    /// An `AddItem` or a `ReplaceItem` was refused, and the world is as before: the item that was to be put in.
    ItemGivenBack(K, TryReserveError),
}
