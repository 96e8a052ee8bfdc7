//! What stands at a key once two maps were made one, and at an item once two sets were.
ghost use Rattle.std.specs.Prelude.{◌≡◌, IfOk, OnErr};
ghost use Rattle.std.specs.Option.{option_or};
ghost use Rattle.fallible_collections.specs.Words.{entries, item_at, items, joined, joined_items, value_at};

use fallible_collections::TryReserveError;
use fallible_collections::btree::{BTreeMap, BTreeSet};

/// Takes over all newer prices, and answers the price of an item: the newer one, or else the one that was known. Refused, both maps
/// are as they were.
#[tactic(auto, using(fallible_collections::proofs::Laws::value_at_joined))]
pub fn taken_over<K: Ord + Drop>(
    known: &mut BTreeMap<K, u64>,
    newer: &mut BTreeMap<K, u64>,
    item: &K,
) -> Result<Option<u64>, TryReserveError>
    ensures price { IfOk result (λ price. price ≡ option_or (value_at K.cmp (entries newer.old) item.now) (value_at K.cmp (entries known.old) item.now)) }
    ensures joined { IfOk result (λ _. entries known.new ≡ joined K.cmp (entries known.old) (entries newer.old)) }
    ensures unchanged { OnErr result ((known.new ≡ known.old) × (newer.new ≡ newer.old)) }
{
    known.append(newer)?;
    Ok(known.get(item).copied())
}

/// Takes over all items of another set, and answers the one that is equal to an item: theirs, or else the one that was there. Refused,
/// both sets are as they were.
#[tactic(auto, using(fallible_collections::proofs::Laws::item_at_joined))]
pub fn taken_in<T: Ord + Copy + Drop>(
    ours: &mut BTreeSet<T>,
    theirs: &mut BTreeSet<T>,
    item: &T,
) -> Result<Option<T>, TryReserveError>
    ensures found { IfOk result (λ found. found ≡ option_or (item_at T.cmp (items theirs.old) item.now) (item_at T.cmp (items ours.old) item.now)) }
    ensures joined { IfOk result (λ _. items ours.new ≡ joined_items T.cmp (items ours.old) (items theirs.old)) }
    ensures unchanged { OnErr result ((ours.new ≡ ours.old) × (theirs.new ≡ theirs.old)) }
{
    ours.append(theirs)?;
    Ok(ours.get(item).copied())
}
