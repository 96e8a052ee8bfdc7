//! What callers prove of walks through their public clauses alone.
ghost use Rattle.std.specs.Prelude.{◌≡◌, List, ◌∷◌, ◌++◌, [], length, reverse, IfOk, MatchOption};
ghost use Rattle.fc_map.specs.Entries.{entries};
ghost use Rattle.fc_map.specs.Walks.{deref_pair, keys_of, values_of};

use fc_map::map::{BTreeMap, Iter};
use std::alloc::{AllocError, Global};

/// The first pair, if there is one, and the walk over the rest.
pub fn split_first<'a, K: Ord + Drop, V: Drop>(
    map: &'a BTreeMap<K, V>,
) -> Option<((&'a K, &'a V), Iter<'a, K, V>)>
    ensures { MatchOption result (entries map.now ≡ []) (λ r. entries map.now ≡ deref_pair r.0 ∷ r.1) }
{
    let mut walk = map.iter();
    match walk.next() {
        Some(pair) => Some((pair, walk)),
        None => None,
    }
}

/// The last key, if there is one.
pub fn last_key<K: Ord + Drop, V: Drop>(map: &BTreeMap<K, V>) -> Option<&K>
    ensures { MatchOption result (keys_of (entries map.now) ≡ []) (λ key. (front : List K) × (keys_of (entries map.now) ≡ front ++ key.now ∷ [])) }
{
    map.keys().next_back()
}

/// All keys, in ascending order.
pub fn all_keys<K: Ord + Copy + Drop, V: Drop>(
    map: &BTreeMap<K, V>,
    alloc: Global,
) -> Result<Vec<K>, AllocError>
    ensures { IfOk result (λ all. all.items ≡ keys_of (entries map.now)) }
{
    map.keys().copied().collect(alloc)
}

/// All keys, in descending order.
pub fn all_keys_reversed<K: Ord + Copy + Drop, V: Drop>(
    map: &BTreeMap<K, V>,
    alloc: Global,
) -> Result<Vec<K>, AllocError>
    ensures { IfOk result (λ all. all.items ≡ reverse (keys_of (entries map.now))) }
{
    let mut all = Vec::new(alloc);
    for key in map.keys().rev() {
        all.push(*key)?;
    }
    Ok(all)
}

/// All values, in the order of their keys.
pub fn all_values<K: Ord + Drop, V: Copy + Drop>(
    map: &BTreeMap<K, V>,
    alloc: Global,
) -> Result<Vec<V>, AllocError>
    ensures { IfOk result (λ all. all.items ≡ values_of (entries map.now)) }
{
    map.values().copied().collect(alloc)
}

/// All pairs, in ascending order of their keys.
pub fn all_pairs<K: Ord + Copy + Drop, V: Copy + Drop>(
    map: &BTreeMap<K, V>,
    alloc: Global,
) -> Result<Vec<(K, V)>, AllocError>
    ensures { IfOk result (λ all. all.items ≡ entries map.now) }
{
    let mut all = Vec::new(alloc);
    for (key, value) in map {
        all.push((*key, *value))?;
    }
    Ok(all)
}

/// How many pairs there are, counted one by one.
pub fn count<K: Ord + Drop, V: Drop>(map: &BTreeMap<K, V>) -> usize
    ensures { result ≡ length (entries map.now) }
{
    map.iter().count()
}
