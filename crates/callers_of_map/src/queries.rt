//! What callers prove of look-ups by a reference to a key, and by a borrowed form of it.
ghost use Rattle.std.specs.Prelude.{◌≡◌, ◌+◌, ◌<◌, ◌↔◌, length, IsTrue, IsSome, IfOk, IfSome, None, Some, string_bytes};
ghost use Rattle.std.specs.Borrow.{sem};
ghost use Rattle.std.specs.declared.cmp.Ordering.TheVariants.{Equal};
ghost use Rattle.fc_base.specs.Ascending.{IsAscending};
ghost use Rattle.fc_base.specs.OneKey.{put, cut};
ghost use Rattle.fc_base.specs.Parts.{at, value_at};
ghost use Rattle.fc_base.specs.Query.{text_order, items_order};
ghost use Rattle.fc_map.specs.Counts.{IsBounded};
ghost use Rattle.fc_map.specs.Entries.{entries, IsSoundMap, now_value, now_pair, passed_in};
ghost use Rattle.fc_map.specs.LendsKey.{lends_get, lent_value};

use fc_base::{Count, Query, TryReserveError};
use fc_map::map::BTreeMap;

/// Looks a key up, by a reference to it.
pub fn get<'a, K: Ord, V>(map: &'a BTreeMap<K, V>, key: &K, count: &mut Count) -> Option<&'a V>
    ensures value { now_value result ≡ value_at K.cmp (entries map.now) key.now }
    ensures ascending { IsAscending K.cmp (entries map.now) }
    ensures comparisons { count.new.comparisons ≡ count.old.comparisons + passed_in K.cmp key.now map.now }
    ensures moves { count.new.moves ≡ count.old.moves }
    ensures bounded { IsBounded (length (entries map.now)) count.old count.new }
{
    map.get_counted(key, count)
}

/// Looks the pair at a key up, by a reference to the key.
pub fn get_pair<'a, K: Ord, V>(
    map: &'a BTreeMap<K, V>,
    key: &K,
    count: &mut Count,
) -> Option<(&'a K, &'a V)>
    ensures pair { now_pair result ≡ at K.cmp (entries map.now) key.now }
    ensures comparisons { count.new.comparisons ≡ count.old.comparisons + passed_in K.cmp key.now map.now }
{
    map.get_key_value_counted(key, count)
}

/// The key that stands in the map where an equal one is looked up.
#[tactic(auto, using(fc_laws::proofs::Laws::key_at))]
pub fn stored_key<K: Ord + Copy, V>(map: &BTreeMap<K, V>, key: &K) -> Option<K>
    ensures equal { IfSome result (λ stored. K.cmp stored key.now ≡ Equal) }
    ensures none { result ≡ None → at K.cmp (entries map.now) key.now ≡ None }
{
    let (stored, _value) = map.get_key_value(key)?;
    Some(*stored)
}

/// Whether a key is there, by a reference to it.
pub fn contains<K: Ord, V>(map: &BTreeMap<K, V>, key: &K, count: &mut Count) -> bool
    ensures there { IsTrue result ↔ IsSome (at K.cmp (entries map.now) key.now) }
    ensures comparisons { count.new.comparisons ≡ count.old.comparisons + passed_in K.cmp key.now map.now }
{
    map.contains_key_counted(key, count)
}

/// Lends the value at a key, by a reference to the key.
pub fn lend<'a, K: Ord, V>(map: &'a mut BTreeMap<K, V>, key: &K) -> Option<&'a mut V>
    ensures* writes_back { sem 𝓛 (lends_get K.row V.row K.Ord K.cmp map.entry key.now result) }
    ensures value { lent_value result ≡ value_at K.cmp (entries map.old) key.now }
{
    map.get_mut(key)
}

/// Writes the value at a key, by a reference to the key, and answers whether it is there.
pub fn set<K: Ord, V: Drop>(map: &mut BTreeMap<K, V>, key: &K, value: V, count: &mut Count) -> bool
    ensures there { IsTrue result ↔ IsSome (at K.cmp (entries map.old) key.now) }
    ensures written { IsTrue result → entries map.new ≡ put K.cmp (entries map.old) key.now value }
    ensures absent { at K.cmp (entries map.old) key.now ≡ None → map.new ≡ map.old }
    ensures comparisons { count.new.comparisons ≡ count.old.comparisons + passed_in K.cmp key.now map.old }
{
    match map.get_mut_counted(key, count) {
        Some(held) => {
            *held = value;
            true
        }
        None => false,
    }
}

/// Takes the pair at a key out, by a reference to the key.
pub fn remove<K: Ord + Drop, V: Drop>(
    map: &mut BTreeMap<K, V>,
    key: &K,
    count: &mut Count,
) -> Option<V>
    ensures value { result ≡ value_at K.cmp (entries map.old) key.now }
    ensures rest { entries map.new ≡ cut K.cmp (entries map.old) key.now }
    ensures absent { at K.cmp (entries map.old) key.now ≡ None → map.new ≡ map.old }
    ensures ascending { IsAscending K.cmp (entries map.new) }
    ensures sound { IsSoundMap map.new }
    ensures comparisons { count.new.comparisons ≡ count.old.comparisons + passed_in K.cmp key.now map.old }
    ensures no_move { at K.cmp (entries map.old) key.now ≡ None → count.new.moves ≡ count.old.moves }
    ensures moved { IsSome (at K.cmp (entries map.old) key.now) → count.old.moves < count.new.moves }
    ensures bounded { IsBounded (length (entries map.old)) count.old count.new }
{
    map.remove_counted(key, count)
}

/// The value at a key that is there, by an index.
pub fn index<'a, K: Ord, V>(map: &'a BTreeMap<K, V>, key: &K) -> &'a V
    requires { IsSome (at K.cmp (entries map.now) key.now) }
    ensures { value_at K.cmp (entries map.now) key.now ≡ Some result.now }
{
    &map[key]
}

/// Looks a text up among strings.
pub fn get_text<'a, V>(map: &'a BTreeMap<String, V>, text: &str) -> Option<&'a V>
    ensures { now_value result ≡ value_at text_order (entries map.now) text.now }
{
    map.get(text)
}

/// Looks a string up by its text: as by the string itself.
pub fn get_string<'a, V>(map: &'a BTreeMap<String, V>, key: &String) -> Option<&'a V>
    ensures { now_value result ≡ value_at ⟦<String as Ord>⟧.cmp (entries map.now) key.now }
{
    map.get(key.as_str())
}

/// Takes the pair at a text out of a map of strings.
pub fn remove_text<V: Drop>(map: &mut BTreeMap<String, V>, text: &str) -> Option<V>
    ensures value { result ≡ value_at text_order (entries map.old) text.now }
    ensures rest { entries map.new ≡ cut text_order (entries map.old) text.now }
{
    map.remove(text)
}

/// Looks a slice up among lists of items.
pub fn get_items<'a, T: Ord, V>(map: &'a BTreeMap<Vec<T>, V>, items: &[T]) -> Option<&'a V>
    ensures { now_value result ≡ value_at (items_order T.cmp) (entries map.now) items.now }
{
    map.get(items)
}

/// Puts a value at a key, and looks up what the key is equal to: the value stands there.
pub fn insert_then_get_equal<K: Ord + Drop, V: Copy + Drop, Q: Query<K>>(
    map: &mut BTreeMap<K, V>,
    key: K,
    value: V,
    query: Q,
) -> Result<Option<V>, TryReserveError>
    requires { Q.order key (Q.sought query) ≡ Equal }
    ensures { IfOk result (λ found. found ≡ Some value) }
{
    map.try_insert(key, value)?;
    Ok(map.get(query).copied())
}

/// Puts a value at a key, and looks up what the key is not equal to: what stood there stands there still.
pub fn insert_then_get_unequal<K: Ord + Drop, V: Copy + Drop, Q: Query<K>>(
    map: &mut BTreeMap<K, V>,
    key: K,
    value: V,
    query: Q,
) -> Result<Option<V>, TryReserveError>
    requires { ¬ (Q.order key (Q.sought query) ≡ Equal) }
    ensures { IfOk result (λ found. found ≡ value_at Q.order (entries map.old) (Q.sought query)) }
{
    map.try_insert(key, value)?;
    Ok(map.get(query).copied())
}

/// Takes out what is sought, and looks it up: nothing stands there.
#[tactic(auto, using(fc_base::proofs::Laws::at_cut))]
pub fn remove_then_get_text<V: Copy + Drop>(map: &mut BTreeMap<String, V>, text: &str) -> Option<V>
    ensures { result ≡ None }
{
    map.remove(text);
    map.get(text).copied()
}

/// Puts a value at a string, and looks its text up: the value stands there.
pub fn insert_then_get_text<V: Copy + Drop>(
    map: &mut BTreeMap<String, V>,
    key: String,
    value: V,
    text: &str,
) -> Result<Option<V>, TryReserveError>
    requires { text.now ≡ string_bytes key }
    ensures { IfOk result (λ found. found ≡ Some value) }
{
    insert_then_get_equal(map, key, value, text)
}

/// Looks up what a key is equal to: the answer and its cost are those of the key.
pub fn get_equal<'a, K: Ord, V, Q: Query<K>>(
    map: &'a BTreeMap<K, V>,
    query: Q,
    key: &K,
    count: &mut Count,
) -> Option<&'a V>
    requires { Q.order key.now (Q.sought query) ≡ Equal }
    ensures value { now_value result ≡ value_at K.cmp (entries map.now) key.now }
    ensures comparisons { count.new.comparisons ≡ count.old.comparisons + passed_in K.cmp key.now map.now }
{
    map.get_counted(query, count)
}

/// Writes a value at what a key is equal to: it is put at that key.
pub fn set_equal<K: Ord, V: Drop, Q: Query<K>>(
    map: &mut BTreeMap<K, V>,
    query: Q,
    key: &K,
    value: V,
)
    requires { Q.order key.now (Q.sought query) ≡ Equal }
    ensures there { IsSome (at K.cmp (entries map.old) key.now) → entries map.new ≡ put K.cmp (entries map.old) key.now value }
    ensures absent { at K.cmp (entries map.old) key.now ≡ None → map.new ≡ map.old }
{
    if let Some(held) = map.get_mut(query) {
        *held = value;
    }
}

/// Takes out what a key is equal to: what a removal of that key takes out.
pub fn remove_equal<K: Ord + Drop, V: Drop, Q: Query<K>>(
    map: &mut BTreeMap<K, V>,
    query: Q,
    key: &K,
) -> Option<V>
    requires { Q.order key.now (Q.sought query) ≡ Equal }
    ensures value { result ≡ value_at K.cmp (entries map.old) key.now }
    ensures rest { entries map.new ≡ cut K.cmp (entries map.old) key.now }
{
    map.remove(query)
}
