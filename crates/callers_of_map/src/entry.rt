//! What callers prove of entries through their public clauses alone.
ghost use Rattle.std.specs.Prelude.{◌≡◌, ◌+◌, ◌<◌, true, false, unwrap_or, OnOk, OnErr, IfOk, IfSome, None, Some};
ghost use Rattle.std.specs.Option.{UnwrapsOrElse};
ghost use Rattle.fc_base.specs.OneKey.{put, cut};
ghost use Rattle.fc_base.specs.Parts.{at, value_at};
ghost use Rattle.fc_map.specs.Entries.{entries};

use fc_base::TryReserveError;
use fc_map::map::{BTreeMap, Entry};

/// Puts the second value at the key, by way of the first where the key is new.
pub fn put_by_match<K: Ord + Drop, V: Drop>(
    map: &mut BTreeMap<K, V>,
    key: K,
    first: V,
    second: V,
) -> Result<(), TryReserveError>
    ensures put { OnOk result (entries map.new ≡ put K.cmp (entries map.old) key second) }
    ensures unchanged { OnErr result (map.new ≡ map.old) }
{
    match map.try_entry(key)? {
        Entry::Vacant(entry) => {
            *entry.try_insert(first)? = second;
        }
        Entry::Occupied(entry) => {
            *entry.into_mut() = second;
        }
    }
    Ok(())
}

/// Counts a letter: one more where it was counted before, and else one.
pub fn count_letter<K: Ord + Drop>(
    map: &mut BTreeMap<K, u64>,
    letter: K,
) -> Result<(), TryReserveError>
    requires { unwrap_or (value_at K.cmp (entries map.old) letter) 0 < u64.MAX }
    ensures counted { OnOk result (entries map.new ≡ put K.cmp (entries map.old) letter (unwrap_or (value_at K.cmp (entries map.old) letter) 0 + 1)) }
    ensures unchanged { OnErr result (map.new ≡ map.old) }
{
    *map.try_entry(letter)?.or_try_insert(0)? += 1;
    Ok(())
}

/// The value at the key, made where there is none.
pub fn cached<K: Ord + Drop, F: FnOnce() -> u64>(
    map: &mut BTreeMap<K, u64>,
    key: K,
    make: F,
) -> Result<u64, TryReserveError>
    requires { F.IsAlwaysCallable make }
    ensures value { IfOk result (λ v. UnwrapsOrElse (value_at K.cmp (entries map.old) key) (F.post make) v) }
    ensures put { IfOk result (λ v. entries map.new ≡ put K.cmp (entries map.old) key v) }
    ensures unchanged { OnErr result (map.new ≡ map.old) }
{
    let value = map.try_entry(key)?.or_try_insert_with(make)?;
    Ok(*value)
}

/// Takes the pair at the key out, if there is one.
pub fn evict<K: Ord + Drop, V: Drop>(
    map: &mut BTreeMap<K, V>,
    key: K,
) -> Result<Option<(K, V)>, TryReserveError>
    ensures pair { IfOk result (λ pair. pair ≡ at K.cmp (entries map.old) key) }
    ensures rest { OnOk result (entries map.new ≡ cut K.cmp (entries map.old) key) }
{
    match map.try_entry(key)? {
        Entry::Vacant(entry) => {
            drop(entry.into_key());
            Ok(None)
        }
        Entry::Occupied(entry) => Ok(Some(entry.remove_entry())),
    }
}

/// Replaces the value at the key and then writes over it, if there is one.
pub fn write_twice<K: Ord + Drop, V: Drop>(
    map: &mut BTreeMap<K, V>,
    key: K,
    first: V,
    second: V,
) -> Result<bool, TryReserveError>
    ensures there { IfOk result (λ there. there ≡ true → entries map.new ≡ put K.cmp (entries map.old) key second) }
    ensures absent { IfOk result (λ there. there ≡ false → map.new ≡ map.old) }
{
    match map.try_entry(key)? {
        Entry::Vacant(_entry) => Ok(false),
        Entry::Occupied(mut entry) => {
            entry.insert(first);
            *entry.get_mut() = second;
            Ok(true)
        }
    }
}

/// A dropped entry leaves the map as it was.
pub fn has<K: Ord + Drop, V: Drop>(
    map: &mut BTreeMap<K, V>,
    key: K,
) -> Result<bool, TryReserveError>
    ensures { map.new ≡ map.old }
{
    match map.try_entry(key)? {
        Entry::Vacant(_entry) => Ok(false),
        Entry::Occupied(_entry) => Ok(true),
    }
}

/// An entry that is never matched leaves the map as it was.
pub fn look_up_alone<K: Ord + Drop, V: Drop>(
    map: &mut BTreeMap<K, V>,
    key: K,
) -> Result<(), TryReserveError>
    ensures { map.new ≡ map.old }
{
    let _entry = map.try_entry(key)?;
    Ok(())
}

/// Puts the pair in where the key is new, tells whether it was, and else leaves the map as it was.
pub fn put_if_new<K: Ord + Drop, V: Drop>(
    map: &mut BTreeMap<K, V>,
    key: K,
    value: V,
) -> Result<bool, TryReserveError>
    ensures new { IfOk result (λ new. new ≡ true → entries map.new ≡ put K.cmp (entries map.old) key value) }
    ensures there { IfOk result (λ new. new ≡ false → map.new ≡ map.old) }
    ensures unchanged { OnErr result (map.new ≡ map.old) }
{
    if let Entry::Vacant(entry) = map.try_entry(key)? {
        entry.try_insert(value)?;
        return Ok(true);
    }
    Ok(false)
}

/// Takes the value at the key out, if there is one, and else leaves the map as it was.
pub fn take_if_there<K: Ord + Drop, V: Drop>(
    map: &mut BTreeMap<K, V>,
    key: K,
) -> Result<Option<V>, TryReserveError>
    ensures taken { IfOk result (λ value. IfSome value (λ v. entries map.new ≡ cut K.cmp (entries map.old) key)) }
    ensures absent { IfOk result (λ value. value ≡ None → map.new ≡ map.old) }
    ensures unchanged { OnErr result (map.new ≡ map.old) }
{
    if let Entry::Occupied(entry) = map.try_entry(key)? {
        return Ok(Some(entry.remove()));
    }
    Ok(None)
}
