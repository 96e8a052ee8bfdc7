//! What callers prove of insertions that were made ready, through their public clauses alone.
ghost use Rattle.std.specs.Prelude.{◌≡◌, ◌+◌, ◌<◌, true, false, length, OnOk, OnErr, IfOk, IfErr, IfSome, None};
ghost use Rattle.fc_base.specs.Growth.{MayGrowRefuse};
ghost use Rattle.fc_base.specs.OneKey.{put};
ghost use Rattle.fc_base.specs.Parts.{at};
ghost use Rattle.fc_map.specs.Entries.{entries, passed_in};

use fc_base::{Count, TryReserveError};
use fc_map::map::{BTreeMap, Entry};

/// Puts the value at the key: where the key is new, by an insertion that was made ready, and then written over.
pub fn put_by_ready<K: Ord + Drop, V: Drop>(
    map: &mut BTreeMap<K, V>,
    key: K,
    first: V,
    second: V,
) -> Result<(), TryReserveError>
    ensures put { OnOk result (entries map.new ≡ put K.cmp (entries map.old) key second) }
    ensures unchanged { OnErr result (map.new ≡ map.old) }
{
    match map.try_entry(key)? {
        Entry::Vacant(entry) => {
            let Ok(value) = entry.try_ready()?.insert(first);
            *value = second;
        }
        Entry::Occupied(entry) => {
            *entry.into_mut() = second;
        }
    }
    Ok(())
}

/// The same by the entry of the pair that was put in.
pub fn put_by_ready_entry<K: Ord + Drop, V: Drop>(
    map: &mut BTreeMap<K, V>,
    key: K,
    first: V,
    second: V,
) -> Result<(), TryReserveError>
    ensures put { OnOk result (entries map.new ≡ put K.cmp (entries map.old) key second) }
    ensures unchanged { OnErr result (map.new ≡ map.old) }
{
    match map.try_entry(key)? {
        Entry::Vacant(entry) => {
            *entry.try_ready()?.insert_entry(first).into_mut() = second;
        }
        Entry::Occupied(entry) => {
            *entry.into_mut() = second;
        }
    }
    Ok(())
}

/// Puts the pair in where the key is new, and hands the key on where a request was refused. The value is made once nothing can be refused.
pub fn fill<K: Ord + Drop, V: Drop, F: FnOnce(&K) -> V>(
    map: &mut BTreeMap<K, V>,
    key: K,
    make: F,
) -> Result<bool, (K, TryReserveError)>
    requires { F.IsAlwaysCallable make }
    ensures unchanged { OnErr result (map.new ≡ map.old) }
    ensures there { IfOk result (λ new. new ≡ false → map.new ≡ map.old) }
    ensures back { IfErr result (λ e. e.0 ≡ key) }
    ensures error { IfErr result (λ e. MayGrowRefuse (length (entries map.old)) e.1) }
{
    match map.try_entry(key) {
        Ok(Entry::Vacant(entry)) => {
            let ready = entry.try_ready()?;
            let value = make(ready.key());
            let Ok(_value) = ready.insert(value);
            Ok(true)
        }
        Ok(Entry::Occupied(_entry)) => Ok(false),
        Err(_refused) => unreachable!(),
    }
}

/// An insertion that was made ready and then left alone leaves the map as it was.
pub fn make_ready_and_drop<K: Ord + Drop, V: Drop>(
    map: &mut BTreeMap<K, V>,
    key: K,
) -> Result<(), TryReserveError>
    ensures { map.new ≡ map.old }
{
    if let Entry::Vacant(entry) = map.try_entry(key)? {
        let _ready = entry.try_ready()?;
    }
    Ok(())
}

/// So does one that gives its key back.
pub fn make_ready_and_give_up<K: Ord + Drop, V: Drop>(
    map: &mut BTreeMap<K, V>,
    key: K,
) -> Result<Option<K>, TryReserveError>
    ensures unchanged { map.new ≡ map.old }
    ensures key { IfOk result (λ back. IfSome back (λ k. k ≡ key)) }
{
    match map.try_entry(key)? {
        Entry::Vacant(entry) => Ok(Some(entry.try_ready()?.into_key())),
        Entry::Occupied(_entry) => Ok(None),
    }
}

/// Comparisons and moves of an insertion in two halves: those of its search, and then its moves alone.
pub fn put_counted<K: Ord + Drop, V: Drop>(
    map: &mut BTreeMap<K, V>,
    key: K,
    value: V,
    count: &mut Count,
) -> Result<(), TryReserveError>
    requires { at K.cmp (entries map.old) key ≡ None }
    ensures put { OnOk result (entries map.new ≡ put K.cmp (entries map.old) key value) }
    ensures comparisons { count.new.comparisons ≡ count.old.comparisons + passed_in K.cmp key map.old }
    ensures moved { OnOk result (count.old.moves < count.new.moves) }
{
    match map.try_entry_counted(key, count)? {
        Entry::Vacant(entry) => {
            let Ok(_value) = entry.try_ready()?.insert_counted(value, count);
        }
        Entry::Occupied(_entry) => (),
    }
    Ok(())
}

/// Keeps each name with its number and each number with its name, in two maps that agree: where both keys are new both pairs are put in, by
/// two insertions that are made ready first, and else neither.
pub fn name_new_number<K: Ord + Copy + Drop, L: Ord + Copy + Drop>(
    numbers: &mut BTreeMap<K, L>,
    names: &mut BTreeMap<L, K>,
    name: K,
    number: L,
) -> Result<bool, TryReserveError>
    ensures both { IfOk result (λ new. new ≡ true → (entries numbers.new ≡ put K.cmp (entries numbers.old) name number) × (entries names.new ≡ put L.cmp (entries names.old) number name)) }
    ensures there { IfOk result (λ new. new ≡ false → (numbers.new ≡ numbers.old) × (names.new ≡ names.old)) }
    ensures neither { OnErr result ((numbers.new ≡ numbers.old) × (names.new ≡ names.old)) }
{
    let Entry::Vacant(by_name) = numbers.try_entry(name)? else {
        return Ok(false);
    };
    let by_name = by_name.try_ready()?;
    let Entry::Vacant(by_number) = names.try_entry(number)? else {
        return Ok(false);
    };
    let by_number = by_number.try_ready()?;
    // Nothing can be refused from here on.
    let Ok(_number) = by_name.insert(number);
    let Ok(_name) = by_number.insert(name);
    Ok(true)
}
