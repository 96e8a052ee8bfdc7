//! The calls of std's map on a hashed map: entries, walks that write, texts for keys.
use fc_base::TryReserveError;
use fc_hash::TryHashMap;
use std::alloc::Global;
use std::collections::hash_map::Entry;
use std::process::Abort;
use std::test::Fail;

// How often each word comes.
fn tally(alloc: Global, words: &[u64]) -> Result<TryHashMap<u64, u64>, TryReserveError> {
    let mut counts = TryHashMap::new(alloc);
    for word in words {
        let count = counts.entry(*word)?.or_insert(0u64);
        *count = count.wrapping_add(1);
    }
    Ok(counts)
}

fn put(map: &mut TryHashMap<u64, u64>) -> Result<(), TryReserveError> {
    *map.entry(1)?.or_insert(0) = 3;
    Ok(())
}

fn are_counted(rt: &impl Abort, alloc: Global) -> Result<(), Fail> {
    let counts = tally(alloc, &[5, 6, 5, 5])?;
    assert!(rt; counts.len() == 2 && counts.get(&5).copied() == Some(3));
    assert!(rt; counts.get(&6).copied() == Some(1));
    Ok(())
}

#[test]
fn an_entry_puts_a_value(rt: HostRuntime) -> Result<(), Fail> {
    let mut map = TryHashMap::new(rt.alloc());
    put(&mut map)?;
    assert!(rt; map.len() == 1 && map.get(&1).copied() == Some(3));
    are_counted(&rt, rt.alloc())
}

#[test]
fn an_entry_is_taken_apart(rt: HostRuntime) -> Result<(), Fail> {
    let mut map = TryHashMap::new(rt.alloc());
    match map.entry(7u64)? {
        Entry::Occupied(_entry) => assert!(rt; false),
        Entry::Vacant(entry) => {
            assert!(rt; *entry.key() == 7);
            *entry.insert(70u64) = 71;
        }
    }
    match map.entry(7)? {
        Entry::Occupied(mut entry) => {
            assert!(rt; *entry.key() == 7 && *entry.get() == 71);
            *entry.get_mut() = 72;
            assert!(rt; entry.insert(73) == 72);
            assert!(rt; entry.remove_entry() == (7, 73));
        }
        Entry::Vacant(_entry) => assert!(rt; false),
    }
    map.entry(8)?.and_modify(|value| *value = 1).or_insert(80);
    *map.entry(8)?
        .and_modify(|value| *value = 81)
        .or_insert_with(|| 0) = 82;
    *map.entry(9)?.or_default() = 9;
    assert!(rt;
        map.len() == 2 && map.get(&8).copied() == Some(82) && map.get(&9).copied() == Some(9)
    );
    Ok(())
}

fn fill(map: &mut TryHashMap<u64, u64>) -> Result<(), TryReserveError> {
    for key in 0..10u64 {
        map.insert(key, 0u64)?;
    }
    Ok(())
}

fn write_doubles(map: &mut TryHashMap<u64, u64>) {
    for (key, value) in map.iter_mut() {
        *value = *key;
    }
    for value in map.values_mut() {
        *value = value.wrapping_mul(2);
    }
}

fn sum_of_keys(map: &TryHashMap<u64, u64>) -> u64 {
    let mut keys = 0u64;
    for key in map.keys() {
        keys = keys.wrapping_add(*key);
    }
    keys
}

fn sum_of_values(map: &TryHashMap<u64, u64>) -> u64 {
    let mut values = 0u64;
    for value in map.values() {
        values = values.wrapping_add(*value);
    }
    values
}

fn is_cloned(map: &TryHashMap<u64, u64>) -> Result<bool, Fail> {
    let clone = map.clone()?;
    Ok(clone == *map)
}

fn sum_of_cloned_values(map: &TryHashMap<u64, u64>) -> Result<u64, Fail> {
    let mut values = 0u64;
    for value in map.clone()?.into_values() {
        values = values.wrapping_add(value);
    }
    Ok(values)
}

fn sum_of_drained_keys(map: &mut TryHashMap<u64, u64>) -> u64 {
    let mut keys = 0u64;
    for (key, _value) in map.drain() {
        keys = keys.wrapping_add(key);
    }
    keys
}

// The pairs 0 .. 9, each with its double: the keys add up to 45.
#[test]
fn walks_of_std_read_and_write(rt: HostRuntime) -> Result<(), Fail> {
    let mut map = TryHashMap::new(rt.alloc());
    fill(&mut map)?;
    write_doubles(&mut map);
    assert!(rt; sum_of_keys(&map) == 45 && sum_of_values(&map) == 90);
    assert!(rt; map.remove_entry(&3) == Some((3, 6)));
    assert!(rt; map.capacity() >= 9);
    for (key, value) in map.extract_if(|key, _| *key == 4) {
        assert!(rt; key == 4 && value == 8);
    }
    map.shrink_to_fit();
    assert!(rt; map.len() == 8 && is_cloned(&map)?);
    assert!(rt; sum_of_cloned_values(&map)? == 76);
    assert!(rt; sum_of_drained_keys(&mut map) == 38 && map.is_empty());
    Ok(())
}

#[test]
fn keys_are_given_by_value(rt: HostRuntime) -> Result<(), Fail> {
    let mut map = TryHashMap::new(rt.alloc());
    map.insert(String::from_str(rt.alloc(), "one")?, 1u64)?;
    assert!(rt; (*map).get("one").copied() == Some(1) && (*map).get("two").is_none());
    assert!(rt; map.get_key_value("one").is_some());
    for key in map.into_keys() {
        assert!(rt; key.as_str() == "one");
    }
    Ok(())
}

// The sweep refuses the requests in turn: a refused entry hands its key back and leaves the pairs.
#[test]
fn a_refused_entry_hands_its_key_back(rt: HostRuntime) {
    let mut map: TryHashMap<u64, u64> = TryHashMap::new(rt.alloc());
    for key in 0..40u64 {
        match map.entry(key) {
            Ok(entry) => *entry.or_insert(0) = key,
            Err(refused) => {
                assert!(rt; refused.value == key);
                assert!(rt; map.len() as u64 == key && map.get(&key).is_none());
                return;
            }
        }
    }
    assert!(rt; map.len() == 40);
}
