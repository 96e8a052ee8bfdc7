//! The calls on one key, walks, copies, and many calls beside std's map.
use fc_base::{TryClone, TryReserveError};
use fc_hash::TryHashMap;
use std::alloc::Global;
use std::collections::HashMap;
use std::test::Fail;
use test_values::{Tagged, is_ample};

fn lettered(letter: char) -> Tagged {
    Tagged::new(1, letter)
}

// The numbers below `end`, each with ten times itself, once more where one is refused.
fn tens(alloc: Global, end: u64) -> Result<TryHashMap<u64, u64>, TryReserveError> {
    let mut map = TryHashMap::default(alloc);
    for key in 0..end {
        if map.insert(key, key.wrapping_mul(10)).is_err() {
            map.insert(key, key.wrapping_mul(10))?;
        }
    }
    Ok(map)
}

// The map holds the numbers below `end`, each with ten times itself, and nothing else.
fn holds_tens(map: &TryHashMap<u64, u64>, end: u64) -> bool {
    for key in 0..end {
        if map.get(&key).copied() != Some(key.wrapping_mul(10)) {
            return false;
        }
    }
    map.len() as u64 == end && map.get(&end).is_none()
}

#[test]
fn the_calls_on_one_key(rt: HostRuntime) -> Result<(), Fail> {
    let mut map: TryHashMap<u64, u64> = TryHashMap::default(rt.alloc());
    assert!(rt; map.len() == 0 && map.get(&1).is_none() && map.remove(&1).is_none());
    assert!(rt; map.insert(1, 10)?.is_none());
    assert!(rt; map.insert(1, 11)? == Some(10));
    assert!(rt; map.len() == 1);
    assert!(rt; map.remove(&1) == Some(11));
    assert!(rt; map.get(&1).is_none() && map.len() == 0);
    Ok(())
}

// Once more where it is refused.
fn room_for_three(alloc: Global) -> Result<TryHashMap<u64, u64>, TryReserveError> {
    match TryHashMap::with_capacity(alloc, 3) {
        Ok(map) => Ok(map),
        Err(_refused) => TryHashMap::with_capacity(alloc, 3),
    }
}

// Room for three: three insertions are Ok, and so is another value at each of their keys, whatever room is left. The sweep refuses the requests in turn.
#[test]
fn room_is_for_so_many_insertions(rt: HostRuntime) {
    let Ok(mut map) = room_for_three(rt.alloc()) else {
        assert!(rt; !is_ample(rt.alloc()));
        return;
    };
    for key in 0..3u64 {
        assert!(rt; matches!(map.insert(key, 1u64), Ok(None)));
    }
    for key in 0..3u64 {
        assert!(rt; matches!(map.insert(key, 2), Ok(Some(1))));
    }
    assert!(rt; map.len() == 3);
}

// No request is made: the sweep counts them.
#[test]
fn a_new_map_takes_no_memory(rt: HostRuntime) {
    let mut map: TryHashMap<u64, u64> = TryHashMap::default(rt.alloc());
    assert!(rt; map.len() == 0 && map.get(&1).is_none() && map.remove(&1).is_none());
}

#[test]
fn an_equal_key_stays(rt: HostRuntime) -> Result<(), Fail> {
    let mut map = TryHashMap::default(rt.alloc());
    assert!(rt; map.insert(lettered('x'), 1u64)?.is_none());
    assert!(rt; map.insert(lettered('y'), 2)? == Some(1));
    for (key, value) in map.iter() {
        assert!(rt; key.letter == 'x' && *value == 2);
    }
    assert!(rt; map.len() == 1 && map.get(&lettered('z')).copied() == Some(2));
    Ok(())
}

#[test]
fn room_that_cannot_be_had(rt: HostRuntime) {
    for capacity in [usize::MAX, usize::MAX / 4] {
        let made: Result<TryHashMap<u64, u64>, TryReserveError> = TryHashMap::with_capacity(
            rt.alloc(),
            capacity,
        );
        assert!(rt; matches!(made, Err(TryReserveError::AllocError)));
    }
}

// A walk gives each pair once, so the keys and the values add up.
#[test]
fn a_walk_gives_each_pair_once(rt: HostRuntime) -> Result<(), Fail> {
    let map = tens(rt.alloc(), 100)?;
    let mut keys = 0u64;
    let mut count = 0u64;
    for (key, value) in map.iter() {
        assert!(rt; *value == key.wrapping_mul(10));
        keys = keys.wrapping_add(*key);
        count = count.wrapping_add(1);
    }
    assert!(rt; keys == 4950 && count == 100);
    let mut values = 0u64;
    for (_, value) in map {
        values = values.wrapping_add(value);
    }
    assert!(rt; values == 49500);
    Ok(())
}

fn copy_holds_tens(map: &TryHashMap<u64, u64>, end: u64) -> Result<bool, TryReserveError> {
    let copy = map.try_clone()?;
    Ok(holds_tens(&copy, end))
}

fn is_copied_with_ten(map: &TryHashMap<u64, u64>) -> Result<bool, TryReserveError> {
    let one = map.try_clone()?;
    Ok(one.len() == 1 && one.get(&1).copied() == Some(10))
}

#[test]
fn a_copy_has_the_same_pairs(rt: HostRuntime) -> Result<(), Fail> {
    assert!(rt; copy_holds_tens(&TryHashMap::default(rt.alloc()), 0)?);
    let mut map = TryHashMap::default(rt.alloc());
    map.insert(1u64, 10u64)?;
    assert!(rt; is_copied_with_ten(&map)?);
    assert!(rt; copy_holds_tens(&tens(rt.alloc(), 100)?, 100)?);
    Ok(())
}

// The sweep refuses the requests in turn.
#[test]
fn a_refused_insertion_changes_nothing(rt: HostRuntime) {
    let mut map: TryHashMap<u64, u64> = TryHashMap::default(rt.alloc());
    match map.insert(1, 1) {
        Ok(old) => assert!(rt; old.is_none() && map.len() == 1),
        Err(error) => {
            assert!(rt; matches!(error, TryReserveError::AllocError));
            assert!(rt; map.len() == 0 && map.get(&1).is_none());
            return;
        }
    }
    assert!(rt; map.remove(&1) == Some(1));
    for key in 0..40u64 {
        if map.insert(key, key.wrapping_mul(10)).is_err() {
            assert!(rt; holds_tens(&map, key));
            return;
        }
    }
    match map.insert(7, 1) {
        Ok(old) => assert!(rt; old == Some(70)),
        Err(_) => assert!(rt; holds_tens(&map, 40)),
    }
}

// The sweep refuses the requests in turn.
#[test]
fn a_refused_copy_leaves_its_source(rt: HostRuntime) {
    let Ok(map) = tens(rt.alloc(), 20) else {
        assert!(rt; !is_ample(rt.alloc()));
        return;
    };
    match map.try_clone() {
        Ok(copy) => assert!(rt; holds_tens(&copy, 20)),
        Err(error) => assert!(rt; matches!(error, TryReserveError::AllocError)),
    }
    assert!(rt; holds_tens(&map, 20));
}

// One call on both maps, chosen by the number, and whether both answer the same.
fn agree(
    ours: &mut TryHashMap<u64, u64>,
    theirs: &mut HashMap<u64, u64>,
    chosen: u64,
) -> Result<bool, TryReserveError> {
    let key = (chosen >> 20) % 512;
    match (chosen >> 40) % 3 {
        0 => Ok(ours.insert(key, chosen)? == theirs.insert(key, chosen)?),
        1 => Ok(ours.remove(&key) == theirs.remove(&key)),
        _ => Ok(ours.get(&key).copied() == theirs.get(&key).copied() && ours.len() == theirs.len()),
    }
}

#[test]
fn many_calls_agree_with_std(rt: HostRuntime) -> Result<(), Fail> {
    let mut ours = TryHashMap::default(rt.alloc());
    let mut theirs = HashMap::new(rt.alloc());
    let mut chosen = 1u64;
    for _ in 0..100000u32 {
        chosen = chosen
            .wrapping_mul(6364136223846793005)
            .wrapping_add(1442695040888963407);
        assert!(rt; agree(&mut ours, &mut theirs, chosen)?);
    }
    Ok(())
}
