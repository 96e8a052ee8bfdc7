//! Keys and values that own memory, by the calls that take them or give them up: the sweep refuses each request of these tests in turn, and finds no block that
//! was not given back.
use fc_base::{TryClone, TryReserveError};
use fc_hash::TryHashMap;
use fc_vec::{TryCollect, TryVec};
use std::alloc::Global;
use std::test::Fail;
use test_values::is_ample;

type Map = TryHashMap<Box<u64>, Box<u64>>;

type Pairs = TryVec<(Box<u64>, Box<u64>)>;

// A number and another one, each in a box.
fn pair(alloc: Global, number: u64, value: u64) -> Result<(Box<u64>, Box<u64>), TryReserveError> {
    let key = Box::new(alloc, number)?;
    Ok((key, Box::new(alloc, value)?))
}

// Room for so many pairs, and each number from 0 on with ten times itself, but that the last number is 0 once more, with 7.
fn pairs(alloc: Global, count: u64) -> Result<Pairs, TryReserveError> {
    let mut made = TryVec::with_capacity(alloc, count as usize)?;
    for number in 0..count {
        let next = if number.wrapping_add(1) == count {
            pair(alloc, 0, 7)?
        } else {
            pair(alloc, number, number.wrapping_mul(10))?
        };
        made.push(next)?;
    }
    Ok(made)
}

// Once more where they are refused.
fn pairs_at_last(alloc: Global, count: u64) -> Result<Pairs, TryReserveError> {
    match pairs(alloc, count) {
        Ok(made) => Ok(made),
        Err(_refused) => pairs(alloc, count),
    }
}

fn extend(map: &mut Map, items: Pairs) -> Result<(), TryReserveError> {
    map.try_extend(items)
}

// The value at the number, looked up by a key that is made for it; None where there is none, or no memory for the key.
fn value_at(alloc: Global, map: &Map, number: u64) -> Option<u64> {
    let Ok(key) = Box::new(alloc, number) else {
        return None;
    };
    map.get(&key).map(|value| **value)
}

// Eleven pairs and one at a key that is there: the map grows twice, for which std asks four times each. Where it is refused, the pairs before it stay, none or
// nine, and the others are dropped with the iterator.
#[test]
fn a_refused_extension_drops_what_is_to_come(rt: HostRuntime) -> Result<(), Fail> {
    let Ok(items) = pairs_at_last(rt.alloc(), 12) else {
        assert!(rt; !is_ample(rt.alloc()));
        return Ok(());
    };
    let mut map = TryHashMap::default(rt.alloc());
    let is_whole = extend(&mut map, items).is_ok();
    if is_whole {
        assert!(rt; map.len() == 11);
    } else {
        println!(rt; "refused")?;
        assert!(rt; map.len() == 0 || map.len() == 9);
    }
    Ok(())
}

fn collected(items: Pairs, alloc: Global) -> Result<Map, TryReserveError> {
    TryCollect::try_collect(items, alloc)
}

fn copied(map: &Map) -> Result<Map, TryReserveError> {
    map.try_clone()
}

// Three pairs, of which the last has the key of the first: a map that asks four times, for two pairs; and its copy, which asks four times too, and for four
// boxes. One refused request is one refused call.
#[test]
fn a_refused_copy_drops_what_was_made(rt: HostRuntime) -> Result<(), Fail> {
    let Ok(items) = pairs_at_last(rt.alloc(), 3) else {
        assert!(rt; !is_ample(rt.alloc()));
        return Ok(());
    };
    let answer = collected(items, rt.alloc());
    let Ok(map) = answer else {
        println!(rt; "refused")?;
        return Ok(());
    };
    let answer = copied(&map);
    if answer.is_err() {
        println!(rt; "refused")?;
    }
    let is_right = match &answer {
        Ok(copy) => copy.len() == 2,
        Err(error) => matches!(error, TryReserveError::AllocError),
    };
    assert!(rt; is_right && map.len() == 2);
    Ok(())
}

fn keep_even(map: &mut Map) {
    map.retain(|key, _value| **key % 2 == 0);
}

fn replaced(
    alloc: Global,
    map: &mut Map,
    number: u64,
    value: u64,
) -> Result<Option<u64>, TryReserveError> {
    let (key, value) = pair(alloc, number, value)?;
    Ok(map.insert(key, value)?.map(|old| *old))
}

// What is taken out at the number by two removals.
fn removed_twice(
    alloc: Global,
    map: &mut Map,
    number: u64,
) -> Result<(Option<u64>, Option<u64>), TryReserveError> {
    let key = Box::new(alloc, number)?;
    let first = map.remove(&key).map(|old| *old);
    Ok((first, map.remove(&key).map(|old| *old)))
}

fn is_cleared(alloc: Global) -> Result<bool, TryReserveError> {
    let mut map = collected(pairs(alloc, 3)?, alloc)?;
    map.clear();
    Ok(map.is_empty())
}

// Each call that gives pairs up, or takes a value's place: no block is left.
#[test]
fn pairs_that_go_are_dropped(rt: HostRuntime) -> Result<(), Fail> {
    let mut map = collected(pairs(rt.alloc(), 12)?, rt.alloc())?;
    assert!(rt; map.len() == 11 && value_at(rt.alloc(), &map, 0) == Some(7));
    assert!(rt; replaced(rt.alloc(), &mut map, 3, 8)? == Some(30));
    assert!(rt; removed_twice(rt.alloc(), &mut map, 3)? == (Some(8), None));
    keep_even(&mut map);
    assert!(rt; map.len() == 6);
    let mut walk = map.into_iter();
    assert!(rt; walk.next().is_some());
    drop(walk);
    assert!(rt; is_cleared(rt.alloc())?);
    Ok(())
}
