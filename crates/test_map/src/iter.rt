//! Walks in loops and through adapters.
use crate::numbers::{Numbers, multiples};
use fc_map::map::{Iter, Keys, Values};
use std::alloc::{AllocError, Global};
use std::test::Fail;

// The sum of all keys and values, by a loop over the map itself.
fn sum_of_numbers(map: &Numbers) -> u64 {
    let mut sum = 0u64;
    for (key, value) in map {
        sum = sum.wrapping_add(*key).wrapping_add(*value);
    }
    sum
}

// Whether a reversed loop takes the pairs from 100 down to 1.
fn counts_down(map: &Numbers) -> bool {
    let mut expected = 100u64;
    for (key, value) in map.iter().rev() {
        if *key != expected || *value != expected.wrapping_mul(10) {
            return false;
        }
        expected = expected.wrapping_sub(1);
    }
    expected == 0
}

// Whether two walks that are zipped show the same values, tenfold of the keys.
fn zips_alike(map: &Numbers) -> bool {
    for ((key, value), (_key, same)) in map.iter().zip(map.iter()) {
        if *value != *same || key.wrapping_mul(10) != *value {
            return false;
        }
    }
    true
}

// Whether there are a hundred keys, from 1 up, and as many values, from 1000 down.
fn are_keys_and_values(keys: &[u64], values: &[u64]) -> bool {
    if keys.len() != 100 || values.len() != 100 {
        return false;
    }
    for i in 0..100usize {
        let number = i as u64 + 1;
        if keys[i] != number || values[i] != (101 - number) * 10 {
            return false;
        }
    }
    true
}

// Whether the keys from the first and the values from the last are collected.
fn are_collected(alloc: Global, map: &Numbers) -> Result<bool, AllocError> {
    let keys: Vec<u64> = map.keys().copied().collect(alloc)?;
    let values: Vec<u64> = map.values().rev().copied().collect(alloc)?;
    Ok(are_keys_and_values(&keys, &values))
}

fn gives_keys(
    alloc: Global,
    pairs: Iter<'_, u64, u64>,
    wanted: &[u64],
) -> Result<bool, AllocError> {
    let keys: Vec<u64> = Keys::of(pairs).copied().collect(alloc)?;
    Ok(keys.as_slice() == wanted)
}

fn gives_values(
    alloc: Global,
    pairs: Iter<'_, u64, u64>,
    wanted: &[u64],
) -> Result<bool, AllocError> {
    let values: Vec<u64> = Values::of(pairs).copied().collect(alloc)?;
    Ok(values.as_slice() == wanted)
}

// Walks over keys and over values that are made of one over the pairs give what is left of it, and leave it as it is.
#[test]
fn keys_and_values_of_a_walk(rt: HostRuntime) -> Result<(), Fail> {
    let map = multiples(rt.alloc(), 1, 4, 10)?;
    let mut pairs = map.iter();
    assert!(rt; pairs.next().is_some());
    let are_keys = gives_keys(rt.alloc(), pairs.clone()?, &[2, 3])?;
    assert!(rt; are_keys && gives_values(rt.alloc(), pairs, &[20, 30])?);
    Ok(())
}

#[test]
fn loops_and_adapters(rt: HostRuntime) -> Result<(), Fail> {
    let map = multiples(rt.alloc(), 1, 101, 10)?;
    assert!(rt; sum_of_numbers(&map) == 55550 && counts_down(&map) && zips_alike(&map));
    assert!(rt; are_collected(rt.alloc(), &map)?);
    Ok(())
}
