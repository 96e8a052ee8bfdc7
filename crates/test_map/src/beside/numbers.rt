//! Entries next to a number, against the numbers that a map has: multiples of three.
use fc_base::TryReserveError;
use fc_map::map::BTreeMap;
use std::alloc::Global;
use std::test::Fail;

type Numbers = BTreeMap<u64, u64>;

// The first so many multiples of three from 3 on, each with itself.
fn threes(alloc: Global, count: u64) -> Result<Numbers, TryReserveError> {
    let mut map = BTreeMap::new(alloc);
    for place in 0..count {
        let number = place.wrapping_add(1).wrapping_mul(3);
        map.try_insert(number, number)?;
    }
    Ok(map)
}

// The multiple of three, if the map has it: 0 else.
fn among(number: u64, count: u64) -> u64 {
    if number > count.wrapping_mul(3) {
        0
    } else {
        number
    }
}

// The greatest multiple of three that is not greater than either number.
fn down_to(number: u64, count: u64) -> u64 {
    let least = if number < count.wrapping_mul(3) {
        number
    } else {
        count.wrapping_mul(3)
    };
    least.wrapping_sub(least % 3)
}

// The keys next to a number: not below it, above it, not above it, below it. A number is 1 at least.
fn wanted(number: u64, count: u64) -> [u64; 4] {
    let up = number.wrapping_add(2);
    let above = number.wrapping_add(3);
    [
        among(up.wrapping_sub(up % 3), count),
        among(above.wrapping_sub(above % 3), count),
        down_to(number, count),
        down_to(number.wrapping_sub(1), count),
    ]
}

fn key_from(map: &mut Numbers, number: u64) -> u64 {
    match map.first_entry_at_or_after(&number) {
        Some(entry) => *entry.key(),
        None => 0,
    }
}

fn write_from(map: &mut Numbers, number: u64) {
    if let Some(mut entry) = map.first_entry_at_or_after(&number) {
        let value = entry.get_mut();
        *value = value.wrapping_add(1000);
    }
}

fn take_from(map: &mut Numbers, number: u64) -> u64 {
    match map.first_entry_at_or_after(&number) {
        Some(entry) => entry.remove_entry().0,
        None => 0,
    }
}

fn key_after(map: &mut Numbers, number: u64) -> u64 {
    match map.first_entry_after(&number) {
        Some(entry) => *entry.key(),
        None => 0,
    }
}

fn write_after(map: &mut Numbers, number: u64) {
    if let Some(mut entry) = map.first_entry_after(&number) {
        let value = entry.get_mut();
        *value = value.wrapping_add(1000);
    }
}

fn take_after(map: &mut Numbers, number: u64) -> u64 {
    match map.first_entry_after(&number) {
        Some(entry) => entry.remove_entry().0,
        None => 0,
    }
}

fn key_to(map: &mut Numbers, number: u64) -> u64 {
    match map.last_entry_at_or_before(&number) {
        Some(entry) => *entry.key(),
        None => 0,
    }
}

fn write_to(map: &mut Numbers, number: u64) {
    if let Some(mut entry) = map.last_entry_at_or_before(&number) {
        let value = entry.get_mut();
        *value = value.wrapping_add(1000);
    }
}

fn take_to(map: &mut Numbers, number: u64) -> u64 {
    match map.last_entry_at_or_before(&number) {
        Some(entry) => entry.remove_entry().0,
        None => 0,
    }
}

fn key_before_it(map: &mut Numbers, number: u64) -> u64 {
    match map.last_entry_before(&number) {
        Some(entry) => *entry.key(),
        None => 0,
    }
}

fn write_before_it(map: &mut Numbers, number: u64) {
    if let Some(mut entry) = map.last_entry_before(&number) {
        let value = entry.get_mut();
        *value = value.wrapping_add(1000);
    }
}

fn take_before_it(map: &mut Numbers, number: u64) -> u64 {
    match map.last_entry_before(&number) {
        Some(entry) => entry.remove_entry().0,
        None => 0,
    }
}

// Whether each call finds what stands next to each number up to after the last key.
fn are_found(alloc: Global, count: u64) -> Result<bool, TryReserveError> {
    let mut map = threes(alloc, count)?;
    for number in 1..count.wrapping_mul(3).wrapping_add(5) {
        let found = [
            key_from(&mut map, number),
            key_after(&mut map, number),
            key_to(&mut map, number),
            key_before_it(&mut map, number),
        ];
        if found != wanted(number, count) {
            return Ok(false);
        }
    }
    Ok(true)
}

// Whether each call's writing comes to the value of the pair that it finds, and to no other.
fn are_written(alloc: Global, count: u64, number: u64) -> Result<bool, TryReserveError> {
    let mut map = threes(alloc, count)?;
    let keys = wanted(number, count);
    write_from(&mut map, number);
    write_after(&mut map, number);
    write_to(&mut map, number);
    write_before_it(&mut map, number);
    for (key, value) in &map {
        let mut times = 0u64;
        for i in 0..4 {
            if keys[i] == *key {
                times = times.wrapping_add(1000);
            }
        }
        if *value != key.wrapping_add(times) {
            return Ok(false);
        }
    }
    Ok(true)
}

// Takes out what a call finds next to the number, the calls in the order of `wanted`.
fn take_beside(map: &mut Numbers, number: u64, call: usize) -> u64 {
    match call {
        0 => take_from(map, number),
        1 => take_after(map, number),
        2 => take_to(map, number),
        _ => take_before_it(map, number),
    }
}

// Whether the call takes out the pair of this key, and all others stay.
fn is_taken(
    alloc: Global,
    count: u64,
    number: u64,
    call: usize,
    key: u64,
) -> Result<bool, TryReserveError> {
    let mut map = threes(alloc, count)?;
    Ok(take_beside(&mut map, number, call) == key && is_without(&map, count, key))
}

// Whether each call takes out its pair, of a map of its own.
fn are_taken(alloc: Global, count: u64, number: u64) -> Result<bool, TryReserveError> {
    let keys = wanted(number, count);
    for call in 0..4 {
        if !is_taken(alloc, count, number, call, keys[call])? {
            return Ok(false);
        }
    }
    Ok(true)
}

// Whether the map has all of its numbers but one, or all where that is 0.
fn is_without(map: &Numbers, count: u64, gone: u64) -> bool {
    let rest = if gone == 0 {
        count
    } else {
        count.wrapping_sub(1)
    };
    !map.contains_key(&gone) && map.len() as u64 == rest
}

#[test]
fn entries_beside_each_number_are_found(rt: HostRuntime) -> Result<(), Fail> {
    assert!(rt; are_found(rt.alloc(), 0)? && are_found(rt.alloc(), 1)?);
    assert!(rt; are_found(rt.alloc(), 15)? && are_found(rt.alloc(), 16)?);
    assert!(rt; are_found(rt.alloc(), 40)? && are_found(rt.alloc(), 300)?);
    Ok(())
}

#[test]
fn entries_beside_a_number_are_written(rt: HostRuntime) -> Result<(), Fail> {
    for number in 1..130u64 {
        assert!(rt; are_written(rt.alloc(), 40, number)?);
    }
    Ok(())
}

#[test]
fn entries_beside_a_number_are_taken(rt: HostRuntime) -> Result<(), Fail> {
    for number in 1..130u64 {
        assert!(rt; are_taken(rt.alloc(), 40, number)?);
    }
    Ok(())
}
