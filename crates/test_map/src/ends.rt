//! The pairs at the ends of a map as entries, pairs taken out by a query, and maps taken apart into their keys and values.
use crate::map::{Drops, Tracked, no_drops, pair, take_all_memory, were_dropped};
use crate::numbers::{Numbers, has, is_number, multiples};
use crate::sizes::CAPACITY;
use fc_base::TryReserveError;
use fc_map::map::BTreeMap;
use std::alloc::Global;
use std::test::Fail;
use test_values::is_ample;

// Takes the first pairs out up to the number, each by its entry, which shows it first, and answers how many.
fn taken_up_to(map: &mut Numbers, number: u64) -> u64 {
    let mut count = 0u64;
    for _ in 0..map.len() {
        let Some(entry) = map.first_entry() else {
            return count;
        };
        if *entry.key() > number {
            return count;
        }
        let (key, value) = entry.remove_entry();
        if value != key.wrapping_mul(3) {
            return count;
        }
        count = count.wrapping_add(1);
    }
    count
}

// The same from the back, down to the number.
fn taken_down_to(map: &mut Numbers, number: u64) -> u64 {
    let mut count = 0u64;
    for _ in 0..map.len() {
        let Some(entry) = map.last_entry() else {
            return count;
        };
        if *entry.key() < number {
            return count;
        }
        if entry.remove() % 3 != 0 {
            return count;
        }
        count = count.wrapping_add(1);
    }
    count
}

fn write_ends(map: &mut Numbers, first: u64, last: u64) -> bool {
    match map.first_entry() {
        Some(mut entry) => {
            *entry.get_mut() = first;
        }
        None => return false,
    }
    match map.last_entry() {
        Some(entry) => {
            *entry.into_mut() = last;
            true
        }
        None => false,
    }
}

// A map of these many numbers from 0 on, on one to three levels, is written at both ends and then emptied from both.
fn is_emptied_from_its_ends(alloc: Global, end: u64) -> Result<bool, TryReserveError> {
    let mut map = multiples(alloc, 0, end, 3)?;
    let last = end.wrapping_sub(1);
    let middle = end / 2;
    if !write_ends(&mut map, 0, last.wrapping_mul(3)) {
        return Ok(false);
    }
    let front = taken_up_to(&mut map, middle);
    let is_left = map.len() as u64 == last.wrapping_sub(middle);
    let back = taken_down_to(&mut map, middle);
    Ok(
        is_left
            && front == middle.wrapping_add(1)
            && back == last.wrapping_sub(middle)
            && map.first_entry().is_none()
            && map.last_entry().is_none(),
    )
}

fn ends_hold_written_values(alloc: Global) -> Result<bool, TryReserveError> {
    let mut map = multiples(alloc, 1, 301, 3)?;
    Ok(write_ends(&mut map, 5, 7) && has(&map, 1, 5) && has(&map, 300, 7) && has(&map, 2, 6))
}

#[test]
fn entries_at_both_ends_are_shown_written_and_taken(rt: HostRuntime) -> Result<(), Fail> {
    for end in [1, 2, 15, 16, 300] {
        assert!(rt; is_emptied_from_its_ends(rt.alloc(), end)?);
    }
    assert!(rt; ends_hold_written_values(rt.alloc())?);
    Ok(())
}

// Without any memory the ends of a map are written and taken.
fn are_taken_without_memory(alloc: Global, map: &mut Numbers) -> Result<bool, TryReserveError> {
    let held = take_all_memory(alloc)?;
    let is_right = !is_ample(alloc)
        && write_ends(map, 0, 897)
        && taken_up_to(map, 199) == 200
        && taken_down_to(map, 200) == 100;
    drop(held);
    Ok(is_right)
}

#[test]
fn entries_at_the_ends_take_no_memory_not_in_a_trial(rt: HostRuntime) -> Result<(), Fail> {
    let mut map = multiples(rt.alloc(), 0, 300, 3)?;
    assert!(rt; are_taken_without_memory(rt.alloc(), &mut map)? && map.is_empty());
    Ok(())
}

// Each even number is taken out with its own key, and an absent one is not.
fn is_thinned_out(map: &mut Numbers, end: u64) -> bool {
    for number in 0..end {
        let wanted = number % 2 == 0;
        let taken = match map.remove_entry(&number) {
            Some((key, value)) => key == number && value == number.wrapping_mul(3),
            None => false,
        };
        if !taken || map.remove_entry(&number).is_some() {
            return false;
        }
        if !wanted && map.try_insert(number, number.wrapping_mul(3)).is_err() {
            return false;
        }
    }
    map.len() as u64 == end / 2
}

#[test]
fn a_pair_is_taken_out_with_its_key(rt: HostRuntime) -> Result<(), Fail> {
    let mut map = multiples(rt.alloc(), 0, 300, 3)?;
    assert!(rt; is_thinned_out(&mut map, 300));
    Ok(())
}

// A value made of the key, once, where none is there.
fn is_made_of_its_key(map: &mut Numbers) -> Result<bool, TryReserveError> {
    let made = *map.try_entry(20)?.or_try_insert_with_key(|key| key / 2)?;
    let kept = *map.try_entry(20)?.or_try_insert_with_key(|key| key / 4)?;
    Ok(made == 10 && kept == 10 && has(map, 20, 10))
}

#[test]
fn a_value_is_made_of_its_key(rt: HostRuntime) -> Result<(), Fail> {
    let mut map = multiples(rt.alloc(), 0, 15, 3)?;
    assert!(rt; is_made_of_its_key(&mut map)?);
    Ok(())
}

// A value that is made of its key is put into a full leaf, or comes back with the key and leaves the map. Where there is no memory for the map nothing is shown.
fn is_made_or_comes_back(alloc: Global) -> Result<bool, TryReserveError> {
    let last = CAPACITY as u64;
    let Ok(mut map) = multiples(alloc, 0, last, 3) else {
        return Ok(!is_ample(alloc));
    };
    let made = map
        .try_entry(last)?
        .or_try_insert_with_key(|key| key.wrapping_mul(3));
    let (is_right, length) = match made {
        Ok(value) => (*value == last.wrapping_mul(3), CAPACITY + 1),
        Err((key, value, _refused)) => (key == last && value == last.wrapping_mul(3), CAPACITY),
    };
    Ok(is_right && map.len() == length && has(&map, 0, 0) && has(&map, 14, 42))
}

// Each request is refused in turn by the sweep.
#[test]
fn a_refused_value_of_its_key_comes_back(rt: HostRuntime) -> Result<(), Fail> {
    assert!(rt; is_made_or_comes_back(rt.alloc())?);
    Ok(())
}

fn gives_keys(map: Numbers, end: u64) -> bool {
    let mut keys = map.into_keys();
    let is_long = keys.len() as u64 == end && keys.size_hint().0 as u64 == end;
    let ends = is_number(keys.next(), 0) && is_number(keys.next_back(), end.wrapping_sub(1));
    let mut wanted = 1u64;
    for key in keys {
        if key != wanted {
            return false;
        }
        wanted = wanted.wrapping_add(1);
    }
    is_long && ends && wanted == end.wrapping_sub(1)
}

fn gives_values(map: Numbers, end: u64) -> bool {
    let mut values = map.into_values();
    let is_long = values.len() as u64 == end && values.size_hint().0 as u64 == end;
    let last = end.wrapping_sub(1).wrapping_mul(3);
    let ends = is_number(values.next(), 0) && is_number(values.next_back(), last);
    let mut wanted = 3u64;
    for value in values {
        if value != wanted {
            return false;
        }
        wanted = wanted.wrapping_add(3);
    }
    is_long && ends && wanted == last
}

#[test]
fn keys_and_values_are_given_by_value_from_both_ends(rt: HostRuntime) -> Result<(), Fail> {
    assert!(rt; gives_keys(multiples(rt.alloc(), 0, 300, 3)?, 300));
    assert!(rt; gives_values(multiples(rt.alloc(), 0, 300, 3)?, 300));
    Ok(())
}

fn tracked<'a>(alloc: Global, end: u64, drops: &'a Drops) -> Result<Tracked<'a>, TryReserveError> {
    let mut map = BTreeMap::new(alloc);
    for number in 0..end {
        let (key, value) = pair(number, drops);
        map.try_insert(key, value)?;
    }
    Ok(map)
}

// What a walk over the keys gives is dropped with its value once, and so is what it leaves.
fn each_is_dropped_once(alloc: Global, drops: &Drops) -> Result<bool, TryReserveError> {
    let mut keys = tracked(alloc, 20, drops)?.into_keys();
    drop(keys.next());
    drop(keys.next_back());
    let is_two = were_dropped(drops, 2, 2);
    drop(keys);
    let mut values = tracked(alloc, 20, drops)?.into_values();
    drop(values.next());
    let is_one = were_dropped(drops, 21, 21);
    drop(values);
    Ok(is_two && is_one && were_dropped(drops, 40, 40))
}

#[test]
fn each_pair_of_a_map_taken_apart_is_dropped_once(rt: HostRuntime) -> Result<(), Fail> {
    let drops = no_drops();
    assert!(rt; each_is_dropped_once(rt.alloc(), &drops)?);
    Ok(())
}
