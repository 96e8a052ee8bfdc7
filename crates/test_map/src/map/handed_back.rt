//! What a refused insertion hands back: the key and the value that went in, a key with its letter.
use super::take_all_memory;
use crate::neighbours::tagged_below;
use crate::numbers::{Numbers, has, has_up_to, insert, multiples};
use crate::sizes::{BEYOND, CAPACITY};
use fc_base::{Count, TryReserveError};
use fc_map::map::{BTreeMap, Entry};
use std::alloc::Global;
use std::test::Fail;
use test_values::{Tagged, is_ample};

type TaggedMap = BTreeMap<Tagged, u64>;

fn after(letter: char) -> Tagged {
    Tagged::new(BEYOND, letter)
}

// Whether the number after a full leaf came back with this letter and this value, for want of memory.
fn is_back(back: (Tagged, u64, TryReserveError), letter: char, value: u64) -> bool {
    let (key, found, e) = back;
    key.is(BEYOND, letter) && found == value && matches!(e, TryReserveError::AllocError)
}

fn insertion_hands_back(map: &mut TaggedMap) -> bool {
    match map.try_insert(after('b'), 1) {
        Ok(_old) => false,
        Err(back) => is_back(back, 'b', 1),
    }
}

fn counted_insertion_hands_back(map: &mut TaggedMap) -> bool {
    match map.try_insert_counted(after('c'), 2, &mut Count::new()) {
        Ok(_old) => false,
        Err(back) => is_back(back, 'c', 2),
    }
}

fn vacant_entry_hands_back(map: &mut TaggedMap) -> bool {
    match map.try_entry(after('d')) {
        Ok(Entry::Vacant(entry)) => match entry.try_insert(3) {
            Ok(_lent) => false,
            Err(back) => is_back(back, 'd', 3),
        },
        Ok(Entry::Occupied(_entry)) => false,
        Err(_refused) => false,
    }
}

fn counted_vacant_entry_hands_back(map: &mut TaggedMap) -> bool {
    match map.try_entry(after('e')) {
        Ok(Entry::Vacant(entry)) => match entry.try_insert_counted(4, &mut Count::new()) {
            Ok(_lent) => false,
            Err(back) => is_back(back, 'e', 4),
        },
        Ok(Entry::Occupied(_entry)) => false,
        Err(_refused) => false,
    }
}

fn entry_hands_back(map: &mut TaggedMap) -> bool {
    match map.try_entry(after('f')) {
        Ok(entry) => match entry.or_try_insert(5) {
            Ok(_lent) => false,
            Err(back) => is_back(back, 'f', 5),
        },
        Err(_refused) => false,
    }
}

fn entry_hands_back_what_its_closure_made(map: &mut TaggedMap) -> bool {
    match map.try_entry(after('g')) {
        Ok(entry) => match entry.or_try_insert_with(|| 6) {
            Ok(_lent) => false,
            Err(back) => is_back(back, 'g', 6),
        },
        Err(_refused) => false,
    }
}

fn entry_hands_the_default_back(map: &mut TaggedMap) -> bool {
    match map.try_entry(after('h')) {
        Ok(entry) => match entry.or_default() {
            Ok(_lent) => false,
            Err(back) => is_back(back, 'h', 0),
        },
        Err(_refused) => false,
    }
}

fn each_call_hands_back(map: &mut TaggedMap) -> bool {
    insertion_hands_back(map)
        && counted_insertion_hands_back(map)
        && vacant_entry_hands_back(map)
        && counted_vacant_entry_hands_back(map)
        && entry_hands_back(map)
        && entry_hands_back_what_its_closure_made(map)
        && entry_hands_the_default_back(map)
}

fn each_hands_back_without_memory(
    alloc: Global,
    map: &mut TaggedMap,
) -> Result<bool, TryReserveError> {
    let held = take_all_memory(alloc)?;
    let is_right = !is_ample(alloc) && each_call_hands_back(map);
    drop(held);
    Ok(is_right)
}

// The pairs fill a leaf, so that each new key takes memory. A run that gets its memory from elsewhere, as one without proof does, would
// show nothing, and fails.
#[test]
fn each_refused_call_hands_its_pair_back_not_in_a_trial(rt: HostRuntime) -> Result<(), Fail> {
    let mut map = tagged_below(rt.alloc(), BEYOND)?;
    assert!(rt; each_hands_back_without_memory(rt.alloc(), &mut map)? && map.len() == CAPACITY);
    Ok(())
}

fn hands_back(map: &mut Numbers, number: u64, given: u64) -> bool {
    match map.try_insert(number, given) {
        Ok(_old) => false,
        Err((key, value, e)) => {
            key == number && value == given && matches!(e, TryReserveError::AllocError)
        }
    }
}

fn hands_back_without_memory(alloc: Global, map: &mut Numbers) -> Result<bool, TryReserveError> {
    let held = take_all_memory(alloc)?;
    let is_back = !is_ample(alloc) && hands_back(map, BEYOND, 7);
    drop(held);
    Ok(is_back)
}

// A run that gets its memory from elsewhere, as one without proof does, would show nothing, and fails.
#[test]
fn a_refused_pair_goes_in_once_memory_is_there_not_in_a_trial(rt: HostRuntime) -> Result<(), Fail> {
    let mut map = multiples(rt.alloc(), 1, BEYOND, 1)?;
    let is_back = hands_back_without_memory(rt.alloc(), &mut map)?;
    assert!(rt; is_back && has_up_to(&map, CAPACITY as u64));
    assert!(rt; matches!(insert(&mut map, BEYOND, 7), Ok(None)) && has(&map, BEYOND, 7));
    assert!(rt; map.len() == CAPACITY + 1);
    Ok(())
}
