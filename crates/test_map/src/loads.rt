//! Maps that are made of many items in no order, or extended by a vector of them, where memory is refused.
use crate::extend::{tracked_map, tracked_pairs};
use crate::map::{Drops, Tracked, fresh_drops, were_all_dropped};
use crate::numbers::{Numbers, has, put_multiples};
use fc_base::TryReserveError;
use fc_vec::TryFromIterator;
use std::alloc::{AllocError, Global};
use std::process::Abort;
use test_values::is_ample;

// So many items, of each number two.
const ITEMS: u64 = 3_000;

const NUMBERS: u64 = 1_500;

// The number of the item at the place, 37 apart and round.
fn number_at(place: u64) -> u64 {
    place.wrapping_mul(37) % NUMBERS
}

// The items, each with its place. Room that is refused is asked for once more.
fn items(alloc: Global) -> Result<Vec<(u64, u64)>, AllocError> {
    let mut all = Vec::new(alloc);
    for place in 0..ITEMS {
        if all.push((number_at(place), place)).is_err() {
            all.push((number_at(place), place))?;
        }
    }
    Ok(all)
}

// Whether the map has each number with the place of its last item, and no other.
fn has_all(map: &Numbers) -> bool {
    for place in NUMBERS..ITEMS {
        if !has(map, number_at(place), place) {
            return false;
        }
    }
    map.len() as u64 == NUMBERS
}

// Whether the items stand there as they were.
fn are_all(items: &[(u64, u64)]) -> bool {
    for place in 0..items.len() {
        let item = place as u64;
        if items[place] != (number_at(item), item) {
            return false;
        }
    }
    items.len() as u64 == ITEMS
}

// Whether the map has the numbers below `count`, each with its threefold, and no other.
fn has_multiples(map: &Numbers, count: u64) -> bool {
    for number in 0..count {
        if !has(map, number, number.wrapping_mul(3)) {
            return false;
        }
    }
    map.len() as u64 == count
}

fn takes_all_or_none(rt: &impl Abort, alloc: Global, map: &mut Numbers) {
    if put_multiples(map, 0, 85, 3).is_err() {
        assert!(rt; !is_ample(alloc));
        return;
    }
    let Ok(items) = items(alloc) else {
        assert!(rt; !is_ample(alloc));
        return;
    };
    let is_right = match map.try_extend_from_vec(items) {
        Ok(()) => has_all(map),
        Err((items, TryReserveError::AllocError)) => are_all(items.as_slice())
            && has_multiples(map, 85),
        Err(_other) => false,
    };
    assert!(rt; is_right);
}

// Each request is refused in turn by the sweep.
#[test]
fn a_refused_vector_comes_back_and_leaves_the_map(rt: HostRuntime) {
    let mut map = Numbers::new(rt.alloc());
    takes_all_or_none(&rt, rt.alloc(), &mut map);
}

// A number that is there, and two after it, each with its threefold. Room that is refused is asked for once more.
fn few(alloc: Global) -> Result<Vec<(u64, u64)>, AllocError> {
    let mut items = match Vec::with_capacity(alloc, 3) {
        Ok(room) => room,
        Err(_refused) => Vec::with_capacity(alloc, 3)?,
    };
    for number in 259..262u64 {
        items.push((number, 3 * number))?;
    }
    Ok(items)
}

fn takes_few_or_none(rt: &impl Abort, alloc: Global, map: &mut Numbers) {
    if put_multiples(map, 0, 260, 3).is_err() {
        assert!(rt; !is_ample(alloc));
        return;
    }
    let Ok(items) = few(alloc) else {
        assert!(rt; !is_ample(alloc));
        return;
    };
    let is_right = match map.try_extend_from_vec(items) {
        Ok(()) => has_multiples(map, 262),
        Err((items, TryReserveError::AllocError)) => items.len() == 3 && has_multiples(map, 260),
        Err(_other) => false,
    };
    assert!(rt; is_right);
}

// Each request is refused in turn by the sweep. Three items go into a map of 260 by nodes that are reserved.
#[test]
fn a_refused_vector_of_few_items_comes_back_and_leaves_the_map(rt: HostRuntime) {
    let mut map = Numbers::new(rt.alloc());
    takes_few_or_none(&rt, rt.alloc(), &mut map);
}

// So many items come in descending order.
const LOADED: u64 = 1_400;

// Whether the map has each number with the place at which it came.
fn has_descending(map: &Numbers) -> bool {
    for place in 0..LOADED {
        if !has(map, LOADED.wrapping_sub(place), place) {
            return false;
        }
    }
    map.len() as u64 == LOADED
}

// Each request is refused in turn by the sweep: where the sorted way is refused, the items that were gathered go in one by one.
#[test]
fn a_load_that_is_refused_a_request_loses_no_item(rt: HostRuntime) {
    let items = (0..LOADED).map(|place| (LOADED.wrapping_sub(place), place));
    let is_right = match Numbers::try_from_iterator(rt.alloc(), items) {
        Ok(map) => has_descending(&map),
        Err(error) => matches!(error, TryReserveError::AllocError),
    };
    assert!(rt; is_right);
}

// Whether a map has all 170 numbers, or the allocator refused.
fn is_made(made: &Result<Tracked<'_>, TryReserveError>) -> bool {
    match made {
        Ok(map) => map.len() == 170,
        Err(e) => matches!(e, TryReserveError::AllocError),
    }
}

// Makes a map and drops it; whether there was memory for the items.
fn is_loaded_and_dropped(rt: &impl Abort, alloc: Global, drops: &[Drops]) -> bool {
    let Ok(items) = tracked_pairs(alloc, drops) else {
        assert!(rt; !is_ample(alloc));
        return false;
    };
    let made = tracked_map(alloc, items);
    assert!(rt; is_made(&made));
    true
}

// Each request is refused in turn by the sweep. Most items have keys that are there.
#[test]
fn each_item_of_a_load_is_dropped_once(rt: HostRuntime) {
    let Ok(drops) = fresh_drops(rt.alloc(), 1_500) else {
        assert!(rt; !is_ample(rt.alloc()));
        return;
    };
    if is_loaded_and_dropped(&rt, rt.alloc(), &drops) {
        assert!(rt; were_all_dropped(&drops, 1));
    }
}
