//! Maps that are taken apart from their ends.
use super::{FEW, MANY, Owners, is_number, is_pair, is_right, owners, put_owners};
use fc_base::TryReserveError;
use fc_map::map::{IntoKeys, IntoValues};
use std::alloc::Global;

// The number that is last once so many after it are taken.
fn back_of(taken: u64) -> u64 {
    MANY.wrapping_sub(1).wrapping_sub(taken)
}

// Takes so many pairs from the front of an owned walk and then so many from its back, and drops the rest with it.
fn walks(alloc: Global, fronts: u64, backs: u64) -> Result<bool, TryReserveError> {
    let mut walk = owners(alloc, 0, MANY, 1)?.into_iter();
    for taken in 0..fronts {
        if !is_pair(walk.next(), taken) {
            return Ok(false);
        }
    }
    for taken in 0..backs {
        if !is_pair(walk.next_back(), back_of(taken)) {
            return Ok(false);
        }
    }
    Ok((walk.len() as u64).wrapping_add(fronts).wrapping_add(backs) == MANY)
}

#[test]
fn an_owned_walk_gives_up_each_leaf_from_its_back_and_its_front(rt: HostRuntime) {
    for (fronts, backs) in [(0, MANY), (MANY, 0), (100, 200), (200, 100), (FEW, FEW)] {
        assert!(rt; is_right(walks(rt.alloc(), fronts, backs)));
    }
}

#[test]
fn an_owned_walk_that_is_dropped_half_way_gives_up_what_is_left(rt: HostRuntime) {
    for (fronts, backs) in [(0, 0), (0, 1), (1, 0), (0, 150), (150, 0), (70, 80)] {
        assert!(rt; is_right(walks(rt.alloc(), fronts, backs)));
    }
}

// Takes keys from the back in turns with one from the front, and drops the rest.
fn gives_keys(alloc: Global, turns: u64) -> Result<bool, TryReserveError> {
    let mut keys = IntoKeys::of(owners(alloc, 0, MANY, 1)?.into_iter());
    for turn in 0..turns {
        let is_front = is_number(keys.next(), turn);
        if !is_front || !is_number(keys.next_back(), back_of(turn)) {
            return Ok(false);
        }
    }
    Ok((keys.len() as u64).wrapping_add(turns.wrapping_mul(2)) == MANY)
}

fn gives_values(alloc: Global, turns: u64) -> Result<bool, TryReserveError> {
    let mut values = IntoValues::of(owners(alloc, 0, MANY, 1)?.into_iter());
    for turn in 0..turns {
        let is_back = is_number(values.next_back(), back_of(turn));
        if !is_back || !is_number(values.next(), turn) {
            return Ok(false);
        }
    }
    Ok((values.len() as u64).wrapping_add(turns.wrapping_mul(2)) == MANY)
}

#[test]
fn keys_alone_and_values_alone_give_up_the_others_from_both_ends(rt: HostRuntime) {
    for turns in [0, 70, 150] {
        assert!(rt; is_right(gives_keys(rt.alloc(), turns)));
        assert!(rt; is_right(gives_values(rt.alloc(), turns)));
    }
}

// Takes the pairs from one end, or from both in turns, until none is left.
fn pops(map: &mut Owners, is_front: bool, is_back: bool) -> bool {
    let (mut first, mut end) = (0u64, MANY);
    for _ in 0..map.len() {
        if is_front && first < end {
            if !is_pair(map.pop_first(), first) {
                return false;
            }
            first = first.wrapping_add(1);
        }
        if is_back && first < end {
            end = end.wrapping_sub(1);
            if !is_pair(map.pop_last(), end) {
                return false;
            }
        }
    }
    map.is_empty() && map.pop_first().is_none() && map.pop_last().is_none()
}

fn is_popped(alloc: Global, is_front: bool, is_back: bool) -> Result<bool, TryReserveError> {
    Ok(pops(&mut owners(alloc, 0, MANY, 1)?, is_front, is_back))
}

#[test]
fn popped_pairs_give_up_each_node_from_both_ends(rt: HostRuntime) {
    for (is_front, is_back) in [(true, false), (false, true), (true, true)] {
        assert!(rt; is_right(is_popped(rt.alloc(), is_front, is_back)));
    }
}

// Takes the pairs at the ends by their entries: the key of the first alone is dropped, and the last is handed out whole.
fn entries_are_taken(alloc: Global) -> Result<bool, TryReserveError> {
    let mut map = owners(alloc, 0, MANY, 1)?;
    for taken in 0..MANY / 2 {
        let first = match map.first_entry() {
            Some(entry) => entry.remove().number == taken,
            None => false,
        };
        let last = match map.last_entry() {
            Some(entry) => is_pair(Some(entry.remove_entry()), back_of(taken)),
            None => false,
        };
        if !first || !last {
            return Ok(false);
        }
    }
    Ok(map.is_empty())
}

#[test]
fn entries_at_the_ends_give_up_the_keys_of_the_pairs_they_take(rt: HostRuntime) {
    assert!(rt; is_right(entries_are_taken(rt.alloc())));
}

// A cleared map takes pairs again.
fn takes_again(
    alloc: Global,
    map: &mut Owners,
    other: &mut Owners,
) -> Result<bool, TryReserveError> {
    put_owners(alloc, map, 0, MANY, 1)?;
    map.clear();
    let is_empty = map.is_empty();
    put_owners(alloc, other, 0, FEW, 1)?;
    map.append(other)?;
    Ok(is_empty && map.len() as u64 == FEW)
}

fn is_cleared(alloc: Global) -> Result<bool, TryReserveError> {
    let mut map = Owners::new(alloc);
    let mut other = Owners::new(alloc);
    takes_again(alloc, &mut map, &mut other)
}

#[test]
fn a_cleared_map_gives_up_its_tree(rt: HostRuntime) {
    assert!(rt; is_right(is_cleared(rt.alloc())));
}
