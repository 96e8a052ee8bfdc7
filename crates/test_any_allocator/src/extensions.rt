//! An extension asks for what insertions ask for, in whatever order the items come, and takes no item more off a lent iterator.
use crate::sizes::AMPLE;
use fc_budget::Budget;
use fc_map::map::BTreeMap;
use fc_set::set::BTreeSet;
use std::alloc::{AllocError, Global};
use std::test::Fail;

// How many orders there are.
const ORDERS: u64 = 6;

const SIZES: [u64; 10] = [1, 15, 16, 31, 100, 257, 300, 400, 801, 1_302];

// Multiples of the one come all over below the other, a prime that no size passes.
const JUMP: u64 = 769;

const PRIME: u64 = 1_303;

// The number at a place of so many, in an order: ascending, descending, all over, in two runs, with one in a hundred out of place, or each one twice.
fn number_at(order: u64, size: u64, place: u64) -> u64 {
    let back = size.wrapping_sub(place);
    match order {
        0 => place,
        1 => back,
        2 => place.wrapping_mul(JUMP) % PRIME,
        3 if place < size / 2 => place.wrapping_mul(2),
        3 => place.wrapping_sub(size / 2).wrapping_mul(2).wrapping_add(1),
        4 if place % 100 == 99 => back,
        4 => place,
        _ => place.wrapping_mul(JUMP) % (size / 2 + 1),
    }
}

// How many pairs go into an empty map of so many bytes, one by one, before one is refused.
fn inserted_pairs(alloc: Global, bytes: usize, order: u64, size: u64) -> u64 {
    let budget = Budget::new(alloc, bytes);
    let mut map = BTreeMap::new(&budget);
    for place in 0..size {
        if map
            .try_insert(number_at(order, size, place), place)
            .is_err()
        {
            return place;
        }
    }
    size
}

// How many pairs of so many a refused extension of an empty map takes off a lent iterator but for the refused one; all where none is refused.
fn extended_pairs(alloc: Global, bytes: usize, order: u64, size: u64) -> Result<u64, AllocError> {
    let mut items = Vec::new(alloc);
    for place in 0..size {
        items.push((number_at(order, size, place), place))?;
    }
    let mut items = items.into_iter();
    let budget = Budget::new(alloc, bytes);
    let mut map = BTreeMap::new(&budget);
    let taken = map.try_extend(&mut items).is_err() as u64;
    Ok(size.wrapping_sub(items.len() as u64).wrapping_sub(taken))
}

// The same of items in a set.
fn inserted_items(alloc: Global, bytes: usize, order: u64, size: u64) -> u64 {
    let budget = Budget::new(alloc, bytes);
    let mut set = BTreeSet::new(&budget);
    for place in 0..size {
        if set.try_insert(number_at(order, size, place)).is_err() {
            return place;
        }
    }
    size
}

fn extended_items(alloc: Global, bytes: usize, order: u64, size: u64) -> Result<u64, AllocError> {
    let mut items = Vec::new(alloc);
    for place in 0..size {
        items.push(number_at(order, size, place))?;
    }
    let mut items = items.into_iter();
    let budget = Budget::new(alloc, bytes);
    let mut set = BTreeSet::new(&budget);
    let taken = set.try_extend(&mut items).is_err() as u64;
    Ok(size.wrapping_sub(items.len() as u64).wrapping_sub(taken))
}

fn inserted(alloc: Global, is_set: bool, bytes: usize, order: u64, size: u64) -> u64 {
    if is_set {
        inserted_items(alloc, bytes, order, size)
    } else {
        inserted_pairs(alloc, bytes, order, size)
    }
}

// The fewest bytes in which all go in one by one.
fn least(alloc: Global, is_set: bool, order: u64, size: u64) -> usize {
    let mut refused = 0usize;
    let mut step = AMPLE / 2;
    for _ in 0..AMPLE.ilog2() {
        let bytes = refused.wrapping_add(step);
        if inserted(alloc, is_set, bytes, order, size) != size {
            refused = bytes;
        }
        step /= 2;
    }
    refused.wrapping_add(1)
}

// Whether an extension in the fewest bytes, in one byte fewer and in a third of them puts in what insertions do.
fn is_same(alloc: Global, is_set: bool, order: u64, size: u64) -> Result<bool, AllocError> {
    let enough = least(alloc, is_set, order, size);
    for bytes in [enough, enough.wrapping_sub(1), enough / 3] {
        let extended = if is_set {
            extended_items(alloc, bytes, order, size)?
        } else {
            extended_pairs(alloc, bytes, order, size)?
        };
        if extended != inserted(alloc, is_set, bytes, order, size) {
            return Ok(false);
        }
    }
    Ok(true)
}

#[test]
fn extensions_ask_for_what_insertions_ask_for(rt: HostRuntime) -> Result<(), Fail> {
    for order in 0..ORDERS {
        for size in SIZES {
            assert!(rt; is_same(rt.alloc(), false, order, size)?);
            assert!(rt; is_same(rt.alloc(), true, order, size)?);
        }
    }
    Ok(())
}
