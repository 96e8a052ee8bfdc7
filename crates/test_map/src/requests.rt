//! Calls that take nodes and lists of them, on maps of numbers: `tools/sweep.txt` says how many requests each test makes, and for how many bytes.
use crate::numbers::{Numbers, insert, multiples};
use crate::owned::is_right;
use fc_base::TryReserveError;
use std::alloc::Global;

// Puts in so many numbers that ascend, each second one from the first on.
fn put_each_second(map: &mut Numbers, first: u64, count: u64) -> Result<(), TryReserveError> {
    for place in 0..count {
        insert(map, place.wrapping_mul(2).wrapping_add(first), place)?;
    }
    Ok(())
}

// How many there are once so many odd numbers are appended to so many even ones, so that they take turns.
fn joined_in_turns(
    map: &mut Numbers,
    other: &mut Numbers,
    ours: u64,
    theirs: u64,
) -> Result<usize, TryReserveError> {
    put_each_second(map, 0, ours)?;
    put_each_second(other, 1, theirs)?;
    map.append(other)?;
    Ok(map.len())
}

fn joined(alloc: Global, ours: u64, theirs: u64) -> Result<usize, TryReserveError> {
    let mut map = Numbers::new(alloc);
    let mut other = Numbers::new(alloc);
    joined_in_turns(&mut map, &mut other, ours, theirs)
}

fn appends_in_turns(alloc: Global, ours: u64, theirs: u64) -> Result<bool, TryReserveError> {
    Ok(joined(alloc, ours, theirs)? as u64 == ours.wrapping_add(theirs))
}

#[test]
fn an_append_of_five_and_five_asks_for_one_leaf(rt: HostRuntime) {
    assert!(rt; is_right(appends_in_turns(rt.alloc(), 5, 5)));
}

#[test]
fn an_append_of_85_and_85_asks_for_two_leaves_and_a_root(rt: HostRuntime) {
    assert!(rt; is_right(appends_in_turns(rt.alloc(), 85, 85)));
}

// Together they fill a tree of two levels, so that a node more, or room for one, is seen.
#[test]
fn an_append_of_128_and_127_asks_for_two_leaves_and_a_root(rt: HostRuntime) {
    assert!(rt; is_right(appends_in_turns(rt.alloc(), 128, 127)));
}

// Extends an empty map by so many numbers in order, which another map gives up.
fn is_extended_in_order(
    alloc: Global,
    map: &mut Numbers,
    count: u64,
) -> Result<bool, TryReserveError> {
    map.try_extend(multiples(alloc, 0, count, 1)?)?;
    Ok(map.len() as u64 == count)
}

fn extends_in_order(alloc: Global, count: u64) -> Result<bool, TryReserveError> {
    let mut map = Numbers::new(alloc);
    is_extended_in_order(alloc, &mut map, count)
}

#[test]
fn an_extension_by_170_in_order_asks_for_19_leaves_and_three_inner_nodes(rt: HostRuntime) {
    assert!(rt; is_right(extends_in_order(rt.alloc(), 170)));
}
