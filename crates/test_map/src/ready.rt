//! Insertions that are made ready, and pairs put into two maps: on maps of one to three levels, under refused memory, and without any.
use crate::map::take_all_memory;
use crate::numbers::{Numbers, has, has_up_to, is_number, multiples, put_multiples};
use crate::sizes::{BEYOND, CAPACITY};
use fc_base::{Count, TryReserveError};
use fc_map::map::{Entry, insert_both};
use std::alloc::Global;
use std::process::Abort;
use std::test::Fail;
use test_values::is_ample;

// How many numbers a map has that is empty, has one, fills a leaf, has two levels, fills all leaves on its last path, and has three.
const LENGTHS: [u64; 6] = [0, 1, CAPACITY as u64, BEYOND, 150, 151];

// Makes the insertion of the vacant number ready and leaves it at that, twice: the first gives its key back.
fn is_only_made_ready(map: &mut Numbers, number: u64) -> Result<bool, TryReserveError> {
    let is_back = match map.try_entry(number)? {
        Entry::Vacant(entry) => entry.try_ready()?.into_key() == number,
        Entry::Occupied(_entry) => false,
    };
    match map.try_entry(number)? {
        Entry::Vacant(entry) => {
            let ready = entry.try_ready()?;
            Ok(is_back && *ready.key() == number)
        }
        Entry::Occupied(_entry) => Ok(false),
    }
}

#[test]
fn an_entry_that_was_made_ready_and_dropped_changes_nothing(rt: HostRuntime) -> Result<(), Fail> {
    for last in LENGTHS {
        let mut map = multiples(rt.alloc(), 1, last.wrapping_add(1), 1)?;
        assert!(rt; is_only_made_ready(&mut map, 0)? && has_up_to(&map, last));
        assert!(rt; is_only_made_ready(&mut map, last.wrapping_add(1))? && has_up_to(&map, last));
    }
    Ok(())
}

// Puts the vacant number in by an insertion that was made ready, and writes it where it was put.
fn is_put(map: &mut Numbers, number: u64) -> Result<bool, TryReserveError> {
    match map.try_entry(number)? {
        Entry::Vacant(entry) => {
            let Ok(value) = entry.try_ready()?.insert(200);
            let is_put = *value == 200;
            *value = number;
            Ok(is_put)
        }
        Entry::Occupied(_entry) => Ok(false),
    }
}

fn is_put_counted(map: &mut Numbers, number: u64) -> Result<bool, TryReserveError> {
    match map.try_entry(number)? {
        Entry::Vacant(entry) => {
            let Ok(value) = entry.try_ready()?.insert_counted(number, &mut Count::new());
            Ok(*value == number)
        }
        Entry::Occupied(_entry) => Ok(false),
    }
}

// By the entry of the pair that was put in.
fn is_put_in_an_entry(map: &mut Numbers, number: u64) -> Result<bool, TryReserveError> {
    match map.try_entry(number)? {
        Entry::Vacant(entry) => {
            let mut there = entry.try_ready()?.insert_entry(200);
            Ok(*there.key() == number && there.insert(number) == 200)
        }
        Entry::Occupied(_entry) => Ok(false),
    }
}

#[test]
fn an_entry_that_was_made_ready_is_put_in(rt: HostRuntime) -> Result<(), Fail> {
    for last in LENGTHS {
        let mut map = multiples(rt.alloc(), 1, last.wrapping_add(1), 1)?;
        assert!(rt; is_put(&mut map, last.wrapping_add(1))?);
        assert!(rt; is_put_counted(&mut map, last.wrapping_add(2))?);
        assert!(rt; is_put_in_an_entry(&mut map, last.wrapping_add(3))?);
        assert!(rt; has_up_to(&map, last.wrapping_add(3)));
    }
    Ok(())
}

// Whether both numbers were new to their maps and are put in, each with itself.
fn puts_both(
    a: &mut Numbers,
    b: &mut Numbers,
    first: u64,
    second: u64,
) -> Result<bool, TryReserveError> {
    match insert_both(a, b, first, first, second, second) {
        Ok((old_first, old_second)) => Ok(old_first.is_none() && old_second.is_none()),
        Err(back) => Err(back.4),
    }
}

// Whether the first number was there with this value, which another one replaces, and the second was new.
fn replaces_first(
    a: &mut Numbers,
    b: &mut Numbers,
    first: u64,
    second: u64,
) -> Result<bool, TryReserveError> {
    match insert_both(a, b, first, 200, second, second) {
        Ok((old_first, old_second)) => Ok(is_number(old_first, first) && old_second.is_none()),
        Err(back) => Err(back.4),
    }
}

// Maps of the numbers below the first and below the second, which go in, and then the first once more and 0.
fn are_put_in(
    rt: &impl Abort,
    a: &mut Numbers,
    b: &mut Numbers,
    first: u64,
    second: u64,
) -> Result<(), Fail> {
    put_multiples(a, 1, first, 1)?;
    put_multiples(b, 1, second, 1)?;
    assert!(rt; puts_both(a, b, first, second)?);
    assert!(rt; has_up_to(a, first) && has_up_to(b, second));
    assert!(rt; replaces_first(a, b, first, 0)?);
    assert!(rt; has(a, first, 200) && has(b, 0, 0));
    assert!(rt; a.len() as u64 == first && b.len() as u64 == second.wrapping_add(1));
    Ok(())
}

fn go_into_two_maps(rt: &impl Abort, alloc: Global, first: u64, second: u64) -> Result<(), Fail> {
    let mut a = Numbers::new(alloc);
    let mut b = Numbers::new(alloc);
    are_put_in(rt, &mut a, &mut b, first, second)
}

#[test]
fn two_pairs_are_put_into_maps_of_each_length(rt: HostRuntime) -> Result<(), Fail> {
    for first in 1..41u64 {
        for second in 1..41u64 {
            go_into_two_maps(&rt, rt.alloc(), first, second)?;
        }
    }
    Ok(())
}

// Whether the pairs of a number went into both maps, or came back for want of memory and both maps, of the numbers from 1 on, are as they were.
fn goes_in_or_comes_back(a: &mut Numbers, b: &mut Numbers, number: u64) -> bool {
    let last = number.wrapping_sub(1);
    match insert_both(a, b, number, 7, number, 8) {
        Ok((old_first, old_second)) => {
            let is_new = old_first.is_none() && old_second.is_none();
            let is_longer = a.len() as u64 == number && b.len() as u64 == number;
            is_new && is_longer && has(a, number, 7) && has(b, number, 8)
        }
        Err((first, value, second, other, e)) => {
            let is_back = first == number && value == 7 && second == number && other == 8;
            let is_told = matches!(e, TryReserveError::AllocError);
            is_back && is_told && has_up_to(a, last) && has_up_to(b, last)
        }
    }
}

fn both_are_kept(rt: &impl Abort, alloc: Global, a: &mut Numbers, b: &mut Numbers) {
    if put_multiples(a, 1, BEYOND, 1).is_err() {
        assert!(rt; !is_ample(alloc));
        return;
    }
    if put_multiples(b, 1, BEYOND, 1).is_err() {
        assert!(rt; !is_ample(alloc));
        return;
    }
    assert!(rt; goes_in_or_comes_back(a, b, BEYOND));
}

// Each request is refused in turn by the sweep. Where there is no memory for the maps nothing is shown.
#[test]
fn a_refused_pair_of_insertions_leaves_both_maps(rt: HostRuntime) {
    let mut a = Numbers::new(rt.alloc());
    let mut b = Numbers::new(rt.alloc());
    both_are_kept(&rt, rt.alloc(), &mut a, &mut b);
}

// Whether the number after the last was put in, or its entry was not made ready, the number came back, and the map is as it was.
fn is_ready_or_comes_back(map: &mut Numbers, last: u64) -> Result<bool, TryReserveError> {
    let number = last.wrapping_add(1);
    let length = match map.try_entry(number)? {
        Entry::Vacant(entry) => match entry.try_ready() {
            Ok(ready) => {
                let Ok(_value) = ready.insert(number);
                number
            }
            Err((key, TryReserveError::AllocError)) if key == number => last,
            Err(_lost) => return Ok(false),
        },
        Entry::Occupied(_entry) => return Ok(false),
    };
    Ok(has_up_to(map, length))
}

// Each request is refused in turn by the sweep. Where there is no memory for the map nothing is shown.
#[test]
fn a_refused_ready_entry_leaves_every_pair(rt: HostRuntime) -> Result<(), Fail> {
    for last in [CAPACITY as u64, BEYOND, 150] {
        match multiples(rt.alloc(), 1, last.wrapping_add(1), 1) {
            Ok(mut map) => assert!(rt; is_ready_or_comes_back(&mut map, last)?),
            Err(_refused) => assert!(rt; !is_ample(rt.alloc())),
        }
    }
    Ok(())
}

// Makes the insertion ready of the number that a full leaf has no room for, takes all memory, and then puts it in. A run that gets its
// memory from elsewhere, as one without proof does, would show nothing, and fails.
fn is_put_without_memory(alloc: Global, map: &mut Numbers) -> Result<bool, TryReserveError> {
    match map.try_entry(BEYOND)? {
        Entry::Vacant(entry) => {
            let ready = entry.try_ready()?;
            let held = take_all_memory(alloc)?;
            let has_none = !is_ample(alloc);
            let Ok(_value) = ready.insert(BEYOND);
            drop(held);
            Ok(has_none)
        }
        Entry::Occupied(_entry) => Ok(false),
    }
}

#[test]
fn an_entry_that_was_made_ready_takes_no_memory_not_in_a_trial(
    rt: HostRuntime,
) -> Result<(), Fail> {
    let mut map = multiples(rt.alloc(), 1, BEYOND, 1)?;
    assert!(rt; is_put_without_memory(rt.alloc(), &mut map)? && has_up_to(&map, BEYOND));
    Ok(())
}

// Whether a pair for a leaf with room comes back with one for a full leaf, as there is no memory.
fn comes_back_for_the_second(a: &mut Numbers, b: &mut Numbers) -> bool {
    let is_back = match insert_both(a, b, CAPACITY as u64, 7, BEYOND, 8) {
        Ok(_old) => false,
        Err((first, value, second, other, e)) => {
            let is_told = matches!(e, TryReserveError::AllocError);
            is_told && first == CAPACITY as u64 && value == 7 && second == BEYOND && other == 8
        }
    };
    is_back && has_up_to(a, CAPACITY as u64 - 1) && has_up_to(b, CAPACITY as u64)
}

// Whether a pair for a leaf with room goes in beside a value that is replaced, neither of which takes memory.
fn needs_no_memory(a: &mut Numbers, b: &mut Numbers) -> bool {
    let is_put = match insert_both(a, b, CAPACITY as u64, CAPACITY as u64, 5, 9) {
        Ok((old_first, old_second)) => old_first.is_none() && is_number(old_second, 5),
        Err(_refused) => false,
    };
    is_put && has_up_to(a, CAPACITY as u64) && has(b, 5, 9) && b.len() == CAPACITY
}

fn only_a_full_leaf_refuses(
    alloc: Global,
    a: &mut Numbers,
    b: &mut Numbers,
) -> Result<bool, TryReserveError> {
    put_multiples(a, 1, CAPACITY as u64, 1)?;
    put_multiples(b, 1, BEYOND, 1)?;
    let held = take_all_memory(alloc)?;
    let is_right = !is_ample(alloc) && comes_back_for_the_second(a, b) && needs_no_memory(a, b);
    drop(held);
    Ok(is_right)
}

fn is_refused_a_leaf(alloc: Global) -> Result<bool, TryReserveError> {
    let mut a = Numbers::new(alloc);
    let mut b = Numbers::new(alloc);
    only_a_full_leaf_refuses(alloc, &mut a, &mut b)
}

#[test]
fn only_a_full_leaf_refuses_two_pairs_not_in_a_trial(rt: HostRuntime) -> Result<(), Fail> {
    assert!(rt; is_refused_a_leaf(rt.alloc())?);
    Ok(())
}
