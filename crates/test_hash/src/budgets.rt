//! Hashed maps in a budget that refuses: a refused call leaves the map as it was, and all bytes come back.
use fc_base::{TryClone, TryReserveError};
use fc_budget::Budget;
use fc_hash::{TryHashMap, TryHashSet};
use std::alloc::Global;
use std::test::Fail;

type Map<'b> = TryHashMap<u64, u64, &'b Budget<Global>>;

// The bytes of a map with room for ten.
fn bytes_of_ten(alloc: Global) -> usize {
    let budget = Budget::new(alloc, usize::MAX);
    let map = room_for_ten(&budget);
    let used = budget.used();
    drop(map);
    used
}

fn room_for_ten<'b>(budget: &'b Budget<Global>) -> Result<Map<'b>, TryReserveError> {
    TryHashMap::with_capacity(budget, 10)
}

// Puts the numbers from 0 on, each with ten times itself, until one is refused, and answers how many there are.
fn fill(map: &mut Map<'_>) -> u64 {
    for key in 0..100u64 {
        if map.insert(key, key.wrapping_mul(10)).is_err() {
            return key;
        }
    }
    100
}

// Whether the map holds the numbers below `end`, each with ten times itself, and nothing else.
fn holds_tens(map: &Map<'_>, end: u64) -> bool {
    for key in 0..end {
        if map.get(&key).copied() != Some(key.wrapping_mul(10)) {
            return false;
        }
    }
    map.len() as u64 == end && map.get(&end).is_none()
}

// One of the calls that take memory, at a map with no room left. It is as before, with its bytes.
fn grow(map: &mut Map<'_>, way: u64) -> Result<(), TryReserveError> {
    match way {
        0 => map.reserve(1),
        1 => match map.insert(1000, 7) {
            Ok(_old) => Ok(()),
            Err(refused) => Err(refused),
        },
        2 => map.try_extend((1000..1003u64).map(|key| (key, 7))),
        _ => copied(map),
    }
}

fn copied(map: &Map<'_>) -> Result<(), TryReserveError> {
    let _copy = map.try_clone()?;
    Ok(())
}

fn is_refused(budget: &Budget<Global>, way: u64) -> bool {
    let Ok(mut map) = room_for_ten(budget) else {
        return false;
    };
    let len = fill(&mut map);
    let used = budget.used();
    let answer = grow(&mut map, way);
    let is_refused = matches!(answer, Err(TryReserveError::AllocError));
    is_refused && len >= 10 && holds_tens(&map, len) && budget.used() == used
}

#[test]
fn a_refused_call_leaves_the_map(rt: HostRuntime) {
    let bytes = bytes_of_ten(rt.alloc());
    for way in 0..4u64 {
        let budget = Budget::new(rt.alloc(), bytes);
        assert!(rt; is_refused(&budget, way));
        assert!(rt; budget.used() == 0);
    }
}

// Whether there was a map with its room, and its copy, and how many bytes were out then.
fn bytes_with_a_copy(budget: &Budget<Global>) -> (bool, bool, usize) {
    let Ok(map) = room_for_ten(budget) else {
        return (false, false, budget.used());
    };
    let copy = map.try_clone();
    (true, copy.is_ok(), budget.used())
}

// A map of no pairs is copied where it is, in no bytes.
#[test]
fn a_map_is_made_where_it_fits(rt: HostRuntime) {
    let bytes = bytes_of_ten(rt.alloc());
    let short = Budget::new(rt.alloc(), bytes.saturating_sub(1));
    let exact = Budget::new(rt.alloc(), bytes);
    let seen = (bytes_with_a_copy(&short), bytes_with_a_copy(&exact));
    assert_eq!(rt; seen, ((false, false, 0), (true, true, bytes)));
    assert_eq!(rt; (short.used(), exact.used()), (0, 0));
}

fn set_for_ten<'b>(
    budget: &'b Budget<Global>,
) -> Result<TryHashSet<u64, &'b Budget<Global>>, TryReserveError> {
    TryHashSet::with_capacity(budget, 10)
}

// Ten items take no byte more than the room for them, and room that does not fit is refused, with none of it taken.
#[test]
fn room_for_a_set_is_taken_at_once(rt: HostRuntime) -> Result<(), Fail> {
    let ample = Budget::new(rt.alloc(), usize::MAX);
    let mut set = set_for_ten(&ample)?;
    let bytes = ample.used();
    for number in 0..10u64 {
        assert!(rt; set.insert(number)?);
    }
    assert!(rt; bytes > 0 && ample.used() == bytes && set.len() == 10);
    let short = Budget::new(rt.alloc(), bytes.saturating_sub(1));
    assert!(rt; matches!(set_for_ten(&short), Err(TryReserveError::AllocError)));
    assert!(rt; short.used() == 0);
    Ok(())
}
