//! Calls that take a count do as those without one: what is counted is seen by contracts alone.
use crate::numbers::{Numbers, has, is_number, multiples};
use fc_base::{Count, TryReserveError};
use fc_map::map::Entry;
use std::test::Fail;

// Writes the value at a number by a counted look-up, where it is there.
fn write(map: &mut Numbers, number: u64, value: u64) -> bool {
    match map.get_mut_counted(&number, &mut Count::new()) {
        Some(place) => {
            *place = value;
            true
        }
        None => false,
    }
}

// Takes a number out by its entry, and answers its value.
fn take_by_entry(map: &mut Numbers, number: u64) -> Result<Option<u64>, TryReserveError> {
    let count = &mut Count::new();
    match map.try_entry_counted(number, count)? {
        Entry::Occupied(entry) => Ok(Some(entry.remove_entry_counted(count).1)),
        Entry::Vacant(_) => Ok(None),
    }
}

// Takes a number out, and answers its value.
fn take(map: &mut Numbers, number: u64) -> Option<u64> {
    let (_number, value) = map.remove_entry_counted(&number, &mut Count::new())?;
    Some(value)
}

// The numbers below 40 stand on two levels of nodes.
#[test]
fn counted_calls_do_as_those_without_a_count(rt: HostRuntime) -> Result<(), Fail> {
    let mut map = multiples(rt.alloc(), 0, 40, 2)?;
    assert!(rt; write(&mut map, 7, 70) && has(&map, 7, 70) && !write(&mut map, 40, 80));
    assert!(rt; is_number(take_by_entry(&mut map, 7)?, 70));
    assert!(rt; take_by_entry(&mut map, 7)?.is_none());
    assert!(rt; is_number(take(&mut map, 38), 76) && take(&mut map, 38).is_none());
    assert!(rt; map.len() == 38 && has(&map, 8, 16) && has(&map, 39, 78));
    Ok(())
}

#[test]
fn counted_ends_come_out_in_order(rt: HostRuntime) -> Result<(), Fail> {
    let mut map = multiples(rt.alloc(), 1, 3, 10)?;
    assert!(rt; matches!(map.pop_last_counted(&mut Count::new()), Some((2, 20))));
    assert!(rt; matches!(map.pop_first_counted(&mut Count::new()), Some((1, 10))));
    assert!(rt; map.pop_first_counted(&mut Count::new()).is_none());
    assert!(rt; map.pop_last_counted(&mut Count::new()).is_none());
    Ok(())
}

// Whether the number goes in by the room's one place.
fn takes_a_place(map: &mut Numbers) -> Result<bool, TryReserveError> {
    let mut reservation = map.try_reserve_nodes(1)?;
    if reservation.places() == 0 || map.len() >= reservation.pairs() {
        return Ok(false);
    }
    let before = map.insert_reserved_counted(&mut reservation, 3, 30, &mut Count::new());
    Ok(before.is_none() && reservation.places() == 0 && has(map, 3, 30) && map.len() == 4)
}

#[test]
fn a_counted_insertion_takes_a_place_of_the_reservation(rt: HostRuntime) -> Result<(), Fail> {
    let mut map = multiples(rt.alloc(), 0, 3, 1)?;
    assert!(rt; takes_a_place(&mut map)?);
    Ok(())
}
