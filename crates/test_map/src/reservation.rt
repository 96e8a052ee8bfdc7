//! Insertions with room that was taken before.
use crate::map::take_all_memory;
use crate::numbers::{Numbers, has_up_to, put_multiples};
use crate::sizes::MOST_LEVELS;
use fc_base::TryReserveError;
use fc_map::map::Reservation;
use std::alloc::Global;
use std::process::Abort;
use std::test::Fail;
use test_values::is_ample;

type NumberReservation = Reservation<u64, u64>;

// Puts the number in with itself where the room serves the map, and answers whether it was served and new.
fn put(map: &mut Numbers, reservation: &mut NumberReservation, number: u64) -> bool {
    if reservation.places() == 0 || map.len() >= reservation.pairs() {
        return false;
    }
    map.insert_reserved(reservation, number, number).is_none()
}

// Puts the numbers from `first` on below `end` in, and answers how many of them were served and new.
fn put_numbers(
    map: &mut Numbers,
    reservation: &mut NumberReservation,
    first: u64,
    end: u64,
) -> u64 {
    let mut count = 0u64;
    for number in first..end {
        if put(map, reservation, number) {
            count = count.wrapping_add(1);
        }
    }
    count
}

fn takes_twenty_or_none(rt: &impl Abort, map: &mut Numbers) {
    if let Ok(mut reservation) = map.try_reserve_nodes(20) {
        assert!(rt; put_numbers(map, &mut reservation, 1, 22) == 20 && reservation.places() == 0);
        assert!(rt; has_up_to(map, 20));
    } else {
        assert!(rt; map.is_empty());
    }
}

// Each request for room is refused in turn by the sweep, and after it no request is made: of ascending numbers those after the first leaf make a second
// level.
#[test]
fn a_refused_reservation_leaves_the_map(rt: HostRuntime) {
    let mut map = Numbers::new(rt.alloc());
    takes_twenty_or_none(&rt, &mut map);
}

// Whether there is no memory then, and a hundred numbers go in by the room alone.
fn uses_each_place(
    alloc: Global,
    map: &mut Numbers,
    reservation: &mut NumberReservation,
) -> Result<bool, TryReserveError> {
    let held = take_all_memory(alloc)?;
    let has_memory = is_ample(alloc);
    let count = put_numbers(map, reservation, 41, 152);
    drop(held);
    Ok(!has_memory && count == 100 && reservation.places() == 0)
}

fn each_place_is_used(rt: &impl Abort, alloc: Global, map: &mut Numbers) -> Result<(), Fail> {
    put_multiples(map, 1, 51, 1)?;
    let mut reservation = map.try_reserve_nodes(100)?;
    assert!(rt; uses_each_place(alloc, map, &mut reservation)?);
    assert!(rt; has_up_to(map, 150));
    Ok(())
}

// A run that gets its memory from elsewhere, as one without proof does, would show nothing, and fails.
#[test]
fn with_all_memory_refused_each_place_is_used_not_in_a_trial(rt: HostRuntime) -> Result<(), Fail> {
    let mut map = Numbers::new(rt.alloc());
    each_place_is_used(&rt, rt.alloc(), &mut map)
}

fn uses_no_place(rt: &impl Abort, map: &mut Numbers) -> Result<(), Fail> {
    put_multiples(map, 0, 100, 2)?;
    let mut reservation = map.try_reserve_nodes(1)?;
    assert!(rt; put_numbers(map, &mut reservation, 0, 100) == 0 && reservation.places() == 1);
    assert!(rt;
        put_numbers(map, &mut reservation, 100, 102) == 1
            && reservation.places() == 0
            && reservation.pairs() == 101
    );
    assert!(rt; map.get(&100) == Some(&100) && map.get(&3) == Some(&3) && map.get(&101).is_none());
    Ok(())
}

// Keys that are there use no place, and get the other value.
#[test]
fn an_equal_key_uses_no_place(rt: HostRuntime) -> Result<(), Fail> {
    let mut map = Numbers::new(rt.alloc());
    uses_no_place(&rt, &mut map)
}

// Whether fifty of the numbers go in.
fn takes_fifty(map: &mut Numbers, reservation: &mut NumberReservation) -> bool {
    put_numbers(map, reservation, 101, 160) == 50 && has_up_to(map, 150)
}

fn serves_both(large: &mut Numbers, small: &mut Numbers) -> Result<bool, TryReserveError> {
    put_multiples(large, 0, 1000, 1)?;
    put_multiples(small, 1, 101, 1)?;
    let mut reservation = large.try_reserve_nodes(50)?;
    Ok(takes_fifty(small, &mut reservation))
}

fn serves_another(alloc: Global) -> Result<bool, TryReserveError> {
    let mut large = Numbers::new(alloc);
    let mut small = Numbers::new(alloc);
    serves_both(&mut large, &mut small)
}

// Room for one map serves another that is no larger.
#[test]
fn a_reservation_serves_another_map(rt: HostRuntime) -> Result<(), Fail> {
    assert!(rt; serves_another(rt.alloc())?);
    Ok(())
}

fn is_made_alone(rt: &impl Abort, alloc: Global, map: &mut Numbers) -> Result<(), Fail> {
    put_multiples(map, 1, 101, 1)?;
    let mut reservation = NumberReservation::try_new(alloc, 100, 50)?;
    assert!(rt; reservation.places() == 50 && reservation.pairs() == 150);
    assert!(rt; takes_fifty(map, &mut reservation));
    Ok(())
}

fn is_overflown(alloc: Global) -> bool {
    let overflown = NumberReservation::try_new(alloc, usize::MAX, 1);
    matches!(overflown, Err(TryReserveError::CapacityOverflow))
}

// Nodes for so many pairs, with no map at hand.
#[test]
fn a_reservation_is_made_without_a_map(rt: HostRuntime) -> Result<(), Fail> {
    assert!(rt; is_overflown(rt.alloc()));
    let mut map = Numbers::new(rt.alloc());
    is_made_alone(&rt, rt.alloc(), &mut map)
}

// No room is asked for, and none is refused.
#[test]
fn a_reservation_of_none_takes_no_memory(rt: HostRuntime) -> Result<(), Fail> {
    let map = Numbers::new(rt.alloc());
    let reservation = map.try_reserve_nodes(0)?;
    assert!(rt; reservation.places() == 0 && reservation.pairs() == 0);
    Ok(())
}

// By which error so many insertions are refused.
fn refusal(map: &Numbers, insertions: usize) -> Option<TryReserveError> {
    map.try_reserve_nodes(insertions).err()
}

fn is_counted_or_refused(rt: &impl Abort, map: &mut Numbers) -> Result<(), Fail> {
    put_multiples(map, 0, 1, 1)?;
    for insertions in [usize::MAX, usize::MAX - 1, usize::MAX / MOST_LEVELS + 1] {
        assert!(rt;
            matches!(
                refusal(map, insertions),
                Some(TryReserveError::CapacityOverflow)
            )
        );
    }
    let greatest = refusal(map, usize::MAX / MOST_LEVELS);
    assert!(rt; matches!(greatest, Some(TryReserveError::AllocError)));
    Ok(())
}

#[test]
fn a_reservation_that_cannot_be_counted(rt: HostRuntime) -> Result<(), Fail> {
    let mut map = Numbers::new(rt.alloc());
    is_counted_or_refused(&rt, &mut map)
}

fn takes_a_hundred(rt: &impl Abort, map: &mut Numbers) -> Result<(), Fail> {
    put_multiples(map, 0, 100_000, 1)?;
    let mut reservation = map.try_reserve_nodes(100)?;
    assert!(rt;
        put_numbers(map, &mut reservation, 100_000, 100_100) == 100 && reservation.places() == 0
    );
    assert!(rt; map.len() == 100_100);
    Ok(())
}

// No clause says that room is given where there is memory: a body that refuses it above so many pairs is proved too.
#[test]
fn a_hundred_are_reserved_on_100_000_pairs(rt: HostRuntime) -> Result<(), Fail> {
    let mut map = Numbers::new(rt.alloc());
    takes_a_hundred(&rt, &mut map)
}
