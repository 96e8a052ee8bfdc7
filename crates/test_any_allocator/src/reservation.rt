//! Room for several insertions, which then take nothing more.
use crate::items::{Items, has_items, items};
use crate::least::{Call, Fate, all_but, done, least, refused};
use crate::numbers::{Numbers, holds, numbers};
use crate::sizes::{AMPLE, CAPACITY, INNER, NODE, SET_INNER};
use fc_base::TryReserveError;
use fc_budget::Budget;
use fc_map::map::Reservation;
use std::alloc::Global;
use std::test::Fail;

type NumberReservation<'a> = Reservation<u64, u64, &'a Budget<Global>>;

type ItemReservation<'a> = Reservation<u64, (), &'a Budget<Global>>;

// Takes room for so many insertions, and gives it back.
#[derive(Drop)]
struct Taking<'a> {
    map: Numbers<'a>,
    count: u64,
    places: usize,
}

impl Call for Taking<'_> {
    fn fate(&mut self) -> Fate {
        let is_as_before = holds(&self.map, 0, self.count, 1);
        match self.map.try_reserve_nodes(self.places) {
            Ok(reservation) => done(is_as_before && reservation.places() == self.places),
            Err(error) => refused(error, is_as_before),
        }
    }
}

fn least_of_taking(
    budget: &Budget<Global>,
    count: u64,
    places: usize,
) -> Result<usize, TryReserveError> {
    let map = numbers(budget, 0, count, 1)?;
    least(budget, &mut Taking { map, count, places })
}

// An inner node for each level of the highest tree of so many pairs and places, below its root but at least one, and its place in a list.
#[test]
fn a_refused_reservation_is_given_back(rt: HostRuntime) -> Result<(), Fail> {
    let budget = Budget::new(rt.alloc(), AMPLE);
    let seen = [
        least_of_taking(&budget, 0, 0)?,
        least_of_taking(&budget, 0, 3)?,
        least_of_taking(&budget, CAPACITY, 3)?,
    ];
    assert!(rt; seen == [0, 3 * (NODE + INNER), 6 * (NODE + INNER)]);
    assert!(rt; budget.used() == 0);
    Ok(())
}

#[derive(Drop)]
struct ItemTaking<'a> {
    set: Items<'a>,
    count: u64,
    places: usize,
}

impl Call for ItemTaking<'_> {
    fn fate(&mut self) -> Fate {
        let is_as_before = has_items(&self.set, 0, self.count, 1);
        match self.set.try_reserve_nodes(self.places) {
            Ok(reservation) => done(is_as_before && reservation.places() == self.places),
            Err(error) => refused(error, is_as_before),
        }
    }
}

fn least_of_item_taking(
    budget: &Budget<Global>,
    count: u64,
    places: usize,
) -> Result<usize, TryReserveError> {
    let set = items(budget, 0, count, 1)?;
    least(budget, &mut ItemTaking { set, count, places })
}

#[test]
fn a_refused_reservation_for_items_is_given_back(rt: HostRuntime) -> Result<(), Fail> {
    let budget = Budget::new(rt.alloc(), AMPLE);
    let seen = [
        least_of_item_taking(&budget, 0, 0)?,
        least_of_item_taking(&budget, 0, 3)?,
        least_of_item_taking(&budget, CAPACITY, 3)?,
    ];
    assert!(rt; seen == [0, 3 * (NODE + SET_INNER), 6 * (NODE + SET_INNER)]);
    assert!(rt; budget.used() == 0);
    Ok(())
}

// Puts the number in with itself where the room serves the map.
fn put<'a>(map: &mut Numbers<'a>, reservation: &mut NumberReservation<'a>, number: u64) {
    if reservation.places() > 0 && map.len() < reservation.pairs() {
        map.insert_reserved(reservation, number, number);
    }
}

// Puts so many numbers after 15 with no byte left but the room's.
fn put_all<'a>(
    budget: &Budget<Global>,
    map: &mut Numbers<'a>,
    reservation: &mut NumberReservation<'a>,
    count: u64,
) -> Result<(), TryReserveError> {
    let _rest = all_but(budget, 0)?;
    for place in 0..count {
        put(map, reservation, CAPACITY.wrapping_add(place));
    }
    Ok(())
}

fn are_put<'a>(
    budget: &Budget<Global>,
    map: &mut Numbers<'a>,
    count: u64,
) -> Result<bool, TryReserveError> {
    let mut reservation: NumberReservation<'a> = map.try_reserve_nodes(count as usize)?;
    put_all(budget, map, &mut reservation, count)?;
    Ok(reservation.places() == 0 && holds(map, 0, CAPACITY.wrapping_add(count), 1))
}

fn puts_all(budget: &Budget<Global>, count: u64) -> Result<bool, TryReserveError> {
    let mut map = numbers(budget, 0, CAPACITY, 1)?;
    are_put(budget, &mut map, count)
}

#[test]
fn reserved_insertions_take_nothing_more(rt: HostRuntime) -> Result<(), Fail> {
    let budget = Budget::new(rt.alloc(), AMPLE);
    assert!(rt; puts_all(&budget, 0)? && puts_all(&budget, 1)? && puts_all(&budget, 140)?);
    assert!(rt; budget.used() == 0);
    Ok(())
}

fn put_item<'a>(set: &mut Items<'a>, reservation: &mut ItemReservation<'a>, number: u64) {
    if reservation.places() > 0 && set.len() < reservation.pairs() {
        set.insert_reserved(reservation, number);
    }
}

fn put_all_items<'a>(
    budget: &Budget<Global>,
    set: &mut Items<'a>,
    reservation: &mut ItemReservation<'a>,
    count: u64,
) -> Result<(), TryReserveError> {
    let _rest = all_but(budget, 0)?;
    for place in 0..count {
        put_item(set, reservation, CAPACITY.wrapping_add(place));
    }
    Ok(())
}

fn items_are_put<'a>(
    budget: &Budget<Global>,
    set: &mut Items<'a>,
    count: u64,
) -> Result<bool, TryReserveError> {
    let mut reservation: ItemReservation<'a> = set.try_reserve_nodes(count as usize)?;
    put_all_items(budget, set, &mut reservation, count)?;
    Ok(reservation.places() == 0 && has_items(set, 0, CAPACITY.wrapping_add(count), 1))
}

fn puts_all_items(budget: &Budget<Global>, count: u64) -> Result<bool, TryReserveError> {
    let mut set = items(budget, 0, CAPACITY, 1)?;
    items_are_put(budget, &mut set, count)
}

#[test]
fn reserved_items_take_nothing_more(rt: HostRuntime) -> Result<(), Fail> {
    let budget = Budget::new(rt.alloc(), AMPLE);
    assert!(rt;
        puts_all_items(&budget, 0)? && puts_all_items(&budget, 1)? && puts_all_items(&budget, 140)?
    );
    assert!(rt; budget.used() == 0);
    Ok(())
}
