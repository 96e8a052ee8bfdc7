//! Pairs that are taken out of a map or stay there, by a rule or by their keys, and those that come back or are replaced.
use super::{FEW, MANY, Owners, is_number, is_pair, is_right, owners, pair, put_owners};
use crate::sizes::CAPACITY;
use fc_base::TryReserveError;
use fc_map::map::{Entry, Reservation, insert_both};
use std::alloc::Global;
use test_values::Owned;

// Which numbers stay: these, of which each so-manieth.
#[derive(Clone, Copy)]
struct Rule {
    first: u64,
    end: u64,
    step: u64,
}

fn stays(rule: Rule, number: u64) -> bool {
    rule.first <= number && number < rule.end && rule.step > 0 && number % rule.step == 0
}

fn count_of(rule: Rule) -> usize {
    let mut count = 0usize;
    for number in 0..MANY {
        if stays(rule, number) {
            count = count.wrapping_add(1);
        }
    }
    count
}

// None stays, one in ten, those before, those after, one in three, and one alone.
const RULES: [(u64, u64, u64); 6] = [
    (0, 0, 1),
    (0, MANY, 10),
    (0, 100, 1),
    (200, MANY, 1),
    (0, MANY, 3),
    (150, 151, 1),
];

fn retains(alloc: Global, rule: Rule) -> Result<bool, TryReserveError> {
    let mut map = owners(alloc, 0, MANY, 1)?;
    map.retain(|key, _value| stays(rule, key.number));
    Ok(map.len() == count_of(rule))
}

#[test]
fn retain_gives_up_each_pair_and_each_node_that_it_empties(rt: HostRuntime) {
    for (first, end, step) in RULES {
        assert!(rt; is_right(retains(rt.alloc(), Rule { first, end, step })));
    }
}

// Each second one that is taken out goes into another map, and the others are dropped.
fn hands_on(
    alloc: Global,
    map: &mut Owners,
    others: &mut Owners,
    rule: Rule,
) -> Result<bool, TryReserveError> {
    put_owners(alloc, map, 0, MANY, 1)?;
    let mut is_refused = false;
    map.extract_if(
        |key, _value| !stays(rule, key.number),
        |key, value| {
            if key.number % 2 == 0 {
                is_refused = others.try_insert(key, value).is_err() || is_refused;
            }
        },
    );
    Ok(
        is_refused
            || map.len() == count_of(rule) && map.len().wrapping_add(others.len()) <= MANY as usize,
    )
}

fn extracts(alloc: Global, rule: Rule) -> Result<bool, TryReserveError> {
    let mut map = Owners::new(alloc);
    let mut others = Owners::new(alloc);
    hands_on(alloc, &mut map, &mut others, rule)
}

#[test]
fn extract_if_hands_each_pair_on_and_gives_up_each_node_that_it_empties(rt: HostRuntime) {
    for (first, end, step) in RULES {
        assert!(rt; is_right(extracts(rt.alloc(), Rule { first, end, step })));
    }
}

// Takes each number out, always so many on and round: its value, its pair, or its pair by its entry.
fn removes_each(alloc: Global, step: u64) -> Result<bool, TryReserveError> {
    let mut map = owners(alloc, 0, MANY, 1)?;
    for place in 0..MANY {
        let number = place.wrapping_mul(step) % MANY;
        let key = Owned::try_new(alloc, number)?;
        let is_taken = match place % 3 {
            0 => is_number(map.remove(&key), number),
            1 => is_pair(map.remove_entry(&key), number),
            _ => removes_entry(&mut map, key)?,
        };
        if !is_taken {
            return Ok(false);
        }
    }
    Ok(map.is_empty())
}

fn removes_entry(map: &mut Owners, key: Owned) -> Result<bool, TryReserveError> {
    let number = key.number;
    match map.try_entry(key)? {
        Entry::Occupied(entry) => Ok(entry.remove().number == number),
        Entry::Vacant(_entry) => Ok(false),
    }
}

#[test]
fn removals_give_up_keys_and_merged_nodes_in_any_order(rt: HostRuntime) {
    for step in [1, 7, 149, 299] {
        assert!(rt; is_right(removes_each(rt.alloc(), step)));
    }
}

// The new value takes the place of the old one, which is answered: by an insertion, whose key is dropped, and by an entry. Where one is there, an entry drops what it is offered.
fn replaces_each(alloc: Global) -> Result<bool, TryReserveError> {
    let mut map = owners(alloc, 0, FEW, 1)?;
    for number in 0..FEW {
        let (key, value) = pair(alloc, number)?;
        let is_old = is_number(map.try_insert(key, value)?, number);
        let (key, value) = pair(alloc, number)?;
        let is_there = match map.try_entry(key)? {
            Entry::Occupied(mut entry) => entry.insert(value).number == number,
            Entry::Vacant(_entry) => false,
        };
        let (key, value) = pair(alloc, number)?;
        let is_kept = map.try_entry(key)?.or_try_insert(value)?.number == number;
        if !is_old || !is_there || !is_kept {
            return Ok(false);
        }
    }
    Ok(map.len() as u64 == FEW)
}

#[test]
fn a_replaced_value_and_the_key_beside_it_are_given_up(rt: HostRuntime) {
    assert!(rt; is_right(replaces_each(rt.alloc())));
}

// The vacant number is put in by its entry, as a value, by a closure, and once its nodes are ready; or it is not, and its key comes back or is dropped.
fn enters(
    map: &mut Owners,
    alloc: Global,
    number: u64,
    turn: u64,
) -> Result<bool, TryReserveError> {
    let (key, value) = pair(alloc, number)?;
    let Entry::Vacant(entry) = map.try_entry(key)? else {
        return Ok(false);
    };
    match turn {
        0 => Ok(entry.into_key().number == number),
        1 => Ok(entry.try_ready()?.into_key().number == number),
        2 => Ok(entry.try_ready()?.key().number == number),
        3 => {
            let Ok(there) = entry.try_ready()?.insert(value);
            Ok(there.number == number)
        }
        _ => Ok(entry.try_insert(value)?.number == number),
    }
}

// On maps that are empty, of one full leaf, and whose last path is full: so none, one, two and three nodes are made ready after the last number.
fn enters_each(alloc: Global, len: u64) -> Result<bool, TryReserveError> {
    for turn in 0..5 {
        let mut map = owners(alloc, 0, len, 1)?;
        let is_right = enters(&mut map, alloc, len, turn)?;
        if !is_right || map.len() as u64 != len.wrapping_add(u64::from(turn > 2)) {
            return Ok(false);
        }
    }
    Ok(true)
}

#[test]
fn a_ready_entry_that_is_dropped_or_gives_its_key_back_gives_up_each_node(rt: HostRuntime) {
    for len in [0, 15, 16, 150] {
        assert!(rt; is_right(enters_each(rt.alloc(), len)));
    }
}

// Two maps of one full leaf, each with one more pair, which come back where one is refused.
fn are_put_or_come_back(
    alloc: Global,
    a: &mut Owners,
    b: &mut Owners,
) -> Result<bool, TryReserveError> {
    put_owners(alloc, a, 0, 15, 1)?;
    put_owners(alloc, b, 0, 15, 1)?;
    let (first, value) = pair(alloc, 15)?;
    let (second, other) = pair(alloc, 15)?;
    let is_new = match insert_both(a, b, first, value, second, other) {
        Ok((old, other_old)) => old.is_none() && other_old.is_none(),
        Err(back) => back.0.number == 15
            && back.2.number == 15
            && a.len() == CAPACITY
            && b.len() == CAPACITY,
    };
    Ok(is_new)
}

fn puts_both(alloc: Global) -> Result<bool, TryReserveError> {
    let mut a = Owners::new(alloc);
    let mut b = Owners::new(alloc);
    are_put_or_come_back(alloc, &mut a, &mut b)
}

#[test]
fn two_pairs_go_in_or_come_back_with_each_node_given_up(rt: HostRuntime) {
    assert!(rt; is_right(puts_both(rt.alloc())));
}

// At keys that are there both values are replaced, and both keys dropped.
fn are_replaced(alloc: Global, a: &mut Owners, b: &mut Owners) -> Result<bool, TryReserveError> {
    let (first, value) = pair(alloc, 7)?;
    let (second, other) = pair(alloc, 8)?;
    let (old, other_old) = insert_both(a, b, first, value, second, other)?;
    Ok(is_number(old, 7) && is_number(other_old, 8))
}

// The key of an insertion with room is dropped too where it is there.
fn uses_no_place(
    alloc: Global,
    map: &mut Owners,
    reservation: &mut Reservation<Owned, Owned>,
) -> Result<bool, TryReserveError> {
    let (key, value) = pair(alloc, 9)?;
    let is_there = reservation.places() == 1
        && map.len() < reservation.pairs()
        && is_number(map.insert_reserved(reservation, key, value), 9);
    Ok(is_there && reservation.places() == 1)
}

fn all_are_replaced(
    alloc: Global,
    a: &mut Owners,
    b: &mut Owners,
) -> Result<bool, TryReserveError> {
    put_owners(alloc, a, 0, FEW, 1)?;
    put_owners(alloc, b, 0, FEW, 1)?;
    let mut reservation = a.try_reserve_nodes(1)?;
    let are_both = are_replaced(alloc, a, b)?;
    Ok(are_both && uses_no_place(alloc, a, &mut reservation)?)
}

fn replaces_both(alloc: Global) -> Result<bool, TryReserveError> {
    let mut a = Owners::new(alloc);
    let mut b = Owners::new(alloc);
    all_are_replaced(alloc, &mut a, &mut b)
}

#[test]
fn keys_that_are_there_are_given_up_by_two_insertions_and_with_a_reservation(rt: HostRuntime) {
    assert!(rt; is_right(replaces_both(rt.alloc())));
}
