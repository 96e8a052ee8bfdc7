//! Insertions by entries.
use crate::insertions::{LENGTHS, OF_PAIRS};
use crate::least::{Call, Fate, all_but, done, least, refused};
use crate::numbers::{Numbers, holds, numbers};
use crate::sizes::{AMPLE, INNER, LEAF, TWO_LEVELS};
use fc_base::{Handle, TryReserveError};
use fc_budget::Budget;
use fc_map::map::{BTreeMap, Entry};
use std::alloc::Global;
use std::test::Fail;

// How a number is put in.
#[derive(Clone, Copy)]
enum Way {
    Vacant,
    OrInsert,
    OrInsertWith,
    Ready,
}

type Refusal = (u64, u64, TryReserveError);

fn by_vacant(map: &mut Numbers<'_>, number: u64) -> Result<bool, Refusal> {
    match map.try_entry(number) {
        Ok(Entry::Vacant(entry)) => Ok(*entry.try_insert(number)? == number),
        Ok(Entry::Occupied(_)) => Ok(false),
        Err(error) => Err((number, number, error)),
    }
}

fn by_or_insert(map: &mut Numbers<'_>, number: u64) -> Result<bool, Refusal> {
    match map.try_entry(number) {
        Ok(entry) => Ok(*entry.or_try_insert(number)? == number),
        Err(error) => Err((number, number, error)),
    }
}

fn by_or_insert_with(map: &mut Numbers<'_>, number: u64) -> Result<bool, Refusal> {
    match map.try_entry(number) {
        Ok(entry) => Ok(*entry.or_try_insert_with(|| number)? == number),
        Err(error) => Err((number, number, error)),
    }
}

fn by_ready(map: &mut Numbers<'_>, number: u64) -> Result<bool, Refusal> {
    match map.try_entry(number) {
        Ok(Entry::Vacant(entry)) => match entry.try_ready() {
            Ok(ready) => {
                let Ok(value) = ready.insert(number);
                Ok(*value == number)
            }
            Err((key, error)) => Err((key, number, error)),
        },
        Ok(Entry::Occupied(_)) => Ok(false),
        Err(error) => Err((number, number, error)),
    }
}

#[derive(Drop)]
struct Entering<'a> {
    map: Numbers<'a>,
    number: u64,
    way: Way,
}

impl Call for Entering<'_> {
    fn fate(&mut self) -> Fate {
        let number = self.number;
        let answer = match self.way {
            Way::Vacant => by_vacant(&mut self.map, number),
            Way::OrInsert => by_or_insert(&mut self.map, number),
            Way::OrInsertWith => by_or_insert_with(&mut self.map, number),
            Way::Ready => by_ready(&mut self.map, number),
        };
        match answer {
            Ok(is_put) => done(is_put && holds(&self.map, 0, number.wrapping_add(1), 1)),
            Err((key, value, error)) => refused(
                error,
                key == number && value == number && holds(&self.map, 0, number, 1),
            ),
        }
    }
}

fn least_of(budget: &Budget<Global>, number: u64, way: Way) -> Result<usize, TryReserveError> {
    let map = numbers(budget, 0, number, 1)?;
    least(budget, &mut Entering { map, number, way })
}

// As many as an insertion takes.
fn least_of_each(budget: &Budget<Global>, way: Way) -> Result<[usize; 5], TryReserveError> {
    let mut seen = [AMPLE; 5];
    for i in 0..5 {
        seen[i] = least_of(budget, LENGTHS[i], way)?;
    }
    Ok(seen)
}

#[test]
fn a_refused_entry_leaves_the_map(rt: HostRuntime) -> Result<(), Fail> {
    let budget = Budget::new(rt.alloc(), AMPLE);
    assert!(rt; least_of_each(&budget, Way::Vacant)? == OF_PAIRS);
    assert!(rt; least_of_each(&budget, Way::OrInsert)? == OF_PAIRS);
    assert!(rt; least_of_each(&budget, Way::OrInsertWith)? == OF_PAIRS);
    assert!(rt; least_of_each(&budget, Way::Ready)? == OF_PAIRS);
    assert!(rt; budget.used() == 0);
    Ok(())
}

// Puts the number in by nodes that are taken before, with no byte left after them: how many bytes these are, and whether it was put in.
fn puts_in_ready(
    budget: &Budget<Global>,
    map: &mut Numbers<'_>,
    number: u64,
) -> Result<(usize, bool), TryReserveError> {
    let before = budget.used();
    match map.try_entry(number) {
        Ok(Entry::Vacant(entry)) => match entry.try_ready() {
            Ok(ready) => {
                let taken = budget.used().wrapping_sub(before);
                let rest = all_but(budget, 0);
                let Ok(value) = ready.insert(number);
                let is_put = rest.is_ok() && *value == number;
                Ok((taken, is_put))
            }
            Err((_key, error)) => Err(error),
        },
        Ok(Entry::Occupied(_)) => Ok((0, false)),
        Err(error) => Err(error),
    }
}

// Whether the map has the number then, and how many bytes were taken for it and are out.
fn out_of_ready(budget: &Budget<Global>) -> Result<(bool, usize, usize), TryReserveError> {
    let mut map = numbers(budget, 0, TWO_LEVELS, 1)?;
    let before = budget.used();
    let (taken, is_put) = puts_in_ready(budget, &mut map, TWO_LEVELS)?;
    let is_right = is_put && holds(&map, 0, TWO_LEVELS + 1, 1);
    Ok((is_right, taken, budget.used().wrapping_sub(before)))
}

#[test]
fn an_entry_that_was_made_ready_takes_nothing_more(rt: HostRuntime) -> Result<(), Fail> {
    let budget = Budget::new(rt.alloc(), AMPLE);
    let (is_right, taken, out) = out_of_ready(&budget)?;
    assert!(rt; is_right);
    assert!(rt; (taken, out) == (LEAF + 2 * INNER, LEAF + 2 * INNER));
    assert!(rt; budget.used() == 0);
    Ok(())
}

// Makes the insertion ready, and gives the key back.
fn is_given_back<A: Handle>(
    map: &mut BTreeMap<u64, u64, A>,
    number: u64,
) -> Result<bool, TryReserveError> {
    match map.try_entry(number) {
        Ok(Entry::Vacant(entry)) => match entry.try_ready() {
            Ok(ready) => Ok(ready.into_key() == number),
            Err((_key, error)) => Err(error),
        },
        Ok(Entry::Occupied(_)) => Ok(false),
        Err(error) => Err(error),
    }
}

// Whether the key came back and the map is as it was, and how many bytes more are out.
fn out_of_given_back(budget: &Budget<Global>) -> Result<(bool, usize), TryReserveError> {
    let mut map = numbers(budget, 0, TWO_LEVELS, 1)?;
    let before = budget.used();
    let is_back = is_given_back(&mut map, TWO_LEVELS)?;
    let after = budget.used();
    let is_right = is_back && holds(&map, 0, TWO_LEVELS, 1);
    Ok((is_right, after.wrapping_sub(before)))
}

#[test]
fn nodes_that_are_not_used_go_back_to_the_budget(rt: HostRuntime) -> Result<(), Fail> {
    let budget = Budget::new(rt.alloc(), AMPLE);
    let (is_right, more) = out_of_given_back(&budget)?;
    assert!(rt; is_right);
    assert!(rt; (more, budget.used()) == (0, 0));
    Ok(())
}
