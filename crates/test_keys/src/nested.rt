//! A map of maps: the inner ones are put in by entries, changed by entries and through a lent value, copied with the outer one, and each
//! value is dropped once.
use fc_base::{TryClone, TryReserveError};
use fc_map::map::BTreeMap;
use std::alloc::Global;
use std::test::Fail;
use test_values::{Tally, Token};

type Inner<'a> = BTreeMap<u64, Token<'a>>;

type Outer<'a> = BTreeMap<u64, Inner<'a>>;

// So many inner maps stand on three levels, since two hold at most 255; each of so many values stands on two.
const MAPS: u64 = 260;

const VALUES: u64 = 20;

fn put_in<'a>(inner: &mut Inner<'a>, number: u64, tally: &'a Tally) -> Result<(), TryReserveError> {
    inner.try_insert(number, Token::new(number, tally))?;
    Ok(())
}

// Puts a value in the inner map of that key, which is made where it is not there.
fn put<'a>(
    alloc: Global,
    outer: &mut Outer<'a>,
    at: u64,
    number: u64,
    tally: &'a Tally,
) -> Result<(), TryReserveError> {
    let inner = outer.try_entry(at)?.or_try_insert(BTreeMap::new(alloc))?;
    put_in(inner, number, tally)
}

// Puts the numbers below the count in each inner map, of which one in turn gets its next.
fn fill<'a>(alloc: Global, outer: &mut Outer<'a>, tally: &'a Tally) -> Result<(), TryReserveError> {
    for number in 0..VALUES {
        for place in 0..MAPS {
            put(alloc, outer, place.wrapping_mul(37) % MAPS, number, tally)?;
        }
    }
    Ok(())
}

fn counts_up(inner: &Inner<'_>, first: u64) -> bool {
    let mut number = first;
    for (key, value) in inner {
        if *key != number || value.number != number {
            return false;
        }
        number = number.wrapping_add(1);
    }
    number == VALUES
}

// Whether each inner map has the numbers from this one on.
fn holds(outer: &Outer<'_>, first: u64) -> bool {
    let mut at = 0u64;
    for (key, inner) in outer {
        if *key != at || !counts_up(inner, first) {
            return false;
        }
        at = at.wrapping_add(1);
    }
    at == MAPS
}

fn is_token(taken: Option<Token<'_>>, number: u64) -> bool {
    match taken {
        Some(value) => value.number == number,
        None => false,
    }
}

// Takes the number out of the inner map, which is lent.
fn take_out(outer: &mut Outer<'_>, at: u64, number: u64) -> bool {
    match outer.get_mut(&at) {
        Some(inner) => is_token(inner.remove(&number), number),
        None => false,
    }
}

// Takes the first four numbers out of each inner map.
fn takes_four(outer: &mut Outer<'_>) -> bool {
    for at in 0..MAPS {
        for number in 0..4 {
            if !take_out(outer, at, number) {
                return false;
            }
        }
    }
    true
}

// Whether a copy has all values, and what is then taken out of the outer map is still in the copy.
fn is_copied_apart<'a>(outer: &mut Outer<'a>, tally: &'a Tally) -> Result<bool, TryReserveError> {
    let copy = outer.try_clone()?;
    let is_copied = holds(&copy, 0) && tally.living() == 2 * MAPS * VALUES;
    let is_apart = takes_four(outer) && holds(outer, 4) && holds(&copy, 0);
    Ok(is_copied && is_apart && tally.living() == 2 * MAPS * VALUES - MAPS * 4)
}

// Whether an inner map that is written over, and one that is taken out, are dropped with their values.
fn drops_with_its_map<'a>(
    alloc: Global,
    outer: &mut Outer<'a>,
    tally: &'a Tally,
) -> Result<bool, TryReserveError> {
    let before = tally.living();
    let old = outer.try_insert(100, BTreeMap::new(alloc))?;
    let is_kept = tally.living() == before;
    drop(old);
    let is_one_gone = tally.living() == before.wrapping_sub(16);
    drop(outer.remove(&200));
    Ok(is_kept && is_one_gone && tally.living() == before.wrapping_sub(32))
}

fn is_right<'a>(
    alloc: Global,
    outer: &mut Outer<'a>,
    tally: &'a Tally,
) -> Result<bool, TryReserveError> {
    fill(alloc, outer, tally)?;
    Ok(
        holds(outer, 0)
            && tally.living() == MAPS * VALUES
            && is_copied_apart(outer, tally)?
            && drops_with_its_map(alloc, outer, tally)?,
    )
}

fn nested_maps_are_right(alloc: Global, tally: &Tally) -> Result<bool, TryReserveError> {
    let mut outer = Outer::new(alloc);
    is_right(alloc, &mut outer, tally)
}

#[test]
fn maps_in_a_map_are_changed_copied_and_dropped_once(rt: HostRuntime) -> Result<(), Fail> {
    let tally = Tally::new();
    assert!(rt; nested_maps_are_right(rt.alloc(), &tally)?);
    assert!(rt; tally.made.get() == 2 * MAPS * VALUES && tally.living() == 0);
    Ok(())
}
