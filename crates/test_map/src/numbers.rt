//! Maps of numbers, and whether an answer is the wanted one: plain answers, so that no test has to show how an `Option` or a pair is
//! compared and printed.
use fc_base::TryReserveError;
use fc_map::map::BTreeMap;
use std::alloc::Global;
use std::test::Fail;

pub(crate) type Numbers = BTreeMap<u64, u64>;

// An insertion, of which the tests know only what it answers.
pub(crate) fn insert(
    map: &mut Numbers,
    key: u64,
    value: u64,
) -> Result<Option<u64>, TryReserveError> {
    Ok(map.try_insert(key, value)?)
}

// Puts in the numbers from `first` on below `end`, each with itself times the factor, once more where one is refused: so that the map is refused only where
// there is no memory.
pub(crate) fn put_multiples(
    map: &mut Numbers,
    first: u64,
    end: u64,
    factor: u64,
) -> Result<(), TryReserveError> {
    for number in first..end {
        if insert(map, number, number.wrapping_mul(factor)).is_err() {
            insert(map, number, number.wrapping_mul(factor))?;
        }
    }
    Ok(())
}

pub(crate) fn multiples(
    alloc: Global,
    first: u64,
    end: u64,
    factor: u64,
) -> Result<Numbers, TryReserveError> {
    let mut map = BTreeMap::new(alloc);
    put_multiples(&mut map, first, end, factor)?;
    Ok(map)
}

// Whether the map has this value at the number.
pub(crate) fn has(map: &Numbers, number: u64, value: u64) -> bool {
    is_lent(map.get(&number), value)
}

// Whether the map has the numbers from 1 to the last, each with itself, and nothing else below 200.
pub(crate) fn has_up_to(map: &Numbers, last: u64) -> bool {
    for number in 0..200u64 {
        let is_there = 1 <= number && number <= last;
        if map.contains_key(&number) != is_there || is_there && !has(map, number, number) {
            return false;
        }
    }
    map.len() as u64 == last
}

pub(crate) fn is_lent(item: Option<&u64>, wanted: u64) -> bool {
    match item {
        Some(number) => *number == wanted,
        None => false,
    }
}

pub(crate) fn is_number(item: Option<u64>, wanted: u64) -> bool {
    match item {
        Some(number) => number == wanted,
        None => false,
    }
}

#[test]
fn a_map_by_default_is_empty(rt: HostRuntime) -> Result<(), Fail> {
    let mut map = Numbers::default(rt.alloc());
    assert!(rt; map.is_empty() && map.get(&0).is_none());
    assert!(rt; insert(&mut map, 1, 1)?.is_none() && has_up_to(&map, 1));
    Ok(())
}
