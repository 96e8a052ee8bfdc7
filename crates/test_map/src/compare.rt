//! Maps of values that equal nothing, maps as keys of a map and fed to a hasher.
use crate::numbers::{Numbers, is_lent};
use fc_base::TryReserveError;
use fc_map::map::BTreeMap;
use std::alloc::Global;
use std::hash::{DefaultHasher, Hash, Hasher};
use std::test::Fail;

fn put_all(map: &mut Numbers, pairs: &[(u64, u64)]) -> Result<(), TryReserveError> {
    for (key, value) in pairs {
        map.try_insert(*key, *value)?;
    }
    Ok(())
}

type Floats = BTreeMap<u64, f64>;

fn are_unordered(one: &Floats, other: &Floats) -> bool {
    *one != *other && one.partial_cmp(other).is_none()
}

// Whether the map is greater once the other one has a lower key.
fn is_greater(map: &Floats, other: &mut Floats) -> bool {
    other.try_insert(0, 0.0).is_ok() && *map > *other
}

fn are_apart(map: &mut Floats, other: &mut Floats) -> Result<bool, TryReserveError> {
    map.try_insert(1, f64::NAN)?;
    other.try_insert(1, f64::NAN)?;
    Ok(are_unordered(map, other) && is_greater(map, other))
}

fn equals_nothing(alloc: Global) -> Result<bool, TryReserveError> {
    let mut map = Floats::new(alloc);
    let mut other = Floats::new(alloc);
    are_apart(&mut map, &mut other)
}

#[test]
fn a_value_that_equals_nothing_makes_maps_unequal(rt: HostRuntime) -> Result<(), Fail> {
    assert!(rt; equals_nothing(rt.alloc())?);
    Ok(())
}

type Names = BTreeMap<BTreeMap<u64, u64>, u64>;

fn put_name(alloc: Global, names: &mut Names, number: u64) -> Result<(), TryReserveError> {
    let mut name = Numbers::new(alloc);
    put_all(&mut name, &[(number, 1), (number.wrapping_add(1), 2)])?;
    names.try_insert(name, number)?;
    Ok(())
}

fn put_names(alloc: Global, names: &mut Names) -> Result<(), TryReserveError> {
    for number in 0..20u64 {
        put_name(alloc, names, number)?;
    }
    Ok(())
}

fn is_found(names: &Names, there: &Numbers, absent: &Numbers) -> bool {
    is_lent(names.get(there), 7) && names.get(absent).is_none()
}

fn finds_a_map(
    alloc: Global,
    names: &mut Names,
    there: &mut Numbers,
    absent: &mut Numbers,
) -> Result<bool, TryReserveError> {
    put_names(alloc, names)?;
    put_all(there, &[(8, 2), (7, 1)])?;
    put_all(absent, &[(7, 1)])?;
    Ok(is_found(names, there, absent))
}

fn is_key_of_a_map(alloc: Global) -> Result<bool, TryReserveError> {
    let mut names = Names::new(alloc);
    let mut there = Numbers::new(alloc);
    let mut absent = Numbers::new(alloc);
    finds_a_map(alloc, &mut names, &mut there, &mut absent)
}

#[test]
fn a_map_is_a_key_of_a_map(rt: HostRuntime) -> Result<(), Fail> {
    assert!(rt; is_key_of_a_map(rt.alloc())?);
    Ok(())
}

// What a hasher tells that is fed two maps.
fn hash_of_maps(one: &BTreeMap<u64, u64>, other: &BTreeMap<u64, u64>) -> u64 {
    let mut hasher = DefaultHasher::new();
    one.hash(&mut hasher);
    other.hash(&mut hasher);
    hasher.finish()
}

fn hash_of_numbers(numbers: &[u64]) -> u64 {
    let mut hasher = DefaultHasher::new();
    for number in numbers {
        number.hash(&mut hasher);
    }
    hasher.finish()
}

// Of a pair and no pair, and of no pair and a pair.
fn hashes_of(pair: &mut Numbers, none: &Numbers) -> Result<(u64, u64), TryReserveError> {
    put_all(pair, &[(1, 2)])?;
    Ok((hash_of_maps(pair, none), hash_of_maps(none, pair)))
}

fn hashes(alloc: Global) -> Result<(u64, u64), TryReserveError> {
    let mut pair = Numbers::new(alloc);
    let none = Numbers::new(alloc);
    hashes_of(&mut pair, &none)
}

#[test]
fn a_hasher_is_fed_keys_and_values_and_nothing_else(rt: HostRuntime) -> Result<(), Fail> {
    let (first, second) = hashes(rt.alloc())?;
    assert!(rt; first == hash_of_numbers(&[1, 2]));
    assert!(rt; second == hash_of_numbers(&[1, 2]));
    Ok(())
}
