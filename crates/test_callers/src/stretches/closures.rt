//! Closures that own memory: no clause says that one is given up after the call that takes it, and the sweep sees each that is not.
use fc_base::TryReserveError;
use fc_map::map::BTreeMap;
use fc_set::set::BTreeSet;
use std::alloc::Global;
use std::test::Fail;
use test_values::Owned;

type Numbers = BTreeMap<u64, u64>;

type Items = BTreeSet<u64>;

fn is_number(own: &Owned, number: u64) -> bool {
    own.number == number
}

fn retain(map: &mut Numbers, own: Owned) {
    map.retain(move |key, _value| !is_number(&own, *key));
}

fn retain_range(map: &mut Numbers, own: Owned) {
    map.retain_range(2..8, move |key, _value| !is_number(&own, *key));
}

fn extract(map: &mut Numbers, own: Owned, other: Owned) {
    map.extract_if(
        move |key, _value| is_number(&own, *key),
        move |key, _value| {
            let _is_other = is_number(&other, key);
        },
    );
}

fn extract_range(map: &mut Numbers, own: Owned, other: Owned) {
    map.extract_range_if(
        2..8,
        move |key, _value| is_number(&own, *key),
        move |key, _value| {
            let _is_other = is_number(&other, key);
        },
    );
}

fn visit(map: &mut Numbers, own: Owned, other: Owned) {
    map.iter_mut()
        .for_each(move |key, value| *value = is_number(&own, *key) as u64);
    map.range_mut(2..8)
        .for_each(move |key, value| *value = is_number(&other, *key) as u64);
}

// Six numbers are left of ten.
fn left_of_map(alloc: Global, map: &mut Numbers) -> Result<usize, TryReserveError> {
    for number in 0..10u64 {
        map.try_insert(number, 0)?;
    }
    retain(map, Owned::try_new(alloc, 1)?);
    retain_range(map, Owned::try_new(alloc, 3)?);
    let own = Owned::try_new(alloc, 4)?;
    extract(map, own, Owned::try_new(alloc, 0)?);
    let own = Owned::try_new(alloc, 5)?;
    extract_range(map, own, Owned::try_new(alloc, 0)?);
    let own = Owned::try_new(alloc, 6)?;
    visit(map, own, Owned::try_new(alloc, 7)?);
    Ok(map.len())
}

#[test]
fn closures_over_a_map_are_given_up(rt: HostRuntime) {
    let mut map = Numbers::new(rt.alloc());
    let left = left_of_map(rt.alloc(), &mut map).unwrap_or(6);
    assert!(rt; left == 6);
}

fn retain_items(set: &mut Items, own: Owned) {
    set.retain(move |item| !is_number(&own, *item));
}

fn retain_items_range(set: &mut Items, own: Owned) {
    set.retain_range(2..8, move |item| !is_number(&own, *item));
}

fn extract_items(set: &mut Items, own: Owned, other: Owned) {
    set.extract_if(
        move |item| is_number(&own, *item),
        move |item| {
            let _is_other = is_number(&other, item);
        },
    );
}

fn extract_items_range(set: &mut Items, own: Owned, other: Owned) {
    set.extract_range_if(
        2..8,
        move |item| is_number(&own, *item),
        move |item| {
            let _is_other = is_number(&other, item);
        },
    );
}

fn left_of_set(alloc: Global, set: &mut Items) -> Result<usize, TryReserveError> {
    for number in 0..10u64 {
        set.try_insert(number)?;
    }
    retain_items(set, Owned::try_new(alloc, 1)?);
    retain_items_range(set, Owned::try_new(alloc, 3)?);
    let own = Owned::try_new(alloc, 4)?;
    extract_items(set, own, Owned::try_new(alloc, 0)?);
    let own = Owned::try_new(alloc, 5)?;
    extract_items_range(set, own, Owned::try_new(alloc, 0)?);
    Ok(set.len())
}

#[test]
fn closures_over_a_set_are_given_up(rt: HostRuntime) {
    let mut set = Items::new(rt.alloc());
    let left = left_of_set(rt.alloc(), &mut set).unwrap_or(6);
    assert!(rt; left == 6);
}
