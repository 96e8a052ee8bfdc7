use callers_of_map::into_iter::{collected, ends_of};
use callers_of_map::iter_mut::{raise_each, write_all, write_first, write_range};
use callers_of_map::refusals::{put_both, put_each, put_once, put_or_hand_on, put_twice};
use fc_base::TryReserveError;
use fc_map::map::{BTreeMap, is_range};
use std::alloc::Global;
use std::ops::Bound;
use std::test::Fail;

type Numbers = BTreeMap<u64, u64>;

// The numbers below the count, each with itself.
fn numbers(alloc: Global, count: u64) -> Result<Numbers, TryReserveError> {
    let mut map = BTreeMap::new(alloc);
    for number in 0..count {
        map.try_insert(number, number)?;
    }
    Ok(map)
}

fn has(map: &Numbers, number: u64, wanted: u64) -> bool {
    match map.get(&number) {
        Some(value) => *value == wanted,
        None => false,
    }
}

fn is_pair(item: Option<(u64, u64)>, number: u64) -> bool {
    match item {
        Some((key, value)) => key == number && value == number,
        None => false,
    }
}

// Whether the pairs are the numbers from 0 on, each with itself.
fn counts_up(pairs: &[(u64, u64)]) -> bool {
    for i in 0..pairs.len() {
        if pairs[i].0 != i as u64 || pairs[i].1 != i as u64 {
            return false;
        }
    }
    true
}

#[test]
fn pairs_are_collected(rt: HostRuntime) -> Result<(), Fail> {
    let all = collected(rt.alloc(), numbers(rt.alloc(), 100)?)?;
    assert!(rt; all.len() == 100 && counts_up(&all));
    Ok(())
}

// Whether the ends of a map are these; a map of one pair has no last one.
fn has_ends(map: Numbers, last: Option<u64>) -> bool {
    let (first, end) = ends_of(map);
    is_pair(first, 0)
        && match last {
            Some(number) => is_pair(end, number),
            None => end.is_none(),
        }
}

#[test]
fn the_ends_are_the_first_and_the_last_pair(rt: HostRuntime) -> Result<(), Fail> {
    assert!(rt; has_ends(numbers(rt.alloc(), 100)?, Some(99)));
    assert!(rt; has_ends(numbers(rt.alloc(), 1)?, None));
    Ok(())
}

fn has_three(map: &Numbers, values: [u64; 3]) -> bool {
    has(map, 0, values[0]) && has(map, 1, values[1]) && has(map, 2, values[2])
}

// Whether the writes between the bounds meet so many values.
fn writes_in_range(map: &mut Numbers, start: u64, writes: &[(bool, u64)], met: usize) -> bool {
    let bounds = (Bound::Included(&start), Bound::Unbounded);
    is_range(&bounds.0, &bounds.1) && write_range(map, bounds, writes) == met
}

#[test]
fn callers_write_in_turn(rt: HostRuntime) -> Result<(), Fail> {
    let mut map = numbers(rt.alloc(), 3)?;
    assert!(rt; map.len() > 0);
    write_first(&mut map, 7);
    assert!(rt; has_three(&map, [7, 1, 2]));
    write_all(
        &mut map,
        &[(true, 10), (false, 20), (false, 30), (true, 40)],
    );
    assert!(rt; has_three(&map, [10, 30, 20]));
    assert!(rt; writes_in_range(&mut map, 1, &[(false, 50), (true, 60), (true, 70)], 2));
    assert!(rt; has_three(&map, [10, 60, 50]));
    Ok(())
}

#[test]
fn callers_raise_each_value(rt: HostRuntime) -> Result<(), Fail> {
    let mut map = numbers(rt.alloc(), 2)?;
    write_all(&mut map, &[(true, 4), (true, u64::MAX)]);
    raise_each(&mut map);
    assert!(rt; has(&map, 0, 5) && has(&map, 1, u64::MAX));
    Ok(())
}

// Whether callers put the numbers from 0 on in, each with itself: one, two, the rest of a list, and one more.
fn put_all_in(alloc: Global, map: &mut Numbers) -> Result<bool, TryReserveError> {
    let mut pairs = Vec::new(alloc);
    pairs.push((3, 3))?;
    pairs.push((4, 4))?;
    let is_new = put_once(map, 0, 0)?.is_none();
    put_twice(map, (1, 1), (2, 2))?;
    put_each(map, pairs)?;
    Ok(is_new && put_or_hand_on(map, 5, 5)? == 6)
}

// One pair goes into each of two maps, and answers what was there.
#[test]
fn callers_put_a_pair_into_each_of_two_maps(rt: HostRuntime) -> Result<(), Fail> {
    let mut first = numbers(rt.alloc(), 2)?;
    let mut second = numbers(rt.alloc(), 0)?;
    let old = put_both(&mut first, &mut second, (1, 5), (7, 8))?;
    assert!(rt; old.0 == Some(1) && old.1.is_none());
    assert!(rt; has(&first, 1, 5) && has(&second, 7, 8));
    Ok(())
}

#[test]
fn callers_put_pairs_in(rt: HostRuntime) -> Result<(), Fail> {
    let mut map = numbers(rt.alloc(), 0)?;
    assert!(rt; put_all_in(rt.alloc(), &mut map)?);
    assert!(rt; counts_up(&collected(rt.alloc(), map)?));
    Ok(())
}
