//! Maps as a whole: walks that own what they give, equality and copies, beside a walk that borrows.
use super::row::{Numbers, change, next};
use fc_base::{TryClone, TryReserveError};
use fc_intervals::IntervalMap;
use std::alloc::Global;
use std::test::Fail;
use test_values::Owned;

// A map after so many changes.
fn changed(alloc: Global, seed: u64, changes: usize) -> Result<Numbers, TryReserveError> {
    let mut map = IntervalMap::default(alloc);
    let mut row = [0; 24];
    let mut drawn = seed;
    for _ in 0..changes {
        drawn = next(drawn);
        change(&mut map, &mut row, drawn)?;
    }
    Ok(map)
}

// Whether the owned walk gives all stretches of a map, in order.
fn gives_all(map: &Numbers, owned: Numbers) -> bool {
    let mut walk = owned.into_iter();
    for (start, stretch) in map.iter() {
        let Some((own_start, own_stretch)) = walk.next() else {
            return false;
        };
        if own_start != *start || own_stretch != *stretch {
            return false;
        }
    }
    walk.next().is_none()
}

// Whether a copy of a map has all that it has, and another one stays as it is where the map changes.
fn has_copies(map: &mut Numbers) -> Result<bool, TryReserveError> {
    let copy = map.try_clone()?;
    if copy != *map || !gives_all(map, copy) {
        return Ok(false);
    }
    let copy = map.try_clone()?;
    map.try_put(5..6, 1000)?;
    Ok(copy != *map && copy.get(5) != Some(&1000))
}

#[test]
fn a_copy_has_all_stretches_and_is_apart(rt: HostRuntime) -> Result<(), Fail> {
    for seed in 0..10u64 {
        let mut map = changed(rt.alloc(), seed, 30)?;
        assert!(rt; has_copies(&mut map)?);
    }
    Ok(())
}

// Stretches that touch are not those that are joined, though each point has the value that it had.
#[test]
fn equal_are_the_same_stretches(rt: HostRuntime) -> Result<(), Fail> {
    let mut map: Numbers = IntervalMap::default(rt.alloc());
    let mut other: Numbers = IntervalMap::new(rt.alloc());
    assert!(rt; map == other);
    map.try_put(10..30, 1)?;
    assert!(rt; map != other);
    other.try_put(10..29, 1)?;
    assert!(rt; map != other);
    other.try_put(10..30, 2)?;
    assert!(rt; map != other);
    other.try_put(10..30, 1)?;
    assert!(rt; map == other);
    other.try_split_at(20)?;
    assert!(rt; map != other && other.join_at(20) && map == other);
    Ok(())
}

// The sweep refuses each request in turn: of the values, of the nodes, and of their copies.
#[test]
fn what_is_copied_or_walked_over_is_given_up(rt: HostRuntime) {
    let mut map: IntervalMap<u64, Owned> = IntervalMap::new(rt.alloc());
    for number in 0..20u64 {
        let Ok(value) = Owned::try_new(rt.alloc(), number) else {
            return;
        };
        if map.try_put(number..number.wrapping_add(1), value).is_err() {
            return;
        }
    }
    let Ok(copy) = map.try_clone() else {
        assert!(rt; map.len() == 20);
        return;
    };
    // What the walk has not given yet goes with it.
    let mut walk = copy.into_iter();
    let first = walk.next().map(|pair| pair.1.value.number);
    let last = walk.next_back().map(|pair| pair.1.value.number);
    assert!(rt; first == Some(0) && last == Some(19) && map.len() == 20);
}
