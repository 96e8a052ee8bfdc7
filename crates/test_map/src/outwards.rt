//! A map that grows from its middle to both sides and is then emptied from its front: what it walks, and what its calls compare.
use crate::numbers::{is_lent, is_number};
use crate::sizes::LEVEL_COMPARISONS;
use crate::sorted::greatest_levels;
use fc_base::TryReserveError;
use fc_map::map::BTreeMap;
use std::alloc::Global;
use std::cell::Cell;
use std::test::Fail;
use test_values::CountingKey;

type Counted<'a> = BTreeMap<CountingKey<'a>, u64>;

const LAST: u64 = 1000;

fn insert<'a>(
    map: &mut Counted<'a>,
    number: u64,
    comparisons: &'a Cell<u64>,
) -> Result<(), TryReserveError> {
    let key = CountingKey {
        number,
        comparisons,
    };
    map.try_insert(key, number)?;
    Ok(())
}

// The numbers from 1 to the last, each with itself: of the upper half and of the lower half one in turn, from the middle on.
fn outwards<'a>(alloc: Global, comparisons: &'a Cell<u64>) -> Result<Counted<'a>, TryReserveError> {
    let mut map = BTreeMap::new(alloc);
    for i in 0..500u64 {
        insert(&mut map, i.wrapping_add(501), comparisons)?;
        insert(&mut map, 500u64.wrapping_sub(i), comparisons)?;
    }
    Ok(map)
}

fn counts_up(map: &Counted<'_>) -> bool {
    let mut number = 0u64;
    for (key, value) in map {
        number = number.wrapping_add(1);
        if key.number != number || *value != number {
            return false;
        }
    }
    number == LAST
}

// Whether so many comparisons are allowed of a call on one key among so many pairs.
fn is_within_bounds(comparisons: u64, pairs: u64) -> bool {
    comparisons <= greatest_levels(pairs).wrapping_mul(LEVEL_COMPARISONS)
}

fn finds_each<'a>(map: &Counted<'a>, comparisons: &'a Cell<u64>) -> bool {
    for below in 0..LAST {
        let number = below.wrapping_add(1);
        let key = CountingKey {
            number,
            comparisons,
        };
        comparisons.set(0);
        if !is_lent(map.get(&key), number) || !is_within_bounds(comparisons.get(), LAST) {
            return false;
        }
    }
    true
}

fn removes_each<'a>(map: &mut Counted<'a>, comparisons: &'a Cell<u64>) -> bool {
    for below in 0..LAST {
        let number = below.wrapping_add(1);
        let key = CountingKey {
            number,
            comparisons,
        };
        comparisons.set(0);
        let value = map.remove(&key);
        if !is_number(value, number)
            || !is_within_bounds(comparisons.get(), LAST.wrapping_sub(below))
        {
            return false;
        }
    }
    map.is_empty()
}

// A thousand pairs have three levels at most, so that a look-up makes at most 45 comparisons.
#[test]
fn a_map_that_grows_outwards_compares_within_its_bounds(rt: HostRuntime) -> Result<(), Fail> {
    let comparisons = Cell::new(0);
    let mut map = outwards(rt.alloc(), &comparisons)?;
    assert!(rt; is_within_bounds(45, LAST) && !is_within_bounds(46, LAST));
    assert!(rt; counts_up(&map) && finds_each(&map, &comparisons));
    assert!(rt; removes_each(&mut map, &comparisons));
    Ok(())
}
