//! Stretches that touch, cut apart and joined, beside a plain row that has the value of each point.
use super::row::{Numbers, Row, change, has_row, next, write};
use fc_base::TryReserveError;
use fc_intervals::IntervalMap;
use std::alloc::Global;
use std::test::Fail;

// Whether just those stretches are joined, at all points of the row in turn, that touch and hold equal values; and none of them twice.
fn joins(map: &mut Numbers, row: &Row) -> bool {
    let mut point = 0u64;
    let mut before = 0u64;
    for value in row {
        let goes_on = *value != 0 && *value == before;
        let len = map.len();
        if map.join_at(point) != goes_on || map.len().wrapping_add(goes_on as usize) != len {
            return false;
        }
        if map.join_at(point) || !has_row(map, row) {
            return false;
        }
        point = point.wrapping_add(1);
        before = *value;
    }
    true
}

// Whether stretches that were cut at all points are joined again, after so many changes.
fn are_joined(alloc: Global, seed: u64, changes: usize) -> Result<bool, TryReserveError> {
    let mut map = IntervalMap::new(alloc);
    let mut row = [0; 24];
    let mut drawn = seed;
    for _ in 0..changes {
        drawn = next(drawn);
        change(&mut map, &mut row, drawn)?;
    }
    for point in 0..25u64 {
        map.try_split_at(point)?;
    }
    Ok(joins(&mut map, &row))
}

#[test]
fn stretches_that_touch_are_joined(rt: HostRuntime) -> Result<(), Fail> {
    for seed in 0..40u64 {
        assert!(rt; are_joined(rt.alloc(), seed, 20)?);
    }
    Ok(())
}

#[test]
fn a_stretch_is_one_with_its_neighbours(rt: HostRuntime) -> Result<(), Fail> {
    let mut map: Numbers = IntervalMap::new(rt.alloc());
    for (range, value) in [(0..10, 7), (10..20, 8), (20..30, 7), (30..40, 7)] {
        assert!(rt; map.try_put(range, value).is_ok());
    }
    assert!(rt; map.try_put(10..20, 7).is_ok() && map.len() == 4);
    assert!(rt; map.join_at(10) && map.join_at(20) && !map.join_at(15) && map.len() == 2);
    assert!(rt; map.first().map(|found| found.0) == Some(0..30));
    assert!(rt;
        map.try_put(30..40, 9).is_ok() && !map.join_at(30) && !map.join_at(40) && map.len() == 2
    );
    Ok(())
}

// Whether two stretches touch and hold equal values.
fn has_joint(map: &Numbers) -> bool {
    let mut end = u64::MAX;
    let mut value = 0u64;
    for (start, stretch) in map.iter() {
        if *start == end && stretch.value == value {
            return true;
        }
        end = stretch.end;
        value = stretch.value;
    }
    false
}

// Whether the map has what the row has, in as few stretches as can be, after each of so many puts of one of two values.
fn puts_joined(alloc: Global, seed: u64, puts: usize) -> Result<bool, TryReserveError> {
    let mut map = IntervalMap::new(alloc);
    let mut row = [0; 24];
    let mut drawn = seed;
    for _ in 0..puts {
        drawn = next(drawn);
        let start = (drawn >> 33) % 24;
        let end = start.wrapping_add((drawn >> 40) % 8);
        let value = (drawn >> 52 & 1).wrapping_add(1);
        map.try_put_joined(start..end, value)?;
        write(&mut row, start, end, value);
        if !has_row(&map, &row) || has_joint(&map) {
            return Ok(false);
        }
    }
    Ok(true)
}

#[test]
fn a_stretch_is_put_and_joined(rt: HostRuntime) -> Result<(), Fail> {
    for seed in 0..20u64 {
        assert!(rt; puts_joined(rt.alloc(), seed, 40)?);
    }
    Ok(())
}
