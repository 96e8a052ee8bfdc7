//! The first gap that is long enough, beside a plain row that has the value of each point.
use super::row::{Numbers, Row, change, next};
use fc_base::TryReserveError;
use fc_intervals::IntervalMap;
use std::alloc::Global;
use std::test::Fail;

// Whether no point from a start up to, and without, an end has a value.
fn is_free(row: &Row, start: u64, end: u64) -> bool {
    let mut point = 0u64;
    for value in row {
        if start <= point && point < end && *value != 0 {
            return false;
        }
        point = point.wrapping_add(1);
    }
    true
}

// The least start from which so many points lie in a range and are free.
fn first_free(row: &Row, from: u64, to: u64, len: u64) -> Option<u64> {
    for start in 0..25u64 {
        let end = start.wrapping_add(len);
        if from <= start && end <= to && is_free(row, start, end) {
            return Some(start);
        }
    }
    None
}

// Whether the map finds what the row has, in all ranges that start at a point, for gaps of a length.
fn finds(map: &Numbers, row: &Row, from: u64, len: u64) -> bool {
    for to in 0..25u64 {
        if map.first_gap(from..to, len) != first_free(row, from, to, len) {
            return false;
        }
    }
    true
}

// Whether it does after so many changes.
fn finds_gaps(alloc: Global, seed: u64, changes: usize) -> Result<bool, TryReserveError> {
    let mut map = IntervalMap::new(alloc);
    let mut row = [0; 24];
    let mut drawn = seed;
    for _ in 0..changes {
        drawn = next(drawn);
        change(&mut map, &mut row, drawn)?;
    }
    for both in 0..150u64 {
        if !finds(&map, &row, both / 6, both % 6) {
            return Ok(false);
        }
    }
    Ok(true)
}

#[test]
fn the_first_gap_that_is_long_enough(rt: HostRuntime) -> Result<(), Fail> {
    for seed in 0..10u64 {
        assert!(rt; finds_gaps(rt.alloc(), seed, 4)?);
    }
    Ok(())
}

#[test]
fn gaps_at_the_ends_of_all_points(rt: HostRuntime) -> Result<(), Fail> {
    let mut map: Numbers = IntervalMap::new(rt.alloc());
    assert!(rt; map.first_gap(0..u64::MAX, u64::MAX) == Some(0));
    map.try_put(10..u64::MAX, 1)?;
    assert!(rt;
        map.first_gap(0..u64::MAX, 10) == Some(0) && map.first_gap(0..u64::MAX, 11).is_none()
    );
    assert!(rt; map.first_gap(20..20, 0) == Some(20) && map.first_gap(20..19, 0).is_none());
    Ok(())
}
