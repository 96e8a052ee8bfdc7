//! Ranges of numbers written and taken out, beside a plain row that has the value of each point.
use super::row::{Numbers, Row, change, has_row, next};
use fc_base::{Count, TryReserveError};
use fc_intervals::IntervalMap;
use std::alloc::Global;
use std::ops::Range;
use std::test::Fail;

// Whether no stretch is empty, none starts before the last one ends, and there are as many as the map tells.
fn are_apart(map: &Numbers) -> bool {
    let mut from = 0u64;
    let mut count = 0usize;
    for (start, stretch) in map.iter() {
        if *start < from || stretch.end <= *start {
            return false;
        }
        from = stretch.end;
        count = count.wrapping_add(1);
    }
    count == map.len() && map.is_empty() == (count == 0)
}

// Whether each stretch that is found at a point covers it, and has its value.
fn finds_stretches(map: &Numbers, row: &Row) -> bool {
    let mut point = 0u64;
    for wanted in row {
        let found = match map.get_key_value(point) {
            Some((range, value)) => {
                if point < range.start || range.end <= point {
                    return false;
                }
                *value
            }
            None => 0,
        };
        if found != *wanted {
            return false;
        }
        point = point.wrapping_add(1);
    }
    true
}

// Whether the map has what the row has after each of so many changes.
fn follows(alloc: Global, seed: u64, changes: usize) -> Result<bool, TryReserveError> {
    let mut map = IntervalMap::new(alloc);
    let mut row = [0; 24];
    let mut drawn = seed;
    for _ in 0..changes {
        drawn = next(drawn);
        change(&mut map, &mut row, drawn)?;
        if !has_row(&map, &row) || !are_apart(&map) || !finds_stretches(&map, &row) {
            return Ok(false);
        }
    }
    Ok(true)
}

#[test]
fn follows_a_row_of_points(rt: HostRuntime) -> Result<(), Fail> {
    assert!(rt; follows(rt.alloc(), 1, 300)?);
    assert!(rt; follows(rt.alloc(), 2, 300)?);
    Ok(())
}

// Whether a stretch was found, from a start up to an end, with this value.
fn is_stretch(found: Option<(Range<u64>, &u64)>, start: u64, end: u64, value: u64) -> bool {
    match found {
        Some((range, held)) => range.start == start && range.end == end && *held == value,
        None => false,
    }
}

#[test]
fn the_first_and_the_last_stretch(rt: HostRuntime) -> Result<(), Fail> {
    let mut map: Numbers = IntervalMap::new(rt.alloc());
    assert!(rt; map.first().is_none() && map.last().is_none());
    map.try_put(10..20, 1)?;
    assert!(rt; is_stretch(map.first(), 10, 20, 1) && is_stretch(map.last(), 10, 20, 1));
    map.try_put(30..35, 2)?;
    map.try_put(0..12, 3)?;
    map.try_cut(33..40)?;
    assert!(rt; is_stretch(map.first(), 0, 12, 3) && is_stretch(map.last(), 30, 33, 2));
    Ok(())
}

// A look-up that takes a count does as the one without.
#[test]
fn a_counted_look_up(rt: HostRuntime) -> Result<(), Fail> {
    let mut map: Numbers = IntervalMap::new(rt.alloc());
    map.try_put(10..20, 1)?;
    let count = &mut Count::new();
    assert!(rt; map.get_counted(10, count) == Some(&1) && map.get_counted(19, count) == Some(&1));
    assert!(rt; map.get_counted(9, count).is_none() && map.get_counted(20, count).is_none());
    Ok(())
}

// Stretches from 10 on, of 10 points each, and one over the middle of three, which splits none; then one within one, which splits it.
#[test]
fn a_stretch_is_cut_and_split(rt: HostRuntime) -> Result<(), Fail> {
    let mut map: Numbers = IntervalMap::new(rt.alloc());
    map.try_put(10..20, 1)?;
    map.try_put(20..30, 2)?;
    map.try_put(30..40, 3)?;
    map.try_put(15..35, 4)?;
    assert!(rt;
        map.len() == 3
            && map.get(14) == Some(&1)
            && map.get(15) == Some(&4)
            && map.get(35) == Some(&3)
    );
    map.try_put(20..21, 5)?;
    assert!(rt;
        map.len() == 5
            && map.get(19) == Some(&4)
            && map.get(20) == Some(&5)
            && map.get(21) == Some(&4)
    );
    map.try_cut(0..100)?;
    assert!(rt; map.is_empty());
    Ok(())
}
