//! Walks over the stretches and the gaps of a range, and stretches cut in two, beside a plain row that has the value of each point.
use super::row::{Numbers, Row, change, has_row, next};
use fc_base::TryReserveError;
use fc_intervals::IntervalMap;
use std::alloc::Global;
use std::test::Fail;

// Writes `true` at each point from a start up to, and without, an end.
fn open(points: &mut [bool; 24], start: u64, end: u64) {
    let mut point = 0u64;
    for is_open in points.iter_mut() {
        *is_open = *is_open || start <= point && point < end;
        point = point.wrapping_add(1);
    }
}

// Whether the gaps of a range hold just those of its points that have no value. None is empty, and a point that has one lies after each
// that another follows.
fn has_gaps(map: &Numbers, row: &Row, from: u64, to: u64) -> bool {
    let mut points = [false; 24];
    let mut last = from;
    let mut count = 0usize;
    for gap in map.gaps(from..to) {
        if gap.end <= gap.start || gap.start < last || count > 0 && gap.start == last {
            return false;
        }
        last = gap.end;
        count = count.wrapping_add(1);
        open(&mut points, gap.start, gap.end);
    }
    if count > 0 && to < last {
        return false;
    }
    let mut point = 0u64;
    for value in row {
        let is_open = from <= point && point < to && *value == 0;
        if points[(point % 24) as usize] != is_open {
            return false;
        }
        point = point.wrapping_add(1);
    }
    true
}

// Whether some point of a range lies from a start up to, and without, an end.
fn shares(from: u64, to: u64, start: u64, end: u64) -> bool {
    for point in 0..24u64 {
        if from <= point && point < to && start <= point && point < end {
            return true;
        }
    }
    false
}

// Whether the walk over the stretches of a range gives, of all stretches, those that have a point of it, in order.
fn has_overlapping(map: &Numbers, from: u64, to: u64) -> bool {
    let mut walk = map.overlapping(from..to);
    for (start, stretch) in map.iter() {
        if shares(from, to, *start, stretch.end) {
            match walk.next() {
                Some((next, found)) => {
                    if next != start || found.end != stretch.end || found.value != stretch.value {
                        return false;
                    }
                }
                None => return false,
            }
        }
    }
    walk.next().is_none()
}

// Whether the walks of each range of at most eight points, and of one that is the wrong way round, are those of the row.
fn has_walks(map: &Numbers, row: &Row) -> bool {
    for from in 0..24u64 {
        for length in 0..9u64 {
            let to = from.wrapping_add(length);
            if to <= 24 && (!has_gaps(map, row, from, to) || !has_overlapping(map, from, to)) {
                return false;
            }
        }
        if !has_gaps(map, row, from, from / 2) || !has_overlapping(map, from, from / 2) {
            return false;
        }
    }
    true
}

// Whether the walks are those of the row after each of so many changes.
fn follows(alloc: Global, seed: u64, changes: usize) -> Result<bool, TryReserveError> {
    let mut map = IntervalMap::new(alloc);
    let mut row = [0; 24];
    let mut drawn = seed;
    for _ in 0..changes {
        drawn = next(drawn);
        change(&mut map, &mut row, drawn)?;
        if !has_walks(&map, &row) {
            return Ok(false);
        }
    }
    Ok(true)
}

#[test]
fn follow_a_row_of_points(rt: HostRuntime) -> Result<(), Fail> {
    assert!(rt; follows(rt.alloc(), 3, 60)?);
    Ok(())
}

// Whether a point lies within a stretch, and not at its start.
fn is_within(map: &Numbers, point: u64) -> bool {
    match map.get_key_value(point) {
        Some((range, _value)) => range.start < point,
        None => false,
    }
}

// Whether a cut at any point leaves the values of all, and adds a stretch just where the point lies within one.
fn splits(map: &mut Numbers, row: &Row) -> Result<bool, TryReserveError> {
    for point in 0..25u64 {
        let more = is_within(map, point) as usize;
        let len = map.len();
        map.try_split_at(point)?;
        if map.len() != len.wrapping_add(more) || is_within(map, point) || !has_row(map, row) {
            return Ok(false);
        }
    }
    Ok(true)
}

// Whether cuts at all points leave the values, after so many changes.
fn is_split(alloc: Global, seed: u64, changes: usize) -> Result<bool, TryReserveError> {
    let mut map = IntervalMap::new(alloc);
    let mut row = [0; 24];
    let mut drawn = seed;
    for _ in 0..changes {
        drawn = next(drawn);
        change(&mut map, &mut row, drawn)?;
    }
    splits(&mut map, &row)
}

#[test]
fn a_cut_in_two_leaves_the_values(rt: HostRuntime) -> Result<(), Fail> {
    for seed in 0..40u64 {
        assert!(rt; is_split(rt.alloc(), seed, 20)?);
    }
    Ok(())
}

// Three stretches, of which the second starts where the first ends: each is printed as its range and its value.
#[test]
fn stretches_are_printed(rt: HostRuntime) -> Result<(), Fail> {
    let mut map: Numbers = IntervalMap::new(rt.alloc());
    let text = format!(in rt.alloc(); "{map:?}")?;
    assert!(rt; text.as_str() == "{}");
    map.try_put(10..20, 1)?;
    map.try_put(20..30, 2)?;
    map.try_put(40..50, 3)?;
    let text = format!(in rt.alloc(); "{map:?}")?;
    assert!(rt; text.as_str() == "{10..20: 1, 20..30: 2, 40..50: 3}");
    Ok(())
}
