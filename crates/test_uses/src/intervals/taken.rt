//! Stretches taken out whole, beside a plain row that has the value of each point.
use super::row::{Numbers, Row, change, has_row, next, write};
use fc_base::TryReserveError;
use fc_intervals::IntervalMap;
use std::alloc::Global;
use std::ops::Range;
use std::test::Fail;

// The start, the end and the value of a stretch.
fn parts(stretch: (Range<u64>, &u64)) -> (u64, u64, u64) {
    (stretch.0.start, stretch.0.end, *stretch.1)
}

// Whether the stretch around a point comes out whole, if there is one, and no other point changes.
fn is_taken(map: &mut Numbers, row: &mut Row, point: u64) -> bool {
    let wanted = map.get_key_value(point).map(parts);
    let (was_there, len) = (map.contains(point), map.len());
    let Some((range, value)) = map.remove_at(point) else {
        return !was_there && wanted == None && map.len() == len && has_row(map, row);
    };
    let is_wanted = was_there && wanted == Some((range.start, range.end, value));
    write(row, range.start, range.end, 0);
    let is_gone = !map.contains(point) && map.len().wrapping_add(1) == len;
    is_wanted && is_gone && !map.overlaps(range) && has_row(map, row)
}

// Whether all stretches come out so, point by point, after so many changes.
fn are_taken(alloc: Global, seed: u64, changes: usize) -> Result<bool, TryReserveError> {
    let mut map = IntervalMap::new(alloc);
    let mut row = [0; 24];
    let mut drawn = seed;
    for _ in 0..changes {
        drawn = next(drawn);
        change(&mut map, &mut row, drawn)?;
    }
    for point in 0..31u64 {
        if !is_taken(&mut map, &mut row, point) {
            return Ok(false);
        }
    }
    Ok(map.is_empty())
}

#[test]
fn a_stretch_is_taken_out_whole(rt: HostRuntime) -> Result<(), Fail> {
    assert!(rt; are_taken(rt.alloc(), 1, 12)?);
    assert!(rt; are_taken(rt.alloc(), 2, 60)?);
    Ok(())
}

#[test]
fn a_range_overlaps_where_a_point_lies_in_both(rt: HostRuntime) -> Result<(), Fail> {
    let mut map: Numbers = IntervalMap::new(rt.alloc());
    assert!(rt; !map.overlaps(0..u64::MAX));
    map.try_put(10..20, 1)?;
    assert!(rt; !map.overlaps(0..10) && map.overlaps(0..11) && map.overlaps(12..13));
    assert!(rt; map.overlaps(19..30) && !map.overlaps(20..30) && map.overlaps(0..u64::MAX));
    // An empty range has no point, also within a stretch.
    assert!(rt; !map.overlaps(15..15) && !map.overlaps(16..12));
    Ok(())
}

// The sum of the starts, the ends and the values.
fn sum(map: &Numbers) -> u64 {
    let mut sum = 0u64;
    for (start, stretch) in map {
        sum = sum.wrapping_add(*start).wrapping_add(stretch.end);
        sum = sum.wrapping_add(stretch.value);
    }
    sum
}

#[test]
fn the_first_stretch_comes_out_first(rt: HostRuntime) -> Result<(), Fail> {
    let mut map: Numbers = IntervalMap::new(rt.alloc());
    map.try_put(30..40, 3)?;
    map.try_put(10..20, 1)?;
    assert!(rt; sum(&map) == 104);
    assert!(rt; map.pop_first() == Some((10..20, 1)) && map.pop_first() == Some((30..40, 3)));
    assert!(rt; map.pop_first() == None && map.is_empty());
    map.try_put(10..20, 1)?;
    map.clear();
    assert!(rt; map.is_empty() && !map.contains(10) && map.remove_at(10) == None);
    Ok(())
}
