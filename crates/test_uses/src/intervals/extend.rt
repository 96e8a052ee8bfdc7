//! Ranges and values of an iterator, put one after another.
use super::row::{Numbers, Row, has_row, next, write};
use fc_base::TryReserveError;
use fc_intervals::IntervalMap;
use std::alloc::Global;
use std::test::Fail;
use test_values::Owned;

// A range of a row, and its value.
fn drawn_range(drawn: u64) -> (u64, u64, u64) {
    let start = (drawn >> 33) % 24;
    let end = start.wrapping_add((drawn >> 40) % 6);
    (start, end, (drawn >> 52 & 255).wrapping_add(1))
}

// Whether eight ranges that are drawn, of which some overlap and some are empty, are put as a row has them.
fn are_put(map: &mut Numbers, row: &mut Row, seed: u64) -> bool {
    let mut drawn = [(0u64, 0u64, 0u64); 8];
    let mut state = seed;
    for range in drawn.iter_mut() {
        state = next(state);
        *range = drawn_range(state);
        write(row, range.0, range.1, range.2);
    }
    let items = drawn.into_iter().map(|it| (it.0..it.1, it.2));
    map.try_extend(items).is_ok() && has_row(map, row)
}

#[test]
fn ranges_are_put_in_turn(rt: HostRuntime) {
    let mut map: Numbers = IntervalMap::new(rt.alloc());
    let mut row = [0; 24];
    assert!(rt; are_put(&mut map, &mut row, 5) && are_put(&mut map, &mut row, 6));
}

// Three boxes, of which the second lies within the first, and the third is that of no point.
fn three(alloc: Global) -> Result<[(u64, u64, Owned); 3], TryReserveError> {
    let first = Owned::try_new(alloc, 1)?;
    let second = Owned::try_new(alloc, 2)?;
    let third = Owned::try_new(alloc, 3)?;
    Ok([(10, 40, first), (20, 30, second), (5, 5, third)])
}

// What was put before a refused range stays, and it comes back with its value.
#[test]
fn a_refused_range_comes_back(rt: HostRuntime) {
    let mut map: IntervalMap<u64, Owned> = IntervalMap::new(rt.alloc());
    let Ok(items) = three(rt.alloc()) else {
        return;
    };
    match map.try_extend(items.into_iter().map(|it| (it.0..it.1, it.2))) {
        Ok(()) => assert!(rt; map.len() == 3 && map.contains(25) && !map.contains(5)),
        Err((range, value, _error)) => {
            let is_first = value.number == 1 && range == (10..40) && map.is_empty();
            let is_second = value.number == 2 && range == (20..30) && map.len() == 1;
            assert!(rt; is_first || is_second);
        }
    }
}
