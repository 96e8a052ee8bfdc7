//! Values of stretches, set in place, beside a plain row that has the value of each point.
use super::row::{Numbers, Row, change, has_row, next, write};
use fc_base::TryReserveError;
use fc_intervals::IntervalMap;
use std::alloc::Global;
use std::test::Fail;
use test_values::Owned;

// Whether the stretch around a point has another value, on all of its points, where there is one.
fn is_set(map: &mut Numbers, row: &mut Row, point: u64, value: u64) -> bool {
    let len = map.len();
    match map.get_key_value(point).map(|it| (it.0, *it.1)) {
        Some((range, had)) => {
            write(row, range.start, range.end, value);
            map.set_value(point, value) == Ok(had) && map.len() == len && has_row(map, row)
        }
        None => map.set_value(point, value) == Err(value) && has_row(map, row),
    }
}

// Whether values are set so at all points, after so many changes.
fn are_set(alloc: Global, seed: u64, changes: usize) -> Result<bool, TryReserveError> {
    let mut map = IntervalMap::new(alloc);
    let mut row = [0; 24];
    let mut drawn = seed;
    for _ in 0..changes {
        drawn = next(drawn);
        change(&mut map, &mut row, drawn)?;
    }
    for point in 0..31u64 {
        if !is_set(&mut map, &mut row, point, point.wrapping_add(300)) {
            return Ok(false);
        }
    }
    Ok(true)
}

#[test]
fn a_value_is_set_in_place(rt: HostRuntime) -> Result<(), Fail> {
    assert!(rt; are_set(rt.alloc(), 7, 30)?);
    Ok(())
}

// The value that was there, or that no stretch takes, comes back.
fn comes_back(map: &mut IntervalMap<u64, Owned>, alloc: Global) -> Result<bool, TryReserveError> {
    map.try_put(10..20, Owned::try_new(alloc, 1)?)?;
    let had = map.set_value(15, Owned::try_new(alloc, 2)?);
    let back = map.set_value(20, Owned::try_new(alloc, 3)?);
    let is_set = map.get(10).map(|it| it.number) == Some(2);
    match (had, back) {
        (Ok(had), Err(back)) => Ok(is_set && had.number == 1 && back.number == 3),
        _ => Ok(false),
    }
}

#[test]
fn a_value_that_was_set_comes_back(rt: HostRuntime) {
    let mut map: IntervalMap<u64, Owned> = IntervalMap::new(rt.alloc());
    let comes_back = comes_back(&mut map, rt.alloc()).unwrap_or(true);
    assert!(rt; comes_back);
}
