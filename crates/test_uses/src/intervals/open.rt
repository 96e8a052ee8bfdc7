//! Walks over the stretches of ranges that are open at an end.
use super::row::{Numbers, change, next};
use fc_base::TryReserveError;
use fc_intervals::IntervalMap;
use std::alloc::Global;
use std::test::Fail;

// Whether both walks give what a range from the point, or up to it, gives that has all points of the map.
fn has_walks(map: &Numbers, point: u64) -> bool {
    let from = map
        .overlapping_from(point)
        .eq(map.overlapping(point..u64::MAX));
    let to = map.overlapping_to(point).eq(map.overlapping(0..point));
    from && to
}

// Whether it is so at all points, after each of so many changes.
fn follows(alloc: Global, seed: u64, changes: usize) -> Result<bool, TryReserveError> {
    let mut map = IntervalMap::new(alloc);
    let mut row = [0; 24];
    let mut drawn = seed;
    for _ in 0..changes {
        drawn = next(drawn);
        change(&mut map, &mut row, drawn)?;
        for point in 0..32u64 {
            if !has_walks(&map, point) {
                return Ok(false);
            }
        }
    }
    Ok(true)
}

#[test]
fn open_ranges_are_walked(rt: HostRuntime) -> Result<(), Fail> {
    assert!(rt; follows(rt.alloc(), 8, 24)?);
    Ok(())
}

// The last point that can be said lies in an open range alone, where a stretch ends after it.
#[test]
fn an_open_range_has_no_end(rt: HostRuntime) -> Result<(), Fail> {
    let mut map: Numbers = IntervalMap::new(rt.alloc());
    map.try_put(10..20, 1)?;
    map.try_put(30..40, 2)?;
    assert!(rt; map.overlapping_from(19).count() == 2 && map.overlapping_from(20).count() == 1);
    assert!(rt; map.overlapping_from(40).count() == 0 && map.overlapping_to(10).count() == 0);
    assert!(rt; map.overlapping_to(11).count() == 1 && map.overlapping_to(31).count() == 2);
    Ok(())
}
