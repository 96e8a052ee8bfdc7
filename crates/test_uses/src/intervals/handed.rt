//! Stretches that are cut out of a range and handed over, beside a plain row that has the value of each point.
use super::row::{Numbers, Row, change, has_row, next, write};
use fc_base::TryReserveError;
use fc_intervals::IntervalMap;
use std::alloc::Global;
use std::test::Fail;
use test_values::Owned;

// Whether the points of a range come out with their values, in ascending order, and all others stay.
fn is_handed(
    map: &mut Numbers,
    row: &mut Row,
    from: u64,
    to: u64,
) -> Result<bool, TryReserveError> {
    let mut wanted = *row;
    write(&mut wanted, 0, from, 0);
    write(&mut wanted, to, 24, 0);
    let mut handed: Row = [0; 24];
    let mut reached = from;
    let mut ascends = true;
    map.try_cut_with(from..to, |range, value| {
        ascends = ascends && reached <= range.start && range.start < range.end && range.end <= to;
        reached = range.end;
        write(&mut handed, range.start, range.end, value);
    })?;
    write(row, from, to, 0);
    Ok(ascends && handed == wanted && has_row(map, row))
}

// Whether ranges come out so, one after each of so many changes: one in eight is empty, or lies the wrong way round.
fn are_handed(alloc: Global, seed: u64, changes: usize) -> Result<bool, TryReserveError> {
    let mut map = IntervalMap::new(alloc);
    let mut row = [0; 24];
    let mut drawn = seed;
    for _ in 0..changes {
        drawn = next(drawn);
        change(&mut map, &mut row, drawn)?;
        change(&mut map, &mut row, next(drawn))?;
        let from = (drawn >> 35) % 24;
        let to = (drawn >> 42) % 32;
        if !is_handed(&mut map, &mut row, from, to.min(24))? {
            return Ok(false);
        }
    }
    Ok(true)
}

#[test]
fn a_range_is_handed_over_in_order(rt: HostRuntime) -> Result<(), Fail> {
    assert!(rt; are_handed(rt.alloc(), 4, 80)?);
    Ok(())
}

// One stretch across both ends: the part between comes with a copy, as what goes on after the range has one. Either copy may be refused, and the
// map is then whole, and nothing was handed over.
#[test]
fn a_refused_cut_hands_nothing_over(rt: HostRuntime) {
    let mut map: IntervalMap<u64, Owned> = IntervalMap::new(rt.alloc());
    let Ok(value) = Owned::try_new(rt.alloc(), 7) else {
        return;
    };
    if map.try_put(10..40, value).is_err() {
        return;
    }
    let mut handed = (0u64, 0u64, 0u64);
    let is_cut = map
        .try_cut_with(20..30, |range, value| {
            handed = (range.start, range.end, value.number);
        })
        .is_ok();
    if is_cut {
        assert!(rt; handed == (20, 30, 7) && map.len() == 2 && !map.overlaps(20..30));
    } else {
        assert!(rt; handed == (0, 0, 0) && map.len() == 1 && map.contains(25));
    }
    assert!(rt; map.contains(19) && map.contains(30) && !map.contains(40));
}
