//! Values that own memory: no clause says that one which is let go is given back, and the sweep sees each that is not.
use fc_base::TryReserveError;
use fc_intervals::IntervalMap;
use std::alloc::Global;
use std::ops::Range;
use std::test::Fail;
use test_values::Owned;

type Boxes = IntervalMap<u64, Owned>;

// Puts a value in, and answers how many stretches there are then.
fn put(
    map: &mut Boxes,
    alloc: Global,
    range: Range<u64>,
    number: u64,
) -> Result<usize, TryReserveError> {
    let value = Owned::try_new(alloc, number)?;
    let _refused = map.try_put(range, value);
    Ok(map.len())
}

// Ten stretches apart; one over the middle of three of them, one over all, and one of no point. Then one is cut from its middle, from its ends and as a whole.
fn seen(map: &mut Boxes, alloc: Global) -> Result<[usize; 7], TryReserveError> {
    let mut seen = [0usize; 7];
    for number in 0..10u64 {
        let start = number.wrapping_mul(10);
        seen[0] = put(map, alloc, start..start.wrapping_add(5), number)?;
    }
    seen[1] = put(map, alloc, 22..42, 10)?;
    seen[2] = put(map, alloc, 0..100, 11)?;
    seen[3] = put(map, alloc, 7..7, 12)?;
    map.try_cut(40..60)?;
    seen[4] = map.len();
    map.try_cut(35..65)?;
    seen[5] = map.len();
    map.try_cut(0..65)?;
    seen[6] = map.len();
    Ok(seen)
}

// One over 22 to 42 leaves the front of what begins at 20, takes the place of what begins at 30, and leaves the rest of what begins at 40.
#[test]
fn what_is_covered_or_cut_is_given_up(rt: HostRuntime) {
    let mut map: Boxes = IntervalMap::new(rt.alloc());
    let Ok(seen) = seen(&mut map, rt.alloc()) else {
        return;
    };
    assert!(rt; seen == [10, 10, 1, 1, 2, 2, 1]);
}

// Two halves of one value are joined; two of different values are not.
fn joins(map: &mut Boxes, alloc: Global) -> Result<bool, TryReserveError> {
    put(map, alloc, 0..20, 1)?;
    put(map, alloc, 20..30, 2)?;
    map.try_split_at(10)?;
    let parts = map.len();
    let is_joined = map.join_at(10);
    Ok(parts == 3 && is_joined && !map.join_at(20) && map.len() == 2)
}

#[test]
fn what_is_joined_is_given_up(rt: HostRuntime) {
    let mut map: Boxes = IntervalMap::new(rt.alloc());
    let is_right = joins(&mut map, rt.alloc()).unwrap_or(true);
    assert!(rt; is_right);
}

// Four stretches, of which one is taken out by a point, and one as the first; the others are cleared.
fn are_let_go(map: &mut Boxes, alloc: Global) -> Result<bool, TryReserveError> {
    for number in 0..4u64 {
        let start = number.wrapping_mul(10);
        put(map, alloc, start..start.wrapping_add(5), number)?;
    }
    let taken = map.remove_at(22).is_some() && map.remove_at(25).is_none();
    let first = map.pop_first().is_some();
    let left = map.len();
    map.clear();
    Ok(taken && first && left == 2 && map.is_empty())
}

#[test]
fn what_is_taken_out_or_cleared_is_given_up(rt: HostRuntime) {
    let mut map: Boxes = IntervalMap::new(rt.alloc());
    let are_let_go = are_let_go(&mut map, rt.alloc()).unwrap_or(true);
    assert!(rt; are_let_go);
}

// A value between two that are equal to it: one of the three is left.
fn puts_between(map: &mut Boxes, alloc: Global) -> Result<bool, TryReserveError> {
    put(map, alloc, 0..10, 1)?;
    put(map, alloc, 20..30, 1)?;
    let value = Owned::try_new(alloc, 1)?;
    if map.try_put_joined(10..20, value).is_err() {
        return Ok(map.len() == 2 && !map.contains(10));
    }
    Ok(map.len() == 1 && map.first().map(|found| found.0) == Some(0..30))
}

#[test]
fn what_is_put_and_joined_is_given_up(rt: HostRuntime) {
    let mut map: Boxes = IntervalMap::new(rt.alloc());
    let is_right = puts_between(&mut map, rt.alloc()).unwrap_or(true);
    assert!(rt; is_right);
}
