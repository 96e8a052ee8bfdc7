//! Calls that are refused: the map is as it was, and the value comes back.
use fc_intervals::IntervalMap;
use std::alloc::Global;
use std::test::Fail;
use test_values::Owned;

type Boxes = IntervalMap<u64, Owned>;

// The number of the value at a point, and 0 where there is none.
fn number_at(map: &Boxes, point: u64) -> u64 {
    match map.get(point) {
        Some(value) => value.number,
        None => 0,
    }
}

// Whether the map has one stretch, from 10 up to 40, of this number.
fn is_whole(map: &Boxes, number: u64) -> bool {
    map.len() == 1
        && number_at(map, 10) == number
        && number_at(map, 39) == number
        && number_at(map, 40) == 0
}

// The sweep refuses each request in turn: of the values, of the nodes, and of the copy of what is split.
#[test]
fn a_refused_put_leaves_the_map(rt: HostRuntime) -> Result<(), Fail> {
    let mut map: Boxes = IntervalMap::new(rt.alloc());
    let Ok(first) = Owned::try_new(rt.alloc(), 1) else {
        return Ok(());
    };
    if let Err((value, _error)) = map.try_put(10..40, first) {
        assert!(rt; value.number == 1 && map.is_empty());
        return Ok(());
    }
    let Ok(second) = Owned::try_new(rt.alloc(), 2) else {
        return Ok(());
    };
    match map.try_put(20..30, second) {
        Ok(()) => assert!(rt;
            map.len() == 3
                && number_at(&map, 19) == 1
                && number_at(&map, 29) == 2
                && number_at(&map, 30) == 1
        ),
        Err((value, _error)) => assert!(rt; value.number == 2 && is_whole(&map, 1)),
    }
    Ok(())
}

// Puts fourteen stretches of ten points in, each with its number: their leaf has room for one more. False where memory was refused.
fn fill(map: &mut Boxes, alloc: Global) -> bool {
    for number in 0..14u64 {
        let Ok(value) = Owned::try_new(alloc, number) else {
            return false;
        };
        let start = number.wrapping_mul(20);
        if map.try_put(start..start.wrapping_add(10), value).is_err() {
            return false;
        }
    }
    true
}

// What goes on after the range fills the leaf, and is taken out again where the node for the range itself is refused.
#[test]
fn a_put_refused_at_its_second_stretch_leaves_the_map(rt: HostRuntime) -> Result<(), Fail> {
    let mut map: Boxes = IntervalMap::new(rt.alloc());
    if !fill(&mut map, rt.alloc()) {
        return Ok(());
    }
    let Ok(value) = Owned::try_new(rt.alloc(), 50) else {
        return Ok(());
    };
    match map.try_put(42..45, value) {
        Ok(()) => assert!(rt;
            map.len() == 16
                && number_at(&map, 41) == 2
                && number_at(&map, 44) == 50
                && number_at(&map, 45) == 2
        ),
        Err((value, _error)) => assert!(rt;
            value.number == 50
                && map.len() == 14
                && number_at(&map, 44) == 2
                && number_at(&map, 49) == 2
                && number_at(&map, 50) == 0
        ),
    }
    Ok(())
}

#[test]
fn a_refused_cut_leaves_the_map(rt: HostRuntime) -> Result<(), Fail> {
    let mut map: Boxes = IntervalMap::new(rt.alloc());
    let Ok(value) = Owned::try_new(rt.alloc(), 1) else {
        return Ok(());
    };
    if map.try_put(10..40, value).is_err() {
        return Ok(());
    }
    if map.try_cut(20..30).is_err() {
        assert!(rt; is_whole(&map, 1));
        return Ok(());
    }
    assert!(rt;
        map.len() == 2
            && number_at(&map, 19) == 1
            && number_at(&map, 20) == 0
            && number_at(&map, 30) == 1
    );
    // What ends at the end of its stretch goes on nowhere, and asks for no memory.
    assert!(rt;
        map.try_cut(35..40).is_ok() && number_at(&map, 34) == 1 && number_at(&map, 35) == 0
    );
    Ok(())
}

#[test]
fn a_refused_cut_in_two_leaves_the_map(rt: HostRuntime) -> Result<(), Fail> {
    let mut map: Boxes = IntervalMap::new(rt.alloc());
    let Ok(value) = Owned::try_new(rt.alloc(), 1) else {
        return Ok(());
    };
    if map.try_put(10..40, value).is_err() {
        return Ok(());
    }
    if map.try_split_at(20).is_err() {
        assert!(rt; is_whole(&map, 1));
        return Ok(());
    }
    assert!(rt;
        map.len() == 2
            && number_at(&map, 19) == 1
            && number_at(&map, 20) == 1
            && number_at(&map, 39) == 1
    );
    // No stretch goes on across a start or an end, so that no memory is asked for.
    assert!(rt;
        map.try_split_at(10).is_ok() && map.try_split_at(20).is_ok() && map.try_split_at(40).is_ok()
    );
    assert!(rt; map.len() == 2);
    Ok(())
}

// A stretch that starts where another does takes its place, and asks for no memory where none goes on across its end.
#[test]
fn a_put_that_needs_no_memory_is_not_refused(rt: HostRuntime) {
    let mut map: Boxes = IntervalMap::new(rt.alloc());
    if !fill(&mut map, rt.alloc()) {
        return;
    }
    let Ok(value) = Owned::try_new(rt.alloc(), 50) else {
        return;
    };
    assert!(rt; map.try_put(20..70, value).is_ok() && map.len() == 12);
    assert!(rt; number_at(&map, 20) == 50 && number_at(&map, 69) == 50 && number_at(&map, 80) == 4);
}
