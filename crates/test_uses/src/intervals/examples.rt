//! Examples of the map of intervals, as the pages show them.
use fc_base::TryClone;
use fc_budget::Budget;
use fc_intervals::IntervalMap;
use std::alloc::Global;
use std::mem::size_of;
use std::test::Fail;

#[test]
fn stretches(rt: HostRuntime) -> Result<(), Fail> {
    let alloc = rt.alloc();
    // example: IntervalMap::new, IntervalMap::try_put, IntervalMap::get, IntervalMap::get_key_value, IntervalMap::len, IntervalMap::is_empty
    let mut map = IntervalMap::new(alloc);
    map.try_put(10u64..30, 'a')?;
    map.try_put(15..20, 'b')?; // 10..15: a, 15..20: b, 20..30: a
    assert_eq!(rt; (map.get(15), map.get(30)), (Some(&'b'), None));
    assert_eq!(rt; map.get_key_value(12), Some((10..15, &'a')));
    assert_eq!(rt; (map.len(), map.is_empty()), (3, false));
    // end
    Ok(())
}

#[test]
fn cuts(rt: HostRuntime) -> Result<(), Fail> {
    let alloc = rt.alloc();
    // example: IntervalMap::try_cut, IntervalMap::try_split_at, IntervalMap::join_at, IntervalMap::first, IntervalMap::last
    let mut map = IntervalMap::new(alloc);
    map.try_put(10u64..30, 'a')?;
    map.try_cut(14..20)?; // 10..14: a, 20..30: a
    assert_eq!(rt; map.first(), Some((10..14, &'a')));
    assert_eq!(rt; map.last(), Some((20..30, &'a')));
    map.try_split_at(25)?;
    assert_eq!(rt; (map.len(), map.join_at(25), map.len()), (3, true, 2));
    // end
    Ok(())
}

#[test]
fn stretches_taken_out_whole(rt: HostRuntime) -> Result<(), Fail> {
    let alloc = rt.alloc();
    // example: IntervalMap::contains, IntervalMap::overlaps, IntervalMap::remove_at
    let mut map = IntervalMap::new(alloc);
    map.try_put(10u64..20, 'a')?;
    assert!(rt; map.contains(10) && map.overlaps(0..11) && !map.overlaps(0..10));
    assert_eq!(rt; map.remove_at(15), Some((10..20, 'a'))); // all of it
    assert!(rt; !map.contains(10));
    // end
    Ok(())
}

#[test]
fn no_stretch_left(rt: HostRuntime) -> Result<(), Fail> {
    let alloc = rt.alloc();
    // example: IntervalMap::pop_first, IntervalMap::clear
    let mut map = IntervalMap::new(alloc);
    map.try_put(10u64..20, 'a')?;
    map.try_put(30..40, 'b')?;
    assert_eq!(rt; map.pop_first(), Some((10..20, 'a')));
    map.clear();
    assert!(rt; map.is_empty());
    // end
    Ok(())
}

#[test]
fn walks(rt: HostRuntime) -> Result<(), Fail> {
    let alloc = rt.alloc();
    // example: IntervalMap::iter, IntervalMap::overlapping, IntervalMap::gaps
    let mut map = IntervalMap::new(alloc);
    map.try_put(10u64..20, 'a')?;
    map.try_put(30..40, 'b')?;
    assert_eq!(rt; map.iter().len(), 2);
    let mut overlapping = map.overlapping(15..30); // 10..20, whole
    assert!(rt; overlapping.any(|(start, _stretch)| *start == 10));
    let mut gaps = map.gaps(0..40);
    assert_eq!(rt; (gaps.next(), gaps.next()), (Some(0..10), Some(20..30)));
    // end
    Ok(())
}

#[test]
fn puts_that_join(rt: HostRuntime) -> Result<(), Fail> {
    let alloc = rt.alloc();
    // example: IntervalMap::try_put_joined
    let mut map = IntervalMap::new(alloc);
    map.try_put_joined(10u64..20, 'a')?;
    map.try_put_joined(30..40, 'a')?;
    map.try_put_joined(20..30, 'a')?;
    assert_eq!(rt; (map.len(), map.first()), (1, Some((10..40, &'a'))));
    // end
    Ok(())
}

#[test]
fn cuts_that_hand_over(rt: HostRuntime) -> Result<(), Fail> {
    let alloc = rt.alloc();
    // example: IntervalMap::try_cut_with
    let mut map = IntervalMap::new(alloc);
    map.try_put(10u64..20, 'a')?;
    map.try_put(30..40, 'b')?;
    let mut last = None;
    map.try_cut_with(15..35, |range, value| last = Some((range, value)))?; // 15..20: a, 30..35: b
    assert_eq!(rt; last, Some((30..35, 'b')));
    assert_eq!(rt; map.last(), Some((35..40, &'b')));
    // end
    Ok(())
}

#[test]
fn ranges_of_an_iterator(rt: HostRuntime) {
    let alloc = rt.alloc();
    // example: IntervalMap::try_extend, IntervalMap::set_value
    let mut map = IntervalMap::new(alloc);
    let items = [(10u64..20, 'a'), (15..30, 'b')]; // 10..15: a, 15..30: b
    assert!(rt; map.try_extend(items).is_ok());
    assert_eq!(rt; map.set_value(12, 'c'), Ok('a')); // 10..15: c
    assert_eq!(rt; (map.get(14), map.get(15)), (Some(&'c'), Some(&'b')));
    // end
}

#[test]
fn open_ranges(rt: HostRuntime) -> Result<(), Fail> {
    let alloc = rt.alloc();
    // example: IntervalMap::overlapping_from, IntervalMap::overlapping_to
    let mut map = IntervalMap::new(alloc);
    map.try_put(10u64..20, 'a')?;
    map.try_put(30..40, 'b')?;
    assert_eq!(rt; map.overlapping_from(19).count(), 2);
    assert_eq!(rt; map.overlapping_to(30).count(), 1);
    // end
    Ok(())
}

#[test]
fn whole_maps(rt: HostRuntime) -> Result<(), Fail> {
    let alloc = rt.alloc();
    // example: IntervalMap::default, IntervalMap::first_gap
    let mut map = IntervalMap::default(alloc);
    map.try_put(10u64..20, 'a')?;
    map.try_put(24..40, 'b')?;
    assert_eq!(rt; map.first_gap(15..50, 5), Some(40));
    let copy = map.try_clone()?;
    assert!(rt; copy == map && copy.into_iter().len() == 2);
    // end
    Ok(())
}

#[test]
fn bytes(rt: HostRuntime) {
    assert_eq!(rt; size_of::<IntervalMap<u64, u64>>(), 56);
    assert_eq!(rt; size_of::<IntervalMap<u64, u64, &Budget<Global>>>(), 80);
}
