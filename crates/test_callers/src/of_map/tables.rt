use callers_of_map::boxes::{
    box_after, box_before, box_from, box_holding, close_box, count_kind, order_of_places,
};
use callers_of_map::locks::{
    end_of, is_lock, lock, lock_after, lock_before, lock_covering, lock_from, unlock,
};
use callers_of_map::queries::stored_key;
use fc_base::TryReserveError;
use fc_map::map::BTreeMap;
use std::alloc::Global;
use std::test::Fail;

type Locks = BTreeMap<u64, u64>;

// Locks on the bytes 10 to 19 and 30 to 34.
fn two_locks(alloc: Global) -> Result<Locks, TryReserveError> {
    let mut locks = BTreeMap::new(alloc);
    locks.try_insert(10, 20)?;
    locks.try_insert(30, 35)?;
    Ok(locks)
}

#[test]
fn locks_cover_their_bytes(rt: HostRuntime) -> Result<(), Fail> {
    let locks = two_locks(rt.alloc())?;
    assert!(rt; lock_covering(&locks, 9).is_none());
    assert!(rt; lock_covering(&locks, 10) == Some((10, 20)));
    assert!(rt; lock_covering(&locks, 19) == Some((10, 20)));
    assert!(rt; lock_covering(&locks, 20).is_none());
    assert!(rt; lock_covering(&locks, 34) == Some((30, 35)));
    Ok(())
}

#[test]
fn locks_stand_on_both_sides_of_a_byte(rt: HostRuntime) -> Result<(), Fail> {
    let locks = two_locks(rt.alloc())?;
    assert!(rt; lock_before(&locks, 10).is_none());
    assert!(rt; lock_before(&locks, 30) == Some((10, 20)));
    assert!(rt; lock_from(&locks, 30) == Some((30, 35)));
    assert!(rt; lock_from(&locks, 31).is_none());
    assert!(rt; lock_after(&locks, 10) == Some((30, 35)));
    assert!(rt; lock_after(&locks, 30).is_none());
    Ok(())
}

#[test]
fn locks_come_and_go(rt: HostRuntime) -> Result<(), Fail> {
    let mut locks = BTreeMap::new(rt.alloc());
    lock(&mut locks, 5, 9)?;
    assert!(rt; is_lock(&locks, 5, 9) && !is_lock(&locks, 5, 8) && !is_lock(&locks, 6, 9));
    assert!(rt; unlock(&mut locks, 6).is_none());
    assert!(rt; unlock(&mut locks, 5) == Some(9));
    assert!(rt; unlock(&mut locks, 5).is_none());
    Ok(())
}

fn ends_at(locks: &Locks, from: u64, end: u64) -> bool {
    match locks.get(&from) {
        Some(_end) => end_of(locks, from) == end,
        None => false,
    }
}

#[test]
fn locks_end(rt: HostRuntime) -> Result<(), Fail> {
    let locks = two_locks(rt.alloc())?;
    assert!(rt; ends_at(&locks, 10, 20) && ends_at(&locks, 30, 35));
    Ok(())
}

// A box of the bytes 0 to 99, in it two of 10 to 39 and 50 to 79, and in the second one of 60 to 69.
fn four_boxes(alloc: Global) -> Result<BTreeMap<(u64, u64), u64>, TryReserveError> {
    let mut boxes = BTreeMap::new(alloc);
    boxes.try_insert((0, 0), 100)?;
    boxes.try_insert((1, 10), 40)?;
    boxes.try_insert((1, 50), 80)?;
    boxes.try_insert((2, 60), 70)?;
    Ok(boxes)
}

#[test]
fn boxes_hold_their_bytes(rt: HostRuntime) -> Result<(), Fail> {
    let boxes = four_boxes(rt.alloc())?;
    assert!(rt; box_holding(&boxes, 0, 65) == Some(((0, 0), 100)));
    assert!(rt; box_holding(&boxes, 1, 65) == Some(((1, 50), 80)));
    assert!(rt; box_holding(&boxes, 2, 65) == Some(((2, 60), 70)));
    assert!(rt; box_holding(&boxes, 1, 45).is_none());
    assert!(rt; box_holding(&boxes, 2, 50).is_none());
    Ok(())
}

#[test]
fn boxes_of_a_depth_follow_one_another(rt: HostRuntime) -> Result<(), Fail> {
    let boxes = four_boxes(rt.alloc())?;
    assert!(rt; box_after(&boxes, 1, 10) == Some(((1, 50), 80)));
    assert!(rt; box_after(&boxes, 1, 50).is_none());
    assert!(rt; box_after(&boxes, 2, 0) == Some(((2, 60), 70)));
    assert!(rt; box_before(&boxes, 1, 50) == Some(((1, 10), 40)));
    assert!(rt; box_before(&boxes, 1, 10).is_none());
    assert!(rt; box_from(&boxes, 1, 50) == Some(((1, 50), 80)));
    assert!(rt; box_from(&boxes, 1, 51).is_none());
    Ok(())
}

#[test]
fn boxes_close(rt: HostRuntime) -> Result<(), Fail> {
    let mut boxes = four_boxes(rt.alloc())?;
    assert!(rt; close_box(&mut boxes, (2, 60)) == Some(70));
    assert!(rt; close_box(&mut boxes, (2, 60)).is_none());
    assert!(rt; box_holding(&boxes, 2, 65).is_none());
    Ok(())
}

#[test]
fn places_are_ordered_by_depth_first(rt: HostRuntime) -> Result<(), Fail> {
    assert!(rt; order_of_places(&(1, 9), &(2, 3)).is_lt());
    assert!(rt; order_of_places(&(2, 3), &(2, 3)).is_eq());
    assert!(rt; order_of_places(&(2, 4), &(2, 3)).is_gt());
    Ok(())
}

#[test]
fn stored_keys_are_answered(rt: HostRuntime) -> Result<(), Fail> {
    let locks = two_locks(rt.alloc())?;
    assert!(rt; stored_key(&locks, &30) == Some(30));
    assert!(rt; stored_key(&locks, &31).is_none());
    Ok(())
}

#[test]
fn boxes_are_counted_by_kind(rt: HostRuntime) -> Result<(), Fail> {
    let mut counts = BTreeMap::new(rt.alloc());
    count_kind(&mut counts, 7)?;
    count_kind(&mut counts, 8)?;
    count_kind(&mut counts, 7)?;
    assert!(rt; counts.len() == 2);
    assert!(rt; counts.get(&7) == Some(&2) && counts.get(&8) == Some(&1));
    Ok(())
}
