//! Examples of the calls of the hashed map and set, as the pages show them.
use fc_hash::{TryHashMap, TryHashSet};
use std::test::Fail;

#[test]
fn one_key(rt: HostRuntime) -> Result<(), Fail> {
    let alloc = rt.alloc();
    // example: TryHashMap::new, TryHashMap::insert, TryHashMap::get, TryHashMap::contains_key, TryHashMap::get_mut
    let mut map = TryHashMap::new(alloc);
    assert_eq!(rt; map.insert(7u64, 'a')?, None);
    assert_eq!(rt; map.insert(7, 'b')?, Some('a'));
    assert_eq!(rt; (map.get(&7), map.contains_key(&8)), (Some(&'b'), false));
    if let Some(letter) = map.get_mut(&7) {
        *letter = 'c';
    }
    // end
    assert_eq!(rt; map.len(), 1);
    Ok(())
}

#[test]
fn taken_out(rt: HostRuntime) -> Result<(), Fail> {
    let alloc = rt.alloc();
    // example: TryHashMap::default, TryHashMap::try_extend, TryHashMap::remove, TryHashMap::len, TryHashMap::is_empty, TryHashMap::clear
    let mut map = TryHashMap::default(alloc); // as `new`
    map.try_extend([(1u64, 'a'), (2, 'b')])?;
    assert_eq!(rt; (map.remove(&1), map.remove(&1)), (Some('a'), None));
    assert_eq!(rt; map.len(), 1);
    map.clear();
    assert!(rt; map.is_empty());
    // end
    Ok(())
}

#[test]
fn room_first(rt: HostRuntime) -> Result<(), Fail> {
    let alloc = rt.alloc();
    // example: TryHashMap::with_capacity, TryHashMap::reserve
    let mut map = TryHashMap::with_capacity(alloc, 10)?;
    map.reserve(20)?; // so many insertions are then never refused
    assert!(rt; map.insert(1u64, 'a').is_ok());
    // end
    Ok(())
}

#[test]
fn walked(rt: HostRuntime) -> Result<(), Fail> {
    let alloc = rt.alloc();
    // example: TryHashMap::iter, TryHashMap::retain, TryHashMap::into_keys
    let mut map = TryHashMap::new(alloc);
    map.try_extend([(1u64, 'a'), (2, 'b'), (3, 'c')])?;
    map.retain(|key, _letter| *key != 2);
    assert!(rt; map.iter().any(|(key, _letter)| *key == 3)); // in no order
    assert!(rt; map.into_keys().all(|key| key != 2));
    // end
    Ok(())
}

#[test]
fn values_taken(rt: HostRuntime) -> Result<(), Fail> {
    let alloc = rt.alloc();
    // example: TryHashMap::into_values
    let mut map = TryHashMap::new(alloc);
    map.insert(1u64, 'a')?;
    assert_eq!(rt; map.into_values().next(), Some('a'));
    // end
    Ok(())
}

#[test]
fn one_item(rt: HostRuntime) -> Result<(), Fail> {
    let alloc = rt.alloc();
    // example: TryHashSet::new, TryHashSet::insert, TryHashSet::replace, TryHashSet::len, TryHashSet::is_empty
    let mut set = TryHashSet::new(alloc);
    assert!(rt; set.is_empty());
    assert!(rt; set.insert(7u64)?);
    assert!(rt; !set.insert(7)?);
    assert_eq!(rt; (set.replace(7)?, set.len()), (Some(7), 1));
    assert!(rt; set.contains(&7)); // std's, by `Deref`
    // end
    Ok(())
}

#[test]
fn room_for_items(rt: HostRuntime) -> Result<(), Fail> {
    let alloc = rt.alloc();
    // example: TryHashSet::with_capacity, TryHashSet::reserve, TryHashSet::try_extend
    let mut set = TryHashSet::with_capacity(alloc, 10)?;
    set.reserve(20)?; // so many insertions are then never refused
    set.try_extend([1u64, 2, 2])?;
    assert_eq!(rt; set.len(), 2);
    // end
    Ok(())
}

#[test]
fn compared(rt: HostRuntime) -> Result<(), Fail> {
    let alloc = rt.alloc();
    let mut a = TryHashSet::default(alloc);
    let mut b = TryHashSet::default(alloc);
    // example: TryHashSet::default, TryHashSet::is_subset, TryHashSet::is_superset, TryHashSet::is_disjoint
    a.try_extend([1u64, 2])?; // `a` and `b` are made by `TryHashSet::default(alloc)`
    b.try_extend([2u64])?;
    assert!(rt; b.is_subset(&a));
    assert!(rt; a.is_superset(&b));
    assert!(rt; !a.is_disjoint(&b));
    // end
    Ok(())
}

#[test]
fn joined(rt: HostRuntime) -> Result<(), Fail> {
    let alloc = rt.alloc();
    let mut a = TryHashSet::new(alloc);
    let mut b = TryHashSet::new(alloc);
    // example: TryHashSet::union, TryHashSet::intersection, TryHashSet::difference, TryHashSet::symmetric_difference
    a.try_extend([1u64, 2])?;
    b.try_extend([2u64, 3])?;
    assert!(rt; a.union(&b).any(|item| *item == 3)); // 1, 2, 3 in no order
    assert_eq!(rt; a.intersection(&b).next(), Some(&2));
    assert_eq!(rt; a.difference(&b).next(), Some(&1));
    assert!(rt; a.symmetric_difference(&b).all(|item| *item != 2));
    // end
    Ok(())
}
