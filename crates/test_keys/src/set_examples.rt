//! Examples of the set's calls, as the pages show them.
use fc_base::Count;
use fc_set::set::BTreeSet;
use std::test::Fail;

#[test]
fn one_item(rt: HostRuntime) -> Result<(), Fail> {
    let alloc = rt.alloc();
    // example: BTreeSet::new, BTreeSet::try_insert, BTreeSet::contains, BTreeSet::len, BTreeSet::is_empty, BTreeSet::clear
    let mut set = BTreeSet::new(alloc);
    assert_eq!(rt; (set.try_insert(7u64)?, set.try_insert(7)?), (true, false));
    assert_eq!(rt; (set.contains(&7), set.len()), (true, 1));
    set.clear();
    assert!(rt; set.is_empty());
    // end
    Ok(())
}

#[test]
fn items_found_and_taken(rt: HostRuntime) -> Result<(), Fail> {
    let alloc = rt.alloc();
    // example: BTreeSet::default, BTreeSet::try_extend, BTreeSet::get, BTreeSet::remove, BTreeSet::take, BTreeSet::replace
    let mut set = BTreeSet::default(alloc); // as `new`
    set.try_extend([3u64, 1, 5])?;
    assert_eq!(rt; set.get(&3), Some(&3));
    assert_eq!(rt; (set.remove(&3), set.remove(&3)), (true, false));
    assert_eq!(rt; (set.take(&5), set.take(&5)), (Some(5), None));
    assert_eq!(rt; (set.replace(1)?, set.replace(2)?), (Some(1), None));
    // end
    Ok(())
}

#[test]
fn counted(rt: HostRuntime) -> Result<(), Fail> {
    let alloc = rt.alloc();
    // example: BTreeSet::contains_counted
    let mut set = BTreeSet::new(alloc);
    set.try_extend([3u64, 1, 5])?;
    let mut count = Count::new(); // for contracts: it has no bytes
    assert!(rt; set.contains_counted(&3, &mut count));
    // end
    Ok(())
}

#[test]
fn neighbours(rt: HostRuntime) -> Result<(), Fail> {
    let alloc = rt.alloc();
    // example: BTreeSet::first_at_or_after, BTreeSet::first_after, BTreeSet::last_at_or_before, BTreeSet::last_before
    let mut set = BTreeSet::new(alloc);
    set.try_extend([10u64, 20, 30])?;
    assert_eq!(rt; set.first_at_or_after(&20), Some(&20));
    assert_eq!(rt; set.first_after(&20), Some(&30));
    assert_eq!(rt; set.last_at_or_before(&29), Some(&20));
    assert_eq!(rt; set.last_before(&10), None);
    // end
    Ok(())
}

#[test]
fn ends(rt: HostRuntime) -> Result<(), Fail> {
    let alloc = rt.alloc();
    // example: BTreeSet::first, BTreeSet::last, BTreeSet::pop_first, BTreeSet::pop_last
    let mut set = BTreeSet::new(alloc);
    set.try_extend([3u64, 1, 5])?;
    assert_eq!(rt; (set.first(), set.last()), (Some(&1), Some(&5)));
    assert_eq!(rt; set.pop_first(), Some(1));
    assert_eq!(rt; set.pop_last(), Some(5));
    assert_eq!(rt; set.len(), 1);
    // end
    Ok(())
}

#[test]
fn walks(rt: HostRuntime) -> Result<(), Fail> {
    let alloc = rt.alloc();
    // example: BTreeSet::iter, BTreeSet::range, set::Iter::len
    let mut set = BTreeSet::new(alloc);
    set.try_extend([3u64, 1, 5])?;
    let mut walk = set.iter();
    assert_eq!(rt; walk.len(), 3);
    assert_eq!(rt; walk.next(), Some(&1));
    assert_eq!(rt; walk.next_back(), Some(&5));
    assert_eq!(rt; set.range(2..=5).count(), 2);
    // end
    Ok(())
}

#[test]
fn taken_apart(rt: HostRuntime) -> Result<(), Fail> {
    let alloc = rt.alloc();
    // example: set::IntoIter::len
    let mut set = BTreeSet::new(alloc);
    set.try_extend([3u64, 1])?;
    let mut walk = set.into_iter();
    assert_eq!(rt; (walk.len(), walk.next()), (2, Some(1)));
    // end
    Ok(())
}

#[test]
fn lazy_differences(rt: HostRuntime) -> Result<(), Fail> {
    let alloc = rt.alloc();
    let mut a = BTreeSet::new(alloc);
    let mut b = BTreeSet::new(alloc);
    // example: BTreeSet::difference, BTreeSet::symmetric_difference, Difference::next, SymmetricDifference::next
    a.try_extend([1u64, 2])?;
    b.try_extend([2u64, 3])?;
    assert_eq!(rt; a.difference(&b).next(), Some(&1));
    let mut apart = a.symmetric_difference(&b);
    assert_eq!(rt; apart.next(), Some(&1));
    assert_eq!(rt; apart.next(), Some(&3));
    assert_eq!(rt; apart.next(), None);
    // end
    Ok(())
}

#[test]
fn lazy_unions(rt: HostRuntime) -> Result<(), Fail> {
    let alloc = rt.alloc();
    let mut a = BTreeSet::new(alloc);
    let mut b = BTreeSet::new(alloc);
    // example: BTreeSet::intersection, BTreeSet::union, Intersection::next, Union::next
    a.try_extend([1u64, 2])?;
    b.try_extend([2u64, 3])?;
    assert_eq!(rt; a.intersection(&b).next(), Some(&2));
    let mut all = a.union(&b);
    assert_eq!(rt; all.next(), Some(&1));
    assert_eq!(rt; all.next(), Some(&2));
    assert_eq!(rt; all.next(), Some(&3));
    // end
    Ok(())
}

#[test]
fn new_sets(rt: HostRuntime) -> Result<(), Fail> {
    let alloc = rt.alloc();
    let mut a = BTreeSet::new(alloc);
    let mut b = BTreeSet::new(alloc);
    // example: BTreeSet::bitor, BTreeSet::bitand
    a.try_extend([1u64, 2])?;
    b.try_extend([2u64, 3])?;
    assert_eq!(rt; a.bitor(&b)?.len(), 3); // std's `&a | &b`
    assert_eq!(rt; a.bitand(&b)?.first(), Some(&2)); // std's `&a & &b`
    // end
    Ok(())
}

#[test]
fn new_sets_of_what_differs(rt: HostRuntime) -> Result<(), Fail> {
    let alloc = rt.alloc();
    let mut a = BTreeSet::new(alloc);
    let mut b = BTreeSet::new(alloc);
    // example: BTreeSet::sub, BTreeSet::bitxor
    a.try_extend([1u64, 2])?;
    b.try_extend([2u64, 3])?;
    assert_eq!(rt; a.sub(&b)?.first(), Some(&1)); // std's `&a - &b`
    assert_eq!(rt; a.bitxor(&b)?.last(), Some(&3)); // std's `&a ^ &b`
    // end
    Ok(())
}

#[test]
fn compared(rt: HostRuntime) -> Result<(), Fail> {
    let alloc = rt.alloc();
    let mut a = BTreeSet::new(alloc);
    let mut b = BTreeSet::new(alloc);
    // example: BTreeSet::is_subset, BTreeSet::is_superset, BTreeSet::is_disjoint
    a.try_extend([1u64, 2])?;
    b.try_extend([2u64])?;
    assert!(rt; b.is_subset(&a));
    assert!(rt; a.is_superset(&b));
    assert!(rt; !a.is_disjoint(&b));
    // end
    Ok(())
}

#[test]
fn joined(rt: HostRuntime) -> Result<(), Fail> {
    let alloc = rt.alloc();
    let mut set = BTreeSet::new(alloc);
    let mut other = BTreeSet::new(alloc);
    // example: BTreeSet::append
    set.try_extend([1u64, 2])?;
    other.try_extend([2u64, 3])?;
    set.append(&mut other)?;
    assert_eq!(rt; (set.len(), other.is_empty()), (3, true));
    // end
    Ok(())
}

#[test]
fn cut(rt: HostRuntime) -> Result<(), Fail> {
    let alloc = rt.alloc();
    // example: BTreeSet::try_split_off
    let mut low = BTreeSet::new(alloc);
    low.try_extend([1u64, 2, 3])?;
    let high = low.try_split_off(&2)?;
    assert_eq!(rt; (low.len(), high.first()), (1, Some(&2)));
    // end
    Ok(())
}

#[test]
fn from_a_vector(rt: HostRuntime) -> Result<(), Fail> {
    let alloc = rt.alloc();
    // example: BTreeSet::try_extend_from_vec
    let mut set = BTreeSet::new(alloc);
    let items = Vec::from_array(alloc, [3u64, 1])?;
    if set.try_extend_from_vec(items).is_ok() {
        assert_eq!(rt; set.first(), Some(&1));
    }
    // end
    Ok(())
}

#[test]
fn reserved_nodes(rt: HostRuntime) -> Result<(), Fail> {
    let alloc = rt.alloc();
    // example: BTreeSet::try_reserve_nodes, BTreeSet::insert_reserved
    let mut set = BTreeSet::new(alloc);
    let mut reservation = set.try_reserve_nodes(1)?;
    assert!(rt; set.insert_reserved(&mut reservation, 3u64)); // can't be refused
    assert_eq!(rt; reservation.places(), 0);
    // end
    Ok(())
}

#[test]
fn kept_and_extracted(rt: HostRuntime) -> Result<(), Fail> {
    let alloc = rt.alloc();
    // example: BTreeSet::retain, BTreeSet::extract_if
    let mut set = BTreeSet::new(alloc);
    set.try_extend([1u64, 2, 3, 4])?;
    set.retain(|item| *item != 2);
    let mut sum = 0u64;
    set.extract_if(|item| *item >= 3, |item| sum = sum.wrapping_add(item));
    assert_eq!(rt; (sum, set.len()), (7, 1));
    // end
    Ok(())
}

#[test]
fn within_ranges(rt: HostRuntime) -> Result<(), Fail> {
    let alloc = rt.alloc();
    // example: BTreeSet::retain_range, BTreeSet::extract_range_if, BTreeSet::remove_range
    let mut set = BTreeSet::new(alloc);
    set.try_extend([1u64, 2, 3, 4, 5])?;
    set.retain_range(..3, |item| *item != 2); // 1 3 4 5
    let mut last = 0u64;
    set.extract_range_if(4.., |item| *item > 4, |item| last = item);
    assert_eq!(rt; (last, set.remove_range(3..=4), set.len()), (5, 2, 1));
    // end
    Ok(())
}
