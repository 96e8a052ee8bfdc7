//! Examples of the map's calls, as the pages show them.
use fc_base::{Count, TryClone};
use fc_map::map::{
    BTreeMap, Entry, IntoKeys, IntoValues, Keys, Reservation, Values, insert_both, is_range,
};
use fc_vec::{TryCollect, TryFromIterator};
use std::ops::Bound;
use std::test::Fail;

#[test]
fn one_key(rt: HostRuntime) -> Result<(), Fail> {
    let alloc = rt.alloc();
    // example: BTreeMap::new, BTreeMap::try_insert, BTreeMap::len, BTreeMap::is_empty, BTreeMap::clear
    let mut map = BTreeMap::new(alloc);
    assert_eq!(rt; map.try_insert(7u64, 'a')?, None);
    assert_eq!(rt; map.try_insert(7, 'b')?, Some('a')); // the key was there
    assert_eq!(rt; (map.len(), map.is_empty()), (1, false));
    map.clear();
    assert!(rt; map.is_empty());
    // end
    Ok(())
}

#[test]
fn look_ups(rt: HostRuntime) -> Result<(), Fail> {
    let alloc = rt.alloc();
    // example: BTreeMap::get, BTreeMap::get_key_value, BTreeMap::contains_key, BTreeMap::get_mut
    let mut map = BTreeMap::new(alloc);
    map.try_extend([(3u64, 'c'), (5, 'e')])?;
    assert_eq!(rt; map.get_key_value(&5), Some((&5, &'e')));
    assert!(rt; !map.contains_key(&4));
    if let Some(letter) = map.get_mut(&3) {
        *letter = 'x';
    }
    assert_eq!(rt; map.get(&3), Some(&'x'));
    // end
    Ok(())
}

#[test]
fn removals(rt: HostRuntime) -> Result<(), Fail> {
    let alloc = rt.alloc();
    // example: BTreeMap::default, BTreeMap::try_extend, BTreeMap::remove, BTreeMap::remove_entry
    let mut map = BTreeMap::default(alloc); // as `new`
    map.try_extend([(3u64, 'c'), (1, 'a'), (5, 'e')])?;
    assert_eq!(rt; (map.remove(&3), map.remove(&3)), (Some('c'), None));
    assert_eq!(rt; map.remove_entry(&5), Some((5, 'e')));
    assert_eq!(rt; map.len(), 1);
    // end
    Ok(())
}

#[test]
fn counted_look_ups(rt: HostRuntime) -> Result<(), Fail> {
    let alloc = rt.alloc();
    // example: BTreeMap::get_counted, BTreeMap::remove_counted, Count::new
    let mut map = BTreeMap::new(alloc);
    map.try_extend([(1u64, 'a'), (2, 'b'), (3, 'c')])?;
    let mut count = Count::new(); // for contracts: it has no bytes
    assert_eq!(rt; map.get_counted(&2, &mut count), Some(&'b'));
    assert_eq!(rt; map.remove_counted(&1, &mut count), Some('a'));
    // end
    Ok(())
}

#[test]
fn neighbours(rt: HostRuntime) -> Result<(), Fail> {
    let alloc = rt.alloc();
    // example: BTreeMap::first_at_or_after, BTreeMap::first_after, BTreeMap::last_at_or_before, BTreeMap::last_before
    let mut map = BTreeMap::new(alloc);
    map.try_extend([(10u64, 'a'), (20, 'b'), (30, 'c')])?;
    assert_eq!(rt; map.first_at_or_after(&20), Some((&20, &'b')));
    assert_eq!(rt; map.first_after(&20), Some((&30, &'c')));
    assert_eq!(rt; map.last_at_or_before(&29), Some((&20, &'b')));
    assert_eq!(rt; map.last_before(&10), None);
    // end
    Ok(())
}

#[test]
fn entries_by_a_key(rt: HostRuntime) -> Result<(), Fail> {
    let alloc = rt.alloc();
    // example: BTreeMap::try_entry, Entry::or_try_insert, Entry::and_modify, Entry::or_default, Entry::key
    let mut counts = BTreeMap::new(alloc);
    let count = counts.try_entry('a')?.or_try_insert(0u64)?;
    *count = count.wrapping_add(1);
    let entry = counts.try_entry('a')?.and_modify(|count| *count = 5);
    assert_eq!(rt; *entry.key(), 'a');
    assert_eq!(rt; *entry.or_default()?, 5);
    assert_eq!(rt; *counts.try_entry('b')?.or_default()?, 0);
    // end
    Ok(())
}

#[test]
fn entries_by_what_is_made(rt: HostRuntime) -> Result<(), Fail> {
    let alloc = rt.alloc();
    // example: Entry::or_try_insert_with, Entry::or_try_insert_with_key
    let mut map = BTreeMap::new(alloc);
    assert_eq!(rt; *map.try_entry(3u64)?.or_try_insert_with(|| 7u64)?, 7);
    assert_eq!(rt; *map.try_entry(5)?.or_try_insert_with_key(|key| *key)?, 5);
    assert_eq!(rt; map.len(), 2);
    // end
    Ok(())
}

#[test]
fn occupied_entries(rt: HostRuntime) -> Result<(), Fail> {
    let alloc = rt.alloc();
    let mut map = BTreeMap::new(alloc);
    // example: OccupiedEntry::key, OccupiedEntry::get, OccupiedEntry::get_mut, OccupiedEntry::insert, OccupiedEntry::remove
    map.try_insert(3u64, 'c')?;
    if let Entry::Occupied(mut entry) = map.try_entry(3)? {
        assert_eq!(rt; (*entry.key(), *entry.get()), (3, 'c'));
        *entry.get_mut() = 'x';
        assert_eq!(rt; entry.insert('y'), 'x');
        assert_eq!(rt; entry.remove(), 'y');
    }
    assert!(rt; map.is_empty());
    // end
    Ok(())
}

#[test]
fn vacant_entries(rt: HostRuntime) -> Result<(), Fail> {
    let alloc = rt.alloc();
    let mut map = BTreeMap::new(alloc);
    // example: VacantEntry::key, VacantEntry::try_insert
    if let Entry::Vacant(entry) = map.try_entry(3u64)? {
        assert_eq!(rt; *entry.key(), 3);
        *entry.try_insert('c')? = 'd'; // the value is lent for writing
    }
    assert_eq!(rt; map.get(&3), Some(&'d'));
    // end
    Ok(())
}

#[test]
fn entries_given_up(rt: HostRuntime) -> Result<(), Fail> {
    let alloc = rt.alloc();
    let mut map = BTreeMap::new(alloc);
    // example: VacantEntry::into_key, ReadyEntry::key, ReadyEntry::into_key
    if let Entry::Vacant(entry) = map.try_entry(3u64)? {
        assert_eq!(rt; entry.into_key(), 3);
    }
    if let Entry::Vacant(entry) = map.try_entry(5)? {
        let ready = entry.try_ready()?;
        assert_eq!(rt; (*ready.key(), ready.into_key()), (5, 5));
    }
    assert_eq!(rt; (map.try_insert(1, 'a')?, map.len()), (None, 1));
    // end
    Ok(())
}

#[test]
fn ready_entries(rt: HostRuntime) -> Result<(), Fail> {
    let alloc = rt.alloc();
    let mut map = BTreeMap::new(alloc);
    // example: VacantEntry::try_ready, ReadyEntry::insert, ReadyEntry::insert_entry
    if let Entry::Vacant(entry) = map.try_entry(3u64)? {
        let ready = entry.try_ready()?; // all that may be refused
        let Ok(_value) = ready.insert('c');
    }
    if let Entry::Vacant(entry) = map.try_entry(5)? {
        assert_eq!(rt; *entry.try_ready()?.insert_entry('e').get(), 'e');
    }
    // end
    assert_eq!(rt; map.len(), 2);
    Ok(())
}

#[test]
fn ends(rt: HostRuntime) -> Result<(), Fail> {
    let alloc = rt.alloc();
    // example: BTreeMap::first_key_value, BTreeMap::last_key_value, BTreeMap::pop_first, BTreeMap::pop_last
    let mut map = BTreeMap::new(alloc);
    map.try_extend([(3u64, 'c'), (1, 'a'), (5, 'e')])?;
    assert_eq!(rt; map.first_key_value(), Some((&1, &'a')));
    assert_eq!(rt; map.pop_first(), Some((1, 'a')));
    assert_eq!(rt; map.pop_last(), Some((5, 'e')));
    assert_eq!(rt; map.last_key_value(), Some((&3, &'c')));
    // end
    Ok(())
}

#[test]
fn ends_by_a_test(rt: HostRuntime) -> Result<(), Fail> {
    let alloc = rt.alloc();
    // example: BTreeMap::pop_first_if, BTreeMap::pop_last_if
    let mut due = BTreeMap::new(alloc);
    due.try_extend([(10u64, 'a'), (20, 'b'), (30, 'c')])?;
    let first = due.pop_first_if(|time, _letter| *time <= 15);
    let second = due.pop_first_if(|time, _letter| *time <= 15);
    assert_eq!(rt; (first, second), (Some((10, 'a')), None));
    let last = due.pop_last_if(|_time, letter| *letter == 'c');
    assert_eq!(rt; last, Some((30, 'c')));
    // end
    Ok(())
}

#[test]
fn entries_at_the_ends(rt: HostRuntime) -> Result<(), Fail> {
    let alloc = rt.alloc();
    let mut map = BTreeMap::new(alloc);
    // example: BTreeMap::first_entry, BTreeMap::last_entry, OccupiedEntry::into_mut, OccupiedEntry::remove_entry
    map.try_extend([(1u64, 'a'), (3, 'c')])?;
    if let Some(entry) = map.first_entry() {
        *entry.into_mut() = 'x';
    }
    if let Some(entry) = map.last_entry() {
        assert_eq!(rt; entry.remove_entry(), (3, 'c'));
    }
    // end
    assert_eq!(rt; map.get(&1), Some(&'x'));
    Ok(())
}

#[test]
fn entries_after_a_key(rt: HostRuntime) -> Result<(), Fail> {
    let alloc = rt.alloc();
    let mut map = BTreeMap::new(alloc);
    // example: BTreeMap::first_entry_at_or_after, BTreeMap::first_entry_after
    map.try_extend([(10u64, 'a'), (20, 'b'), (30, 'c')])?;
    if let Some(mut entry) = map.first_entry_at_or_after(&15) {
        assert_eq!(rt; (*entry.key(), entry.insert('x')), (20, 'b'));
    }
    if let Some(entry) = map.first_entry_after(&20) {
        assert_eq!(rt; entry.remove_entry(), (30, 'c'));
    }
    // end
    Ok(())
}

#[test]
fn entries_before_a_key(rt: HostRuntime) -> Result<(), Fail> {
    let alloc = rt.alloc();
    let mut map = BTreeMap::new(alloc);
    // example: BTreeMap::last_entry_at_or_before, BTreeMap::last_entry_before
    map.try_extend([(10u64, 'a'), (20, 'b'), (30, 'c')])?;
    if let Some(mut entry) = map.last_entry_at_or_before(&25) {
        assert_eq!(rt; (*entry.key(), entry.insert('x')), (20, 'b'));
    }
    if let Some(entry) = map.last_entry_before(&20) {
        assert_eq!(rt; entry.remove_entry(), (10, 'a'));
    }
    // end
    Ok(())
}

#[test]
fn two_maps(rt: HostRuntime) -> Result<(), Fail> {
    let alloc = rt.alloc();
    // example: insert_both
    let mut names = BTreeMap::new(alloc);
    let mut numbers = BTreeMap::new(alloc);
    // Both are put in, or neither is.
    insert_both(&mut names, &mut numbers, 7u64, "seven", "seven", 7u64)?;
    assert_eq!(rt; names.get(&7), Some(&"seven"));
    assert_eq!(rt; numbers.get("seven"), Some(&7));
    // end
    Ok(())
}

#[test]
fn reserved_nodes(rt: HostRuntime) -> Result<(), Fail> {
    let alloc = rt.alloc();
    // example: BTreeMap::try_reserve_nodes, BTreeMap::insert_reserved, Reservation::places, Reservation::pairs
    let mut map = BTreeMap::new(alloc);
    let mut reservation = map.try_reserve_nodes(2)?;
    map.insert_reserved(&mut reservation, 3u64, 'c'); // can't be refused
    map.insert_reserved(&mut reservation, 5, 'e');
    assert_eq!(rt; reservation.places(), 0);
    assert!(rt; map.len() <= reservation.pairs());
    // end
    Ok(())
}

#[test]
fn reservation_for_any_map(rt: HostRuntime) -> Result<(), Fail> {
    let alloc = rt.alloc();
    // example: Reservation::try_new
    let mut reservation = Reservation::try_new(alloc, 100, 1)?; // one pair into a map of fewer than 100
    let mut map = BTreeMap::new(alloc);
    if reservation.places() > 0 && map.len() < reservation.pairs() {
        map.insert_reserved(&mut reservation, 3u64, 'c');
    }
    assert_eq!(rt; map.len(), 1);
    // end
    Ok(())
}

#[test]
fn joined(rt: HostRuntime) -> Result<(), Fail> {
    let alloc = rt.alloc();
    // example: BTreeMap::append
    let mut map = BTreeMap::new(alloc);
    let mut other = BTreeMap::new(alloc);
    map.try_extend([(1u64, 'a'), (2, 'b')])?;
    other.try_extend([(2u64, 'x'), (3, 'c')])?;
    map.append(&mut other)?;
    assert!(rt; other.is_empty());
    assert_eq!(rt; map.len(), 3);
    assert_eq!(rt; map.get(&2), Some(&'x'));
    // end
    Ok(())
}

#[test]
fn cut(rt: HostRuntime) -> Result<(), Fail> {
    let alloc = rt.alloc();
    // example: BTreeMap::split_off
    let mut low = BTreeMap::new(alloc);
    low.try_extend([(1u64, 'a'), (2, 'b'), (3, 'c')])?;
    let high = low.split_off(&2)?;
    assert_eq!(rt; (low.len(), high.first_key_value()), (1, Some((&2, &'b'))));
    // end
    Ok(())
}

#[test]
fn copied(rt: HostRuntime) -> Result<(), Fail> {
    let alloc = rt.alloc();
    // example: TryClone::try_clone
    let mut map = BTreeMap::new(alloc);
    map.try_extend([(1u64, 'a'), (2, 'b')])?;
    let copy = map.try_clone()?;
    assert_eq!(rt; copy, map);
    // end
    Ok(())
}

#[test]
fn from_a_vector(rt: HostRuntime) -> Result<(), Fail> {
    let alloc = rt.alloc();
    // example: BTreeMap::try_extend_from_vec
    let mut map = BTreeMap::new(alloc);
    let pairs = Vec::from_array(alloc, [(3u64, 'c'), (1, 'a')])?;
    if map.try_extend_from_vec(pairs).is_ok() {
        assert_eq!(rt; map.first_key_value(), Some((&1, &'a')));
    }
    // end
    Ok(())
}

#[test]
fn from_an_iterator(rt: HostRuntime) -> Result<(), Fail> {
    let alloc = rt.alloc();
    // example: TryFromIterator::try_from_iterator
    // The trait has to be imported, for maps and sets as for vectors.
    let map: BTreeMap<u64, char> = TryFromIterator::try_from_iterator(alloc, [(3, 'c'), (1, 'a')])?;
    assert_eq!(rt; map.len(), 2);
    // end
    Ok(())
}

#[test]
fn collected(rt: HostRuntime) -> Result<(), Fail> {
    let alloc = rt.alloc();
    // example: TryCollect::try_collect
    let roots = [3u64, 2, 1];
    let pairs = roots.iter().map(|root| (*root, root.wrapping_mul(*root)));
    let squares: BTreeMap<u64, u64> = TryCollect::try_collect(pairs, alloc)?;
    assert_eq!(rt; squares.get(&3), Some(&9));
    // end
    Ok(())
}

#[test]
fn kept_and_extracted(rt: HostRuntime) -> Result<(), Fail> {
    let alloc = rt.alloc();
    // example: BTreeMap::retain, BTreeMap::extract_if
    let mut map = BTreeMap::new(alloc);
    map.try_extend([(1u64, 'a'), (2, 'b'), (3, 'c'), (4, 'd')])?;
    map.retain(|key, _letter| *key != 2);
    let mut last = 0;
    map.extract_if(|key, _letter| *key >= 3, |key, _letter| last = key);
    assert_eq!(rt; (last, map.len()), (4, 1));
    // end
    Ok(())
}

#[test]
fn within_ranges(rt: HostRuntime) -> Result<(), Fail> {
    let alloc = rt.alloc();
    // example: BTreeMap::retain_range, BTreeMap::extract_range_if, BTreeMap::remove_range
    let mut map = BTreeMap::new(alloc);
    map.try_extend([(1u64, 'a'), (2, 'b'), (3, 'c'), (4, 'd'), (5, 'e')])?;
    map.retain_range(..3, |key, _letter| *key != 2); // 1 3 4 5
    let mut sum = 0u64;
    map.extract_range_if(4.., |key, _letter| *key > 4, |key, _letter| sum = key);
    assert_eq!(rt; (sum, map.remove_range(3..=4), map.len()), (5, 2, 1));
    // end
    Ok(())
}

#[test]
fn walks(rt: HostRuntime) -> Result<(), Fail> {
    let alloc = rt.alloc();
    // example: BTreeMap::iter, BTreeMap::keys, BTreeMap::values, map::Iter::len, Keys::len, Values::len
    let mut map = BTreeMap::new(alloc);
    map.try_extend([(3u64, 'c'), (1, 'a')])?;
    let mut walk = map.iter();
    assert_eq!(rt; (walk.len(), walk.next()), (2, Some((&1, &'a'))));
    assert_eq!(rt; (map.keys().next_back(), map.keys().len()), (Some(&3), 2));
    assert_eq!(rt; (map.values().next(), map.values().len()), (Some(&'a'), 2));
    // end
    Ok(())
}

#[test]
fn walks_of_walks(rt: HostRuntime) -> Result<(), Fail> {
    let alloc = rt.alloc();
    // example: Keys::of, Values::of
    let mut map = BTreeMap::new(alloc);
    map.try_insert(3u64, 'c')?;
    assert_eq!(rt; Keys::of(map.iter()).next(), Some(&3)); // as `map.keys()`
    assert_eq!(rt; Values::of(map.iter()).next(), Some(&'c'));
    // end
    Ok(())
}

#[test]
fn ranges(rt: HostRuntime) -> Result<(), Fail> {
    let alloc = rt.alloc();
    // example: BTreeMap::range
    let mut map = BTreeMap::new(alloc);
    map.try_extend([(1u64, 'a'), (3, 'c'), (5, 'e')])?;
    assert_eq!(rt; map.range(2..5).next(), Some((&3, &'c')));
    assert_eq!(rt; map.range(..=5).count(), 3);
    let above = map.range((Bound::Excluded(&3), Bound::Unbounded)).next();
    assert_eq!(rt; above, Some((&5, &'e')));
    // end
    Ok(())
}

#[test]
fn bounds_of_ranges(rt: HostRuntime) -> Result<(), Fail> {
    // example: is_range
    let low = Bound::Included(&3u64);
    assert!(rt; is_range(&low, &Bound::Excluded(&5)));
    assert!(rt; !is_range(&low, &Bound::Excluded(&1)));
    // end
    Ok(())
}

#[test]
fn taken_apart(rt: HostRuntime) -> Result<(), Fail> {
    let alloc = rt.alloc();
    // example: map::IntoIter::len, IntoKeys::of
    let mut map = BTreeMap::new(alloc);
    map.try_extend([(3u64, 'c'), (1, 'a')])?;
    let mut walk = map.into_iter();
    assert_eq!(rt; (walk.len(), walk.next()), (2, Some((1, 'a'))));
    let mut left = IntoKeys::of(walk);
    assert_eq!(rt; left.next(), Some(3));
    // end
    Ok(())
}

#[test]
fn values_left(rt: HostRuntime) -> Result<(), Fail> {
    let alloc = rt.alloc();
    // example: IntoValues::of
    let mut map = BTreeMap::new(alloc);
    map.try_extend([(3u64, 'c'), (1, 'a')])?;
    let mut left = IntoValues::of(map.into_iter());
    assert_eq!(rt; left.next(), Some('a'));
    // end
    Ok(())
}

#[test]
fn keys_taken(rt: HostRuntime) -> Result<(), Fail> {
    let alloc = rt.alloc();
    // example: BTreeMap::into_keys, IntoKeys::len
    let mut map = BTreeMap::new(alloc);
    map.try_extend([(3u64, 'c'), (1, 'a')])?;
    let mut keys = map.into_keys();
    assert_eq!(rt; keys.len(), 2);
    assert_eq!(rt; keys.next(), Some(1));
    assert_eq!(rt; keys.next_back(), Some(3));
    // end
    Ok(())
}

#[test]
fn values_taken(rt: HostRuntime) -> Result<(), Fail> {
    let alloc = rt.alloc();
    // example: BTreeMap::into_values, IntoValues::len
    let mut map = BTreeMap::new(alloc);
    map.try_extend([(3u64, 'c'), (1, 'a')])?;
    let mut values = map.into_values();
    assert_eq!(rt; (values.len(), values.next()), (2, Some('a')));
    // end
    Ok(())
}

#[test]
fn writing_walks(rt: HostRuntime) -> Result<(), Fail> {
    let alloc = rt.alloc();
    // example: BTreeMap::iter_mut, IterMut::for_each, BTreeMap::values_mut, IterMut::len
    let mut map = BTreeMap::new(alloc);
    map.try_extend([(1u64, 10u64), (2, 20)])?;
    map.iter_mut().for_each(|key, value| *value = *key);
    let walk = map.values_mut();
    assert_eq!(rt; walk.len(), 2);
    walk.for_each(|_key, value| *value = value.wrapping_add(5)); // the key comes too
    assert_eq!(rt; map.get(&2), Some(&7));
    // end
    Ok(())
}

#[test]
fn writing_steps(rt: HostRuntime) -> Result<(), Fail> {
    let alloc = rt.alloc();
    let mut map = BTreeMap::new(alloc);
    map.try_extend([(1u64, 10u64), (2, 20), (3, 30)])?;
    // example: IterMut::next, IterMut::next_back, IterMut::peek, IterMut::peek_back, IterMut::is_done
    let mut walk = map.iter_mut();
    assert_eq!(rt; walk.peek(), Some((&1, &10)));
    assert_eq!(rt; walk.peek_back(), Some((&3, &30)));
    if let Some(value) = walk.next() {
        *value = 11; // one value is lent at a time, without its key
    }
    let _last = walk.next_back();
    assert_eq!(rt; (walk.is_done(), walk.peek()), (false, Some((&2, &20))));
    // end
    Ok(())
}

#[test]
fn writing_in_ranges(rt: HostRuntime) -> Result<(), Fail> {
    let alloc = rt.alloc();
    // example: BTreeMap::range_mut, RangeMut::for_each
    let mut map = BTreeMap::new(alloc);
    map.try_extend([(1u64, 10u64), (2, 20), (3, 30)])?;
    map.range_mut(2..).for_each(|_key, value| *value = 0);
    assert_eq!(rt; (map.get(&1), map.get(&3)), (Some(&10), Some(&0)));
    // end
    Ok(())
}

#[test]
fn steps_in_ranges(rt: HostRuntime) -> Result<(), Fail> {
    let alloc = rt.alloc();
    let mut map = BTreeMap::new(alloc);
    map.try_extend([(1u64, 10u64), (2, 20), (3, 30)])?;
    // example: RangeMut::next, RangeMut::next_back, RangeMut::peek, RangeMut::peek_back, RangeMut::is_done
    let mut walk = map.range_mut(1..3);
    assert_eq!(rt; walk.peek(), Some((&1, &10)));
    assert_eq!(rt; walk.peek_back(), Some((&2, &20)));
    if let Some(value) = walk.next() {
        *value = 11;
    }
    let _last = walk.next_back();
    assert!(rt; walk.is_done());
    // end
    Ok(())
}
